// A frame as numbers, of which each may be any: what was decoded of its bytes, where the payload stands, and what it is to a reading.
// (`frame::Frame` holds what bytes decode to, and no other frame. Here a caller may put any number: a mark or a segmentation above 3, an id that is none, a payload that stands anywhere.)
ghost use Rattle.std.specs.Prelude.{◌≡◌, take, drop};
ghost use Rattle.reading.specs.Reading.{about_of, reading_after};
ghost use Rattle.reading.specs.Numbers.{bare_of, header_frame, command_frame, numbers_of, frame_of, payload_in, is_read, upload_piece, short_piece, piece_of};

use crate::{Piece, Reading, frame};
use protocol::{SdoClientInfo, SdoCommand, SequenceLayerHeader};

// What a frame is: too short for a header, without a command, with one, or with bytes that are none.
pub const SHORT: u8 = 0;

pub const EMPTY: u8 = 1;

pub const COMMAND: u8 = 2;

pub const UNREADABLE: u8 = 3;

// A frame. Numbers of parts that it lacks are 0.
#[derive(Clone, Copy)]
pub struct Frame {
    pub kind: u8,
    pub receive: u8,
    pub rcon: u8,
    pub send: u8,
    pub scon: u8,
    pub transaction: u8,
    pub response: bool,
    pub aborted: bool,
    pub segmentation: u8,
    pub id: u8,
    pub total: u32,
    pub start: usize,
    pub size: usize,
}

// A frame of a kind, with nothing in it.
pub fn bare(kind: u8) -> Frame
    ensures { result ≡ bare_of kind }
{
    Frame {
        kind,
        receive: 0,
        rcon: 0,
        send: 0,
        scon: 0,
        transaction: 0,
        response: false,
        aborted: false,
        segmentation: 0,
        id: 0,
        total: 0,
        start: 0,
        size: 0,
    }
}

// The frame with a header, and no command yet.
fn with_header(h: SequenceLayerHeader) -> Frame
    ensures { result ≡ header_frame h }
{
    Frame {
        receive: h.receive,
        rcon: u8::from(h.rcon),
        send: h.send,
        scon: u8::from(h.scon),
        ..bare(EMPTY)
    }
}

// The frame with a command.
fn with_command(f: Frame, c: SdoCommand) -> Frame
    ensures { result ≡ command_frame f c.header c.total }
{
    let h = c.header;
    Frame {
        kind: COMMAND,
        transaction: h.transaction,
        response: h.response,
        aborted: h.aborted,
        segmentation: u8::from(h.segmentation),
        id: u8::from(h.id),
        total: c.total.unwrap_or(0),
        start: 4 + fields::header_length(h.segmentation),
        size: usize::from(h.size),
        ..f
    }
}

// The numbers of a frame that is decoded.
fn numbers_of(f: frame::Frame) -> Frame
    ensures { result ≡ numbers_of f }
{
    match f {
        frame::Frame::Short => bare(SHORT),
        frame::Frame::Empty(header) => with_header(header),
        frame::Frame::Unreadable(header) => Frame {
            kind: UNREADABLE,
            ..with_header(header)
        },
        frame::Frame::Command(header, command) => with_command(with_header(header), command),
    }
}

// The frame of these bytes.
#[tactic(auto, using(crate::proofs::Same::frame_numbers))]
pub fn read(bytes: &[u8]) -> Frame
    ensures { result ≡ frame_of bytes.now }
{
    numbers_of(frame::read(bytes).frame)
}

// The frame's payload, as a part of its bytes.
pub fn payload(f: Frame, bytes: &[u8]) -> &[u8]
    ensures { result.now ≡ take f.size (drop f.start bytes.now) }
{
    octets::part(bytes, f.start, f.size)
}

// Whether a request asks for an object. On an error response no command is looked at.
pub fn is_read(f: Frame) -> bool
    ensures { result ≡ is_read f }
{
    (f.kind == COMMAND) & (f.id == 2) & (3 < f.size) & !f.aborted & (f.rcon != 3)
}

// What piece an upload's answer is.
#[tactic(auto, unfolding(crate::specs::Numbers::upload_piece, picks::specs::Pick::pick))]
fn upload_piece(a: Frame) -> Piece
    ensures { result ≡ upload_piece a }
{
    if a.scon == 3 {
        return Piece::Again;
    }
    match a.segmentation {
        1 => Piece::First(a.total),
        2 => Piece::Next,
        3 => Piece::Last,
        _ => Piece::Other,
    }
}

// What an answer that is no upload's is: the whole value where a read asked for it.
#[tactic(auto, unfolding(crate::specs::Numbers::short_piece, picks::specs::Pick::pick))]
fn short_piece(q: Frame, a: Frame) -> Piece
    ensures { result ≡ short_piece q a }
{
    if is_read(q) & (a.id == 0) & (a.segmentation == 0) & a.response {
        return Piece::Whole;
    }
    Piece::Other
}

// What an answer is to a request.
#[tactic(auto, unfolding(crate::specs::Numbers::piece_of, picks::specs::Pick::pick))]
pub fn piece_of(q: Frame, a: Frame, bytes: &[u8]) -> Piece
    ensures { result ≡ piece_of q a bytes.now }
{
    if a.kind != COMMAND {
        return Piece::Other;
    }
    if a.aborted {
        return Piece::Abort(octets::number_at(payload(a, bytes), 0));
    }
    if a.id == 2 {
        return upload_piece(a);
    }
    short_piece(q, a)
}

// A client's reading after the answer to a request, given what the answer is and the reading before.
pub fn next_reading(
    was: Reading,
    client: SdoClientInfo,
    p: Piece,
    q: Frame,
    request: &[u8],
    a: Frame,
    answer: &[u8],
) -> Reading
    ensures { result ≡ reading_after (about_of was client p (payload_in q request.now)) p (payload_in a answer.now) }
{
    let begun = crate::about(was, client, p, payload(q, request));
    crate::after_answer(begun, p, payload(a, answer))
}
