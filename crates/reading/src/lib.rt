// What a client is sent of an object: the pieces in the frames that answer it, how many bytes they are, and their CRC-32. It rests on the frames alone, as they were sent.
#![tactic(auto)]

pub mod frame;
pub mod numbers;
pub mod rows;

ghost use Rattle.std.specs.Prelude.{◌≡◌, ◌+◌, ◌-◌, min, length, fold};
ghost use Rattle.reading.specs.Frame.{payload_in};
ghost use Rattle.reading.specs.Reading.{REGISTER as FIRST, crc_bit, crc_bits, crc_byte, is_read, named, nobody, upload_piece, short_piece, piece_of, about_of, afresh, further, over, reading_after};

use frame::{Frame, Seen};
use protocol::{
    CommandId, CommandLayerHeader, ReceiveConnState, SdoClientInfo, SdoCommand, Segmentation,
    SendConnState, SequenceLayerHeader,
};

// What an answer is to a reading: no part of it, the whole value, its first piece with the size in Initiate, a later one, the last one, a piece sent before, or an abort with its code.
// (An answer that is no part of a reading has words on the sheet too, so it is a variant and no None; a frame may hold any number behind an abort, so the code stays a number.)
#[derive(Clone, Copy)]
pub enum Piece {
    Other,
    Whole,
    First(u32),
    Next,
    Last,
    Again,
    Abort(u32),
}

// A client's reading of an object: whether it is running, the size in Initiate, how many bytes were sent, and the CRC-32's register after them.
// (One that is over keeps its numbers for the sheet, so that `running` is no Option round them.)
#[derive(Clone, Copy)]
pub struct Reading {
    pub running: bool,
    pub client: SdoClientInfo,
    pub index: u16,
    pub sub: u8,
    pub total: u32,
    pub sent: u32,
    pub register: u32,
}

// The CRC-32's register before any byte.
const REGISTER: u32 = 0xFFFFFFFF;

// The register after one bit.
#[tactic(auto, unfolding(crate::specs::Reading::crc_bit, picks::specs::Pick::pick))]
fn crc_bit(r: u32) -> u32
    ensures { result ≡ crc_bit r }
{
    if r % 2 == 1 {
        return (r / 2) ^ 0xEDB88320;
    }
    r / 2
}

// The register after four bits.
#[tactic(auto, unfolding(crate::specs::Reading::crc_bits))]
fn crc_half(r: u32) -> u32
    ensures { result ≡ crc_bits 4 r }
{
    crc_bit(crc_bit(crc_bit(crc_bit(r))))
}

// The register after a byte.
fn crc_byte(r: u32, b: u8) -> u32
    ensures { result ≡ crc_byte r b }
{
    crc_half(crc_half(r ^ (b as u32)))
}

// The register after these bytes.
fn crc_over(r: u32, bytes: &[u8]) -> u32
    ensures { result ≡ fold crc_byte r bytes.now }
{
    bytes.iter().fold(r, |s, b| crc_byte(s, *b))
}

// The CRC-32 of the bytes that were sent.
pub fn crc_of(r: Reading) -> u32
    ensures { result ≡ FIRST - r.register }
{
    REGISTER - r.register
}

// A count of bytes with more of them, as far as a u32 goes.
fn more(sent: u32, bytes: &[u8]) -> u32
    ensures { result ≡ min (sent + length bytes.now) FIRST }
{
    sent.saturating_add(u32::try_from(bytes.len()).unwrap_or(u32::MAX))
}

// Whether a request asks for an object. On an error response no command is looked at.
pub fn is_read(f: Frame) -> bool
    ensures { result ≡ is_read f }
{
    let Frame::Command(header, command) = f else {
        return false;
    };
    let c = command.header;
    c.id == CommandId::ReadByIndex
        && 3 < c.size
        && !c.aborted
        && header.rcon != ReceiveConnState::ErrorResponse
}

// What piece an upload's answer is.
// (Header and command stay two: a frame may have the one without the other.)
#[tactic(auto, unfolding(crate::specs::Reading::upload_piece, picks::specs::Pick::pick))]
fn upload_piece(h: SequenceLayerHeader, c: SdoCommand) -> Piece
    ensures { result ≡ upload_piece h c }
{
    if h.scon == SendConnState::ConnectionValidAckRequest {
        return Piece::Again;
    }
    match c.header.segmentation {
        Segmentation::Expedited => Piece::Other,
        Segmentation::Initiate => Piece::First(c.total.unwrap_or(0)),
        Segmentation::Segment => Piece::Next,
        Segmentation::Complete => Piece::Last,
    }
}

// What an answer that is no upload's is: the whole value where a read asked for it.
#[tactic(auto, unfolding(crate::specs::Reading::short_piece, picks::specs::Pick::pick))]
fn short_piece(q: Frame, c: CommandLayerHeader) -> Piece
    ensures { result ≡ short_piece q c }
{
    if is_read(q)
        && c.id == CommandId::Nil
        && c.segmentation == Segmentation::Expedited
        && c.response
    {
        return Piece::Whole;
    }
    Piece::Other
}

// What an answer is to a request.
// (Two frames, each with bytes of its own: a tick's answer has no request.)
#[tactic(auto, unfolding(crate::specs::Reading::command_piece, picks::specs::Pick::pick))]
pub fn piece_of(q: Frame, a: Seen<'_>) -> Piece
    ensures { result ≡ piece_of q a.entry.frame a.entry.bytes.now }
{
    let Frame::Command(header, command) = a.frame else {
        return Piece::Other;
    };
    if command.header.aborted {
        return Piece::Abort(octets::number_at(a.payload(), 0));
    }
    if command.header.id == CommandId::ReadByIndex {
        return upload_piece(header, command);
    }
    short_piece(q, command.header)
}

// A reading of nobody.
pub fn no_reading() -> Reading
    ensures { result ≡ nobody }
{
    Reading {
        running: false,
        client: SdoClientInfo::Asnd { node: 0, mac: 0 },
        index: 0,
        sub: 0,
        total: 0,
        sent: 0,
        register: REGISTER,
    }
}

// A reading of the object that a read's payload names, of which nothing is sent yet.
// (By update of a reading with nothing, which is all that the two share.)
fn reading_of(client: SdoClientInfo, payload: &[u8]) -> Reading
    ensures { result ≡ named client payload.now }
{
    Reading {
        client,
        index: octets::number_at(payload, 0),
        sub: octets::byte_at(payload, 2),
        ..no_reading()
    }
}

// The reading that an answer is about: a first piece or a whole value begins one of the object that the request's payload names.
// (Reading and piece, here and below: a receiver and its argument.)
fn about(r: Reading, client: SdoClientInfo, p: Piece, payload: &[u8]) -> Reading
    ensures { result ≡ about_of r client p payload.now }
{
    match p {
        Piece::Whole | Piece::First(_) => reading_of(client, payload),
        Piece::Other | Piece::Next | Piece::Last | Piece::Again | Piece::Abort(_) => r,
    }
}

// A reading that runs from its first byte on.
fn afresh(r: Reading, total: u32) -> Reading
    ensures { result ≡ afresh r total }
{
    Reading {
        running: true,
        total,
        sent: 0,
        register: REGISTER,
        ..r
    }
}

// A reading that goes on with these bytes.
fn goes_on(r: Reading, bytes: &[u8]) -> Reading
    ensures { result ≡ further r r.running bytes.now }
{
    Reading {
        sent: more(r.sent, bytes),
        register: crc_over(r.register, bytes),
        ..r
    }
}

// A reading that runs no more.
fn over(r: Reading) -> Reading
    ensures { result ≡ over r }
{
    Reading {
        running: false,
        ..r
    }
}

// The reading after an answer: a piece sent before adds nothing.
fn after_answer(r: Reading, p: Piece, bytes: &[u8]) -> Reading
    ensures { result ≡ reading_after r p bytes.now }
{
    match p {
        Piece::Other | Piece::Again => r,
        Piece::Whole => over(goes_on(afresh(r, more(0, bytes)), bytes)),
        Piece::First(total) => goes_on(afresh(r, total), bytes),
        Piece::Next => goes_on(r, bytes),
        Piece::Last => over(goes_on(r, bytes)),
        Piece::Abort(_) => over(r),
    }
}

// A client's reading after the answer to a request, given what the answer is and the reading before.
pub fn next_reading(
    was: Reading,
    client: SdoClientInfo,
    p: Piece,
    q: Seen<'_>,
    a: Seen<'_>,
) -> Reading
    ensures { result ≡ reading_after (about_of was client p (payload_in q.entry.frame q.entry.bytes.now)) p (payload_in a.entry.frame a.entry.bytes.now) }
{
    let begun = about(was, client, p, q.payload());
    after_answer(begun, p, a.payload())
}
