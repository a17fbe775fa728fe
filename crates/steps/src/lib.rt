// What a request asks and what an answer gives, in words.
#![tactic(auto)]

ghost use Rattle.std.specs.Prelude.{◌≡◌, Some};
ghost use Rattle.protocol.specs.Command.{id_byte, segmentation_number};
ghost use Rattle.reading.specs.Frame.{size_in};
ghost use Rattle.show.specs.Text.{entry};
ghost use Rattle.steps.specs.Steps.{empty_text, named_text, amount_of, written_text, writes, write_text, looked_text, own_abort_text, opening_text, acted_text, asked_text, request_text, range_text, piece_text, whole_text, taken_text, taken_by, other_text, aborted_text, answer_text};

pub mod numbers;
mod page;

pub use page::{put_answer, put_request};
use protocol::{
    CommandId, ReceiveConnState, SdoCommand, Segmentation, SendConnState, SequenceLayerHeader,
};
use reading::frame::{Frame, Seen};
use reading::{Piece, Reading, frame};
use std::fmt;
use wording::{Abort, Code, Object};

// A frame without a command.
#[tactic(auto, unfolding(show::specs::Text::letters, show::specs::Text::entry, picks::specs::Pick::pick, crate::specs::Steps::empty_text))]
fn empty_step(h: SequenceLayerHeader) -> &'static str
    ensures { result.now ≡ empty_text h }
{
    if h.rcon == ReceiveConnState::ErrorResponse {
        return "asks for the last piece again (error response)";
    }
    match h.scon {
        SendConnState::NoConnection => "an empty frame outside any connection",
        SendConnState::Initialization => "opens the connection (initialisation)",
        SendConnState::ConnectionValid => "acknowledges",
        SendConnState::ConnectionValidAckRequest => "asks for an acknowledgement",
    }
}

// The object that a payload names, where it does.
#[derive(Clone, Copy)]
struct Named<'a>(&'a [u8]);

impl fmt::Display for Named<'_> {
    ghost output = { λ x. Some (named_text x.0.now) };

    #[tactic(auto, unfolding(show::specs::Text::letters, picks::specs::Pick::pick, crate::specs::Steps::named_text))]
    fn fmt<W: fmt::Write>(&self, f: &mut fmt::Formatter<W>) -> fmt::Result {
        let payload = self.0;
        if payload.len() < 4 {
            return f.write_str("an object, without saying which");
        }
        let index = octets::number_at(payload, 0);
        let sub = octets::byte_at(payload, 2);
        write!(f, "{}", Object { index, sub })
    }
}

// The bytes of a write that names an object: all of an Initiate's, or those behind the object's name.
#[tactic(auto, unfolding(picks::specs::Pick::pick, crate::specs::Steps::amount_of), using(wording::proofs::Totals::none_is_0))]
fn amount(c: SdoCommand) -> u64
    ensures { result ≡ amount_of c }
{
    if c.header.segmentation == Segmentation::Initiate {
        return u64::from(c.total.unwrap_or(0));
    }
    u64::from(c.header.size.saturating_sub(4))
}

// A command, and its payload.
#[derive(Clone, Copy)]
struct Sent<'a> {
    command: SdoCommand,
    payload: &'a [u8],
}

// How many bytes a write has, and its object.
#[derive(Clone, Copy)]
struct Written<'a>(Sent<'a>);

impl fmt::Display for Written<'_> {
    ghost output = { λ x. Some (written_text x.0.command x.0.payload.now) };

    fn fmt<W: fmt::Write>(&self, f: &mut fmt::Formatter<W>) -> fmt::Result {
        let Sent { command, payload } = self.0;
        let amount = amount(command);
        write!(f, "{amount} bytes to {}", Named(payload))
    }
}

// The words of a write, by its segmentation.
// (As three in `wording`: each case has words of its own, and they share no line but the match.)
#[tactic(auto, unfolding(show::specs::Text::letters, show::specs::Text::entry))]
fn words_of(segmentation: Segmentation) -> &'static str
    ensures { result.now ≡ entry (segmentation_number segmentation) writes }
{
    match segmentation {
        Segmentation::Expedited => "writes ",
        Segmentation::Initiate => "begins to write ",
        Segmentation::Segment => "writes the next bytes",
        Segmentation::Complete => "writes the last bytes",
    }
}

// A write.
#[derive(Clone, Copy)]
struct Write<'a>(Sent<'a>);

impl fmt::Display for Write<'_> {
    ghost output = { λ x. Some (write_text x.0.command x.0.payload.now) };

    #[tactic(auto, unfolding(picks::specs::Pick::pick, crate::specs::Steps::write_text))]
    fn fmt<W: fmt::Write>(&self, f: &mut fmt::Formatter<W>) -> fmt::Result {
        let segmentation = self.0.command.header.segmentation;
        let words = words_of(segmentation);
        match segmentation {
            Segmentation::Expedited | Segmentation::Initiate => {
                write!(f, "{words}{}", Written(self.0))
            }
            Segmentation::Segment | Segmentation::Complete => f.write_str(words),
        }
    }
}

// A command that the controller looks at.
#[derive(Clone, Copy)]
struct Looked<'a>(Sent<'a>);

impl fmt::Display for Looked<'_> {
    ghost output = { λ x. Some (looked_text x.0.command x.0.payload.now) };

    #[tactic(auto, unfolding(show::specs::Text::letters, picks::specs::Pick::pick, crate::specs::Steps::looked_text, crate::specs::Steps::read_text), using(crate::proofs::Ids::other_id))]
    fn fmt<W: fmt::Write>(&self, f: &mut fmt::Formatter<W>) -> fmt::Result {
        match self.0.command.header.id {
            CommandId::Nil => f.write_str("an empty command (Nil)"),
            CommandId::WriteByIndex => write!(f, "{}", Write(self.0)),
            CommandId::ReadByIndex => write!(f, "reads {}", Named(self.0.payload)),
            CommandId::MaxSegmentSize => f.write_str("asks how long a piece may be"),
            _ => f.write_str("a command that this controller does not serve"),
        }
    }
}

// The client's own abort, with its code where it has one.
#[derive(Clone, Copy)]
struct OwnAbort<'a>(&'a [u8]);

impl fmt::Display for OwnAbort<'_> {
    ghost output = { λ x. Some (own_abort_text x.0.now) };

    #[tactic(auto, unfolding(show::specs::Text::letters, picks::specs::Pick::pick, crate::specs::Steps::own_abort_text, crate::specs::Steps::coded))]
    fn fmt<W: fmt::Write>(&self, f: &mut fmt::Formatter<W>) -> fmt::Result {
        let payload = self.0;
        if payload.len() < 4 {
            return f.write_str("aborts");
        }
        write!(
            f,
            "aborts with code {}",
            Code(octets::number_at(payload, 0))
        )
    }
}

// Where a command comes with the opening.
#[tactic(auto, unfolding(show::specs::Text::letters, picks::specs::Pick::pick, crate::specs::Steps::opening_text))]
fn opening(h: SequenceLayerHeader) -> &'static str
    ensures { result.now ≡ opening_text h }
{
    if h.scon == SendConnState::Initialization {
        return "opens the connection (initialisation) and ";
    }
    ""
}

// A command behind a header: what it asks, or that it is the client's own abort.
#[derive(Clone, Copy)]
struct Acted<'a> {
    header: SequenceLayerHeader,
    sent: Sent<'a>,
}

impl fmt::Display for Acted<'_> {
    ghost output = { λ x. Some (acted_text x.header x.sent.command x.sent.payload.now) };

    #[tactic(auto, unfolding(picks::specs::Pick::pick, crate::specs::Steps::acted_text))]
    fn fmt<W: fmt::Write>(&self, f: &mut fmt::Formatter<W>) -> fmt::Result {
        let Acted { header, sent } = *self;
        let opening = opening(header);
        if sent.command.header.aborted {
            return write!(f, "{opening}{}", OwnAbort(sent.payload));
        }
        write!(f, "{opening}{}", Looked(sent))
    }
}

// A frame with a command.
#[derive(Clone, Copy)]
struct Asked<'a>(Acted<'a>);

impl fmt::Display for Asked<'_> {
    ghost output = { λ x. Some (asked_text x.0.header x.0.sent.command x.0.sent.payload.now) };

    #[tactic(auto, unfolding(show::specs::Text::letters, picks::specs::Pick::pick, crate::specs::Steps::asked_text))]
    fn fmt<W: fmt::Write>(&self, f: &mut fmt::Formatter<W>) -> fmt::Result {
        if self.0.header.rcon == ReceiveConnState::ErrorResponse {
            let again =
                "asks for the last piece again (error response); the command is not looked at";
            return f.write_str(again);
        }
        write!(f, "{}", self.0)
    }
}

// What a request asks.
#[derive(Clone, Copy)]
pub struct Request<'a>(pub Seen<'a>);

impl fmt::Display for Request<'_> {
    ghost output = { λ x. Some (request_text x.0.frame x.0.bytes.now) };

    #[tactic(auto, unfolding(show::specs::Text::letters))]
    fn fmt<W: fmt::Write>(&self, f: &mut fmt::Formatter<W>) -> fmt::Result {
        match self.0.frame {
            Frame::Short => f.write_str("a frame too short to be one"),
            Frame::Empty(header) => f.write_str(empty_step(header)),
            Frame::Unreadable(_) => f.write_str("a command that cannot be read"),
            Frame::Command(header, command) => {
                let payload = self.0.payload();
                let sent = Sent { command, payload };
                write!(f, "{}", Asked(Acted { header, sent }))
            }
        }
    }
}

// Which bytes of an object the last of those sent are, of a piece's length.
#[derive(Clone, Copy)]
struct Range {
    reading: Reading,
    length: usize,
}

impl fmt::Display for Range {
    ghost output = { λ x. Some (range_text x.reading x.length) };

    #[tactic(auto, unfolding(picks::specs::Pick::pick, crate::specs::Steps::range_text), using(show::proofs::Written::nothing_yet))]
    fn fmt<W: fmt::Write>(&self, f: &mut fmt::Formatter<W>) -> fmt::Result {
        let Reading { sent, total, .. } = self.reading;
        let last = sent as usize;
        if last < self.length {
            return Ok(());
        }
        let first = last - self.length + 1;
        write!(f, ": bytes {first} to {last} of {total}")
    }
}

// A piece of a length, once it is sent. Without a size its reading began where the recording does not show it.
// (A reading's total is a public number, and 0 is that of one whose beginning was not seen.)
#[derive(Clone, Copy)]
struct Part<'a> {
    what: &'a str,
    reading: Reading,
    length: usize,
}

impl fmt::Display for Part<'_> {
    ghost output = { λ x. Some (piece_text x.what.now x.reading x.length) };

    #[tactic(auto, unfolding(show::specs::Text::letters, picks::specs::Pick::pick, crate::specs::Steps::piece_text))]
    fn fmt<W: fmt::Write>(&self, f: &mut fmt::Formatter<W>) -> fmt::Result {
        let Part {
            what,
            reading,
            length,
        } = *self;
        if reading.total == 0 {
            return write!(
                f,
                "{what}a reading whose beginning the recording does not show"
            );
        }
        let object = Object {
            index: reading.index,
            sub: reading.sub,
        };
        write!(f, "{what}{object}{}", Range { reading, length })
    }
}

// A value that is sent whole.
#[derive(Clone, Copy)]
struct Whole(Reading);

impl fmt::Display for Whole {
    ghost output = { λ x. Some (whole_text x.0) };

    fn fmt<W: fmt::Write>(&self, f: &mut fmt::Formatter<W>) -> fmt::Result {
        let Reading {
            index,
            sub,
            sent,
            ..
        } = self.0;
        write!(
            f,
            "the whole value of {}: {sent} bytes",
            Object { index, sub }
        )
    }
}

// An answer that is no piece of an upload and no abort, to a command.
#[tactic(auto, unfolding(show::specs::Text::letters, picks::specs::Pick::pick, crate::specs::Steps::taken_text), using(crate::proofs::Ids::other_id))]
fn taken(id: CommandId) -> &'static str
    ensures { result.now ≡ taken_text (id_byte id) }
{
    match id {
        CommandId::WriteByIndex => "the write is accepted",
        CommandId::MaxSegmentSize => "the client's size, and 1452 bytes",
        _ => "takes note",
    }
}

// An answer that is no piece of an upload and no abort, by what it answers.
#[tactic(auto, unfolding(show::specs::Text::letters))]
fn taken_by(request: Frame) -> &'static str
    ensures { result.now ≡ taken_by request }
{
    match request {
        Frame::Empty(_) => "takes note; there is nothing to send",
        Frame::Command(_, command) => taken(command.header.id),
        Frame::Short | Frame::Unreadable(_) => "takes note",
    }
}

// An answer that is no piece of an upload and no abort.
// (Two frames, each with bytes of its own: a tick's answer has no request.)
#[tactic(auto, unfolding(show::specs::Text::letters, picks::specs::Pick::pick, crate::specs::Steps::replied_text))]
fn other(request: Frame, answer: Frame) -> &'static str
    ensures { result.now ≡ other_text request answer }
{
    let Frame::Command(header, command) = answer else {
        return "takes note, and has no piece to send again";
    };
    if !command.header.response {
        return "takes note, and has no piece to send again";
    }
    if header.scon == SendConnState::Initialization {
        return "accepts the opening";
    }
    taken_by(request)
}

// An abort as an answer: without a code it confirms the client's own.
// (A frame may hold any number as its code, so it stays a number.)
#[derive(Clone, Copy)]
struct Aborted {
    frame: Frame,
    code: u32,
}

impl fmt::Display for Aborted {
    ghost output = { λ x. Some (aborted_text x.frame x.code) };

    #[tactic(auto, unfolding(show::specs::Text::letters, picks::specs::Pick::pick, crate::specs::Steps::aborted_text))]
    fn fmt<W: fmt::Write>(&self, f: &mut fmt::Formatter<W>) -> fmt::Result {
        if frame::size(self.frame) < 4 {
            return f.write_str("confirms the abort");
        }
        write!(f, "ABORT {}", Abort(self.code))
    }
}

// What an answer gives, and how much of the object is sent then.
#[derive(Clone, Copy)]
pub struct Answer {
    pub request: Frame,
    pub frame: Frame,
    pub piece: Piece,
    pub reading: Reading,
}

impl Answer {
    // The text of a piece that the answer has.
    fn part<'a>(&self, what: &'a str) -> Part<'a>
        ensures what { result.what.now ≡ what.now }
        ensures reading { result.reading ≡ self.now.reading }
        ensures length { result.length ≡ size_in self.now.frame }
    {
        Part {
            what,
            reading: self.reading,
            length: usize::from(frame::size(self.frame)),
        }
    }
}

impl fmt::Display for Answer {
    ghost output = { λ x. Some (answer_text x.request x.frame x.piece x.reading) };

    #[tactic(auto, unfolding(show::specs::Text::letters))]
    fn fmt<W: fmt::Write>(&self, f: &mut fmt::Formatter<W>) -> fmt::Result {
        match self.piece {
            Piece::Other => f.write_str(other(self.request, self.frame)),
            Piece::Whole => write!(f, "{}", Whole(self.reading)),
            Piece::First(_) => write!(f, "{}", self.part("the first piece of ")),
            Piece::Next => write!(f, "{}", self.part("the next piece of ")),
            Piece::Last => write!(f, "{}", self.part("the last piece of ")),
            Piece::Again => write!(f, "{}", self.part("once more the last piece sent, of ")),
            Piece::Abort(code) => write!(
                f,
                "{}",
                Aborted {
                    frame: self.frame,
                    code
                }
            ),
        }
    }
}
