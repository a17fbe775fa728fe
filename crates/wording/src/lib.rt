// Clients, clocks, frames, refusals and aborts in words for a trainer.
#![tactic(auto)]

ghost use Rattle.std.specs.Prelude.{◌≡◌, [], Some};
ghost use Rattle.picks.specs.Pick.{pick};
ghost use Rattle.protocol.specs.SequenceHeader.{receive_mark, send_mark};
ghost use Rattle.protocol.specs.Command.{id_byte, segmentation_number};
ghost use Rattle.show.specs.Text.{entry};
ghost use Rattle.wording.specs.Words.{clock_text, mac_text, client_text, code_text, object_text, meaning, abort_text, refusals, refusal_text, id_text, receive_marks, send_marks, header_text, segmentations, kind_text, total_text, command_text, decoded_text, frame_text};

pub mod numbers;
mod page;

pub use page::{put_abort, put_client, put_clock, put_code, put_frame, put_object, put_refusal};
use protocol::{
    CommandId, CommandLayerHeader, ReceiveConnState, SdoClientInfo, SdoCommand, Segmentation,
    SendConnState, SequenceLayerHeader,
};
use reading::frame::{Frame, Seen};
use show::Start;
use std::fmt;
use std::net::Ipv4Addr;

// A clock of microseconds, in seconds.
#[derive(Clone, Copy)]
pub struct Clock(pub u64);

impl fmt::Display for Clock {
    ghost output = { λ x. Some (clock_text x.0) };

    fn fmt<W: fmt::Write>(&self, f: &mut fmt::Formatter<W>) -> fmt::Result {
        let seconds = self.0 / 1000000;
        let rest = self.0 % 1000000;
        write!(f, "{seconds}.{rest:06} s")
    }
}

// The six bytes of a MAC address.
#[derive(Clone, Copy)]
struct Mac(u64);

impl fmt::Display for Mac {
    ghost output = { λ x. Some (mac_text x.0) };

    fn fmt<W: fmt::Write>(&self, f: &mut fmt::Formatter<W>) -> fmt::Result {
        let [_, _, a, b, c, d, e, g] = self.0.to_be_bytes();
        write!(f, "{a:02X}-{b:02X}-{c:02X}-{d:02X}-{e:02X}-{g:02X}")
    }
}

// A client: on the raw network, or over UDP.
#[derive(Clone, Copy)]
pub struct Client(pub SdoClientInfo);

impl fmt::Display for Client {
    ghost output = { λ x. Some (client_text x.0) };

    fn fmt<W: fmt::Write>(&self, f: &mut fmt::Formatter<W>) -> fmt::Result {
        match self.0 {
            SdoClientInfo::Asnd { node, mac } => write!(f, "node {node} (MAC {})", Mac(mac)),
            SdoClientInfo::Udp { ip, port } => write!(f, "{} port {port}", Ipv4Addr::from(ip)),
        }
    }
}

// An object.
#[derive(Clone, Copy)]
pub struct Object {
    pub index: u16,
    pub sub: u8,
}

impl fmt::Display for Object {
    ghost output = { λ x. Some (object_text x.index x.sub) };

    fn fmt<W: fmt::Write>(&self, f: &mut fmt::Formatter<W>) -> fmt::Result {
        let Object { index, sub } = *self;
        write!(f, "object {index:04X} hex, sub-index {sub}")
    }
}

// A number in eight hex digits.
#[derive(Clone, Copy)]
pub struct Code(pub u32);

impl fmt::Display for Code {
    ghost output = { λ x. Some (code_text x.0) };

    #[tactic(auto, unfolding(show::specs::Text::letters, picks::specs::Pick::pick), using(show::proofs::Numbers::hex_padded))]
    fn fmt<W: fmt::Write>(&self, f: &mut fmt::Formatter<W>) -> fmt::Result {
        let Code(code) = *self;
        write!(f, "{code:08X}")
    }
}

// The meaning of an abort's code.
// (A frame may hold any number here, so it stays a number: a TryFrom of AbortCode would say these ten numbers, and the match its ten variants besides.)
#[tactic(auto, unfolding(show::specs::Text::letters, picks::specs::Pick::pick, crate::specs::Words::meaning, crate::specs::Words::text_of))]
fn meaning_of(code: u32) -> &'static str
    ensures { result.now ≡ meaning code }
{
    match code {
        0x05040000 => "the transfer took too long: a piece was not acknowledged in time",
        0x05040001 => "the command is unknown or cannot be read",
        0x05040003 =>
            "this command does not belong here: no such transfer is running, or it must be acknowledged first",
        0x05040005 => "there is no room for so many bytes",
        0x06010002 => "the object may only be read",
        0x06020000 => "there is no such object",
        0x06070010 => "the object does not have this length",
        0x06070013 => "too few bytes for the object",
        0x06090011 => "the object has no such sub-index",
        0x08000000 => "another transfer of this client is running",
        _ => "a code that the controller never sends",
    }
}

// An abort's code and its meaning.
#[derive(Clone, Copy)]
pub struct Abort(pub u32);

impl fmt::Display for Abort {
    ghost output = { λ x. Some (abort_text x.0) };

    #[tactic(auto, unfolding(show::specs::Text::letters, crate::specs::Words::abort_text))]
    fn fmt<W: fmt::Write>(&self, f: &mut fmt::Formatter<W>) -> fmt::Result {
        let Abort(code) = *self;
        write!(f, "{}: {}", Code(code), meaning_of(code))
    }
}

// The meaning of a refusal's number.
// (A caller may give any number, so it stays a number: a TryFrom of Refusal would say these nine numbers, and the match its nine variants besides.)
#[tactic(auto, unfolding(show::specs::Text::letters, show::specs::Text::entry), using(crate::proofs::Refusals::none_past))]
fn refusal_of(number: u8) -> &'static str
    ensures { result.now ≡ entry number refusals }
{
    match number {
        1 => "the bench lent the controller a buffer of a wrong length",
        2 => "the dictionary image is not sound",
        3 => "the table of connections is not sound",
        4 => "the clock is above its limit",
        5 => "the frame is shorter than its header of four bytes",
        6 => "the frame is longer than 1500 bytes",
        7 => "eight clients are connected already",
        8 =>
            "the frame's number is neither the next one nor the last one, or the frame does not confirm the opening",
        9 => "an empty frame that neither acknowledges nor asks again",
        _ => "",
    }
}

// A refusal's number and its meaning.
#[derive(Clone, Copy)]
pub struct Refused(pub u8);

impl fmt::Display for Refused {
    ghost output = { λ x. Some (refusal_text x.0) };

    fn fmt<W: fmt::Write>(&self, f: &mut fmt::Formatter<W>) -> fmt::Result {
        let Refused(number) = *self;
        write!(f, "{number}: {}", refusal_of(number))
    }
}

// A command's name.
#[tactic(auto, unfolding(show::specs::Text::letters, picks::specs::Pick::pick, crate::specs::Words::id_text, crate::specs::Words::text_of))]
fn name_of(id: CommandId) -> &'static str
    ensures { result.now ≡ id_text (id_byte id) }
{
    match id {
        CommandId::Nil => "Nil",
        CommandId::WriteByIndex => "WriteByIndex",
        CommandId::ReadByIndex => "ReadByIndex",
        CommandId::WriteAllByIndex => "WriteAllByIndex",
        CommandId::ReadAllByIndex => "ReadAllByIndex",
        CommandId::WriteByName => "WriteByName",
        CommandId::ReadByName => "ReadByName",
        CommandId::FileWrite => "FileWrite",
        CommandId::FileRead => "FileRead",
        CommandId::WriteMultipleParamByIndex => "WriteMultipleParamByIndex",
        CommandId::ReadMultipleParamByIndex => "ReadMultipleParamByIndex",
        CommandId::Abort => "Abort",
        CommandId::MaxSegmentSize => "MaxSegmentSize",
    }
}

// The word of a sequence header's receive mark.
// (Three enums, of which the two marks share three words of four: a function for both would be told a mark as a number.)
#[tactic(auto, unfolding(show::specs::Text::letters, show::specs::Text::entry))]
fn received(mark: ReceiveConnState) -> &'static str
    ensures { result.now ≡ entry (receive_mark mark) receive_marks }
{
    match mark {
        ReceiveConnState::NoConnection => " (no connection)",
        ReceiveConnState::Initialization => " (initialisation)",
        ReceiveConnState::ConnectionValid => " (valid)",
        ReceiveConnState::ErrorResponse => " (error response)",
    }
}

// The word of its send mark.
#[tactic(auto, unfolding(show::specs::Text::letters, show::specs::Text::entry))]
fn sent(mark: SendConnState) -> &'static str
    ensures { result.now ≡ entry (send_mark mark) send_marks }
{
    match mark {
        SendConnState::NoConnection => " (no connection)",
        SendConnState::Initialization => " (initialisation)",
        SendConnState::ConnectionValid => " (valid)",
        SendConnState::ConnectionValidAckRequest => " (valid, please acknowledge)",
    }
}

// The sequence header's numbers and marks.
#[derive(Clone, Copy)]
struct Header(SequenceLayerHeader);

impl fmt::Display for Header {
    ghost output = { λ x. Some (header_text x.0) };

    fn fmt<W: fmt::Write>(&self, f: &mut fmt::Formatter<W>) -> fmt::Result {
        let SequenceLayerHeader {
            receive,
            rcon,
            send,
            scon,
        } = self.0;
        let received = received(rcon);
        let sent = sent(scon);
        write!(
            f,
            "\n    header:  receive {receive}{received}, send {send}{sent}"
        )
    }
}

// The word of a command's segmentation.
#[tactic(auto, unfolding(show::specs::Text::letters, show::specs::Text::entry))]
fn segmentation_of(segmentation: Segmentation) -> &'static str
    ensures { result.now ≡ entry (segmentation_number segmentation) segmentations }
{
    match segmentation {
        Segmentation::Expedited => ", Expedited",
        Segmentation::Initiate => ", Initiate",
        Segmentation::Segment => ", Segment",
        Segmentation::Complete => ", Complete",
    }
}

// A word where a flag is set.
// (Each caller has a flag of the header and one word for it: an Option of the word would be made by this very test.)
#[tactic(auto, unfolding(picks::specs::Pick::pick))]
fn flagged(flag: bool, word: &str) -> &str
    ensures { result.now ≡ pick flag word.now [] }
{
    if flag { word } else { "" }
}

// The command's kind: its name, its segmentation and its flags.
#[derive(Clone, Copy)]
struct Kind(CommandLayerHeader);

impl fmt::Display for Kind {
    ghost output = { λ x. Some (kind_text x.0) };

    #[tactic(auto, unfolding(show::specs::Text::letters, crate::specs::Words::kind_text))]
    fn fmt<W: fmt::Write>(&self, f: &mut fmt::Formatter<W>) -> fmt::Result {
        let Kind(header) = *self;
        let name = name_of(header.id);
        let segmentation = segmentation_of(header.segmentation);
        let response = flagged(header.response, ", response");
        let aborted = flagged(header.aborted, ", aborted");
        write!(f, "\n    command: {name}{segmentation}{response}{aborted}")
    }
}

// The size that an Initiate carries.
#[derive(Clone, Copy)]
struct Total(SdoCommand);

impl fmt::Display for Total {
    ghost output = { λ x. Some (total_text x.0) };

    #[tactic(auto, unfolding(picks::specs::Pick::pick, crate::specs::Words::total_text), using(show::proofs::Written::nothing_yet))]
    fn fmt<W: fmt::Write>(&self, f: &mut fmt::Formatter<W>) -> fmt::Result {
        let Total(command) = *self;
        if command.header.segmentation != Segmentation::Initiate {
            return Ok(());
        }
        let total = command.total.unwrap_or(0);
        write!(f, ", {total} bytes in all")
    }
}

// The command's header.
#[derive(Clone, Copy)]
struct Command(SdoCommand);

impl fmt::Display for Command {
    ghost output = { λ x. Some (command_text x.0) };

    fn fmt<W: fmt::Write>(&self, f: &mut fmt::Formatter<W>) -> fmt::Result {
        let transaction = self.0.header.transaction;
        let size = self.0.header.size;
        let kind = Kind(self.0.header);
        let total = Total(self.0);
        write!(
            f,
            "{kind}, transaction {transaction}{total}, {size} bytes of data"
        )
    }
}

// What a frame has: a header unless it is too short, a command or none.
#[derive(Clone, Copy)]
struct Parts(Frame);

impl fmt::Display for Parts {
    ghost output = { λ x. Some (decoded_text x.0) };

    #[tactic(auto, using(show::proofs::Written::nothing_yet))]
    fn fmt<W: fmt::Write>(&self, f: &mut fmt::Formatter<W>) -> fmt::Result {
        match self.0 {
            Frame::Short => Ok(()),
            Frame::Empty(header) | Frame::Unreadable(header) => write!(f, "{}", Header(header)),
            Frame::Command(header, command) => {
                write!(f, "{}{}", Header(header), Command(command))
            }
        }
    }
}

// A frame decoded, and its first bytes.
#[derive(Clone, Copy)]
pub struct Decoded<'a>(pub Seen<'a>);

impl fmt::Display for Decoded<'_> {
    ghost output = { λ x. Some (frame_text x.0.frame x.0.bytes.now) };

    fn fmt<W: fmt::Write>(&self, f: &mut fmt::Formatter<W>) -> fmt::Result {
        let Seen { frame, bytes } = self.0;
        let start = Start { bytes, shown: 24 };
        write!(f, "{}\n    bytes:  {start}\n", Parts(frame))
    }
}
