// A frame as the codecs decode it.
ghost use Rattle.std.specs.Prelude.{◌≡◌};
ghost use Rattle.reading.specs.Frame.{rest_frame, frame_of, payload_in, size_in};

use protocol::{BufferTooShort, SdoCommand, SequenceLayerHeader};

// A frame: too short for a header, with nothing behind its header, with bytes that are no command, or with a command.
#[derive(Clone, Copy)]
pub enum Frame {
    Short,
    Empty(SequenceLayerHeader),
    Unreadable(SequenceLayerHeader),
    Command(SequenceLayerHeader, SdoCommand),
}

// A frame as it was read: decoded, and its bytes.
#[derive(Clone, Copy)]
pub struct Seen<'a> {
    pub frame: Frame,
    pub bytes: &'a [u8],
}

// The frame of a header and what stands behind it.
#[tactic(auto, unfolding(crate::specs::Frame::rest_frame, picks::specs::Pick::pick))]
fn with_rest(header: SequenceLayerHeader, rest: &[u8]) -> Frame
    ensures { result ≡ rest_frame header rest.now }
{
    if rest.is_empty() {
        return Frame::Empty(header);
    }
    match command::deserialize(rest) {
        Ok(command) => Frame::Command(header, command),
        Err(_) => Frame::Unreadable(header),
    }
}

// The frame of these bytes.
#[tactic(auto, unfolding(crate::specs::Frame::frame_of))]
pub fn read(bytes: &[u8]) -> Seen<'_>
    ensures frame { result.frame ≡ frame_of bytes.now }
    ensures bytes { result.bytes.now ≡ bytes.now }
{
    let frame = match sequence::deserialize(bytes) {
        Ok(header) => with_rest(header, sequence::command_part(bytes)),
        Err(BufferTooShort) => Frame::Short,
    };
    Seen { frame, bytes }
}

impl<'a> Seen<'a> {
    // The frame's payload, as a part of its bytes; empty without a command.
    pub fn payload(self) -> &'a [u8]
        ensures { result.now ≡ payload_in self.entry.frame self.entry.bytes.now }
    {
        match self.frame {
            Frame::Command(_, command) => command::payload(
                command.header,
                sequence::command_part(self.bytes),
            ),
            _ => &[],
        }
    }
}

// The size of the payload that the frame's command announces; 0 without a command.
// (0 and no None: its callers print it, or ask whether it is below 4.)
pub fn size(f: Frame) -> u16
    ensures { result ≡ size_in f }
{
    match f {
        Frame::Command(_, command) => command.header.size,
        _ => 0,
    }
}
