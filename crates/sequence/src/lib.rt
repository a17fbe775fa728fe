// The sequence header's codec, and the step of a sequence number (sequence.rs).
#![tactic(auto)]

ghost use Rattle.std.specs.Prelude.{◌≡◌, ◌+◌, ◌*◌, ◌%◌, ◌<◌};
ghost use Rattle.protocol.specs.Coding.{put, written, told_written};
ghost use Rattle.protocol.specs.SequenceHeader.{next, encode_header, decode_header, told_header, command_part};

use protocol::{BufferTooShort, ReceiveConnState, SendConnState, SequenceLayerHeader};

// The number that follows: one is added with wrap in a u8, then the remainder by 64 is taken.
#[tactic(auto, unfolding(protocol::specs::SequenceHeader::next))]
pub fn next_number(n: u8) -> u8
    ensures { result ≡ next n }
{
    n.wrapping_add(1) % 64
}

// A byte of the header: six bits of a number above two of a mark.
// (The mark comes as its number: receive and send marks are two enums.)
fn octet(number: u8, mark: u8) -> u8
    requires { mark < 4 }
    ensures { result ≡ number % 64 * 4 + mark }
{
    number % 64 * 4 + mark
}

// Writes the header at the start of the buffer, whose other bytes stay. A buffer under four bytes stays whole.
// (It answers how many bytes it wrote, as the Rust does: the buffer is the caller's.)
#[tactic(auto, unfolding(protocol::specs::SequenceHeader::encode_header, picks::specs::Pick::pick))]
pub fn serialize(h: SequenceLayerHeader, buffer: &mut [u8]) -> Result<usize, BufferTooShort>
    ensures told { told_written result ≡ written (encode_header h) buffer.old }
    ensures left { buffer.new ≡ put (encode_header h) buffer.old }
{
    if buffer.len() < 4 {
        return Err(BufferTooShort);
    }
    let octet0 = octet(h.receive, u8::from(h.rcon));
    let octet1 = octet(h.send, u8::from(h.scon));
    octets::copy_at(buffer, 0, &[octet0, octet1, 0, 0]);
    Ok(4)
}

// The header of the first four bytes, of which the last two are ignored.
#[tactic(auto, unfolding(protocol::specs::SequenceHeader::decode_header, picks::specs::Pick::pick))]
pub fn deserialize(buffer: &[u8]) -> Result<SequenceLayerHeader, BufferTooShort>
    ensures { told_header result ≡ decode_header buffer.now }
{
    if buffer.len() < 4 {
        return Err(BufferTooShort);
    }
    let octet0 = buffer[0];
    let octet1 = buffer[1];
    Ok(SequenceLayerHeader {
        receive: octet0 / 4 % 64,
        rcon: ReceiveConnState::from(octet0 % 4),
        send: octet1 / 4 % 64,
        scon: SendConnState::from(octet1 % 4),
    })
}

// The bytes after the header, as they lie in the request: what the command decoder is handed.
pub fn command_part(request: &[u8]) -> &[u8]
    ensures { result.now ≡ command_part request.now }
{
    octets::rest(request, 4)
}
