// The command's codec (command/base.rs). The payload is a part of the bytes that a command was read from.
#![tactic(auto)]

ghost use Rattle.std.specs.Prelude.{◌≡◌, ◌+◌, ◌*◌, ◌%◌, ◌<◌};
ghost use Rattle.octets.specs.Octets.{splice};
ghost use Rattle.protocol.specs.Coding.{put, written, told_written};
ghost use Rattle.protocol.specs.Command.{flag_places, flags_byte, total_bytes, total_of, fixed_header, header_of, payload_of, with_payload, encode_command, decode_with, decode_command, told_command};

use octets::LittleEndian;
use protocol::{
    BufferTooShort, CommandError, CommandId, CommandLayerHeader, SdoCommand, Segmentation,
};

// The total that a header of these bytes carries.
fn total_of(s: Segmentation, buffer: &[u8]) -> Option<u32>
    ensures { result ≡ total_of s buffer.now }
{
    if s == Segmentation::Initiate {
        return Some(octets::number_at::<u32, _>(buffer, 8));
    }
    None
}

// The fixed header of these bytes, its id given.
#[tactic(auto, unfolding(protocol::specs::Command::flag_places))]
fn header_of(id: CommandId, buffer: &[u8]) -> CommandLayerHeader
    ensures { result ≡ header_of flag_places id buffer.now }
{
    let flags = octets::byte_at(buffer, 2);
    CommandLayerHeader {
        transaction: octets::byte_at(buffer, 1),
        response: flags / 16 % 2 == 1,
        aborted: flags / 32 % 2 == 1,
        segmentation: Segmentation::from(flags / 64 % 4),
        id,
        size: octets::number_at(buffer, 4),
    }
}

// What the bytes are, their fixed header given: the total and the payload must be there whole.
// (A header and the bytes that it was read of, or goes to: a receiver and its argument.)
#[tactic(auto, using(protocol::proofs::Command::decode_header_cut, protocol::proofs::Command::decode_payload_cut, protocol::proofs::Command::decode_whole))]
fn with_header(h: CommandLayerHeader, buffer: &[u8]) -> Result<SdoCommand, CommandError>
    ensures { told_command buffer.now result ≡ decode_with h buffer.now }
{
    let s = h.segmentation;
    let n = fields::header_length(s);
    if buffer.len() < n {
        return Err(CommandError::BufferTooShort);
    }
    if buffer.len() - n < (h.size as usize) {
        return Err(CommandError::Undecodable);
    }
    Ok(SdoCommand {
        header: h,
        total: total_of(s, buffer),
    })
}

// The command at the start of these bytes; those after its payload are ignored.
#[tactic(auto, using(protocol::proofs::Command::decode_short, protocol::proofs::Command::decode_unknown, protocol::proofs::Command::decode_known))]
pub fn deserialize(buffer: &[u8]) -> Result<SdoCommand, CommandError>
    ensures { told_command buffer.now result ≡ decode_command flag_places buffer.now }
{
    if buffer.len() < 8 {
        return Err(CommandError::BufferTooShort);
    }
    let id = CommandId::try_from(buffer[3])?;
    with_header(header_of(id, buffer), buffer)
}

// The payload of a command that was read from these bytes, as a part of them.
pub fn payload<'a>(h: CommandLayerHeader, buffer: &'a [u8]) -> &'a [u8]
    ensures { result.now ≡ payload_of h buffer.now }
{
    let s = h.segmentation;
    let size = h.size as usize;
    octets::part(buffer, fields::header_length(s), size)
}

// Byte 2 of a command.
#[tactic(auto, unfolding(protocol::specs::Command::flag_places))]
fn flags(h: CommandLayerHeader) -> u8
    ensures { result ≡ flags_byte flag_places h.response h.aborted h.segmentation }
{
    let s = h.segmentation;
    u8::from(h.response) * 16 + u8::from(h.aborted) * 32 + u8::from(s) * 64
}

// Writes the fixed header at the start of the buffer.
#[tactic(auto, unfolding(protocol::specs::Command::fixed_header, octets::specs::Octets::le_bytes))]
fn put_header(h: CommandLayerHeader, buffer: &mut [u8])
    ensures { buffer.new ≡ splice 0 (fixed_header flag_places h) buffer.old }
{
    let id = h.id;
    let [low, high]: [u8; 2] = h.size.to_bytes();
    let bytes = [0, h.transaction, flags(h), u8::from(id), low, high, 0, 0];
    octets::copy_at(buffer, 0, &bytes);
}

// Writes the total of an Initiate behind the fixed header.
#[tactic(auto, using(octets::proofs::Splice::splice_none))]
fn put_total(s: Segmentation, d: Option<u32>, buffer: &mut [u8])
    ensures { buffer.new ≡ splice 8 (total_bytes s d) buffer.old }
{
    if s == Segmentation::Initiate {
        octets::store(buffer, 8, d.unwrap_or(0));
    }
}

// Writes the command with its payload at the start of the buffer, as far as the buffer goes; its other bytes stay.
// (Command and payload stay two, here and below: the payload may stand in the image or in the client's share, and is lent.)
#[tactic(auto, using(protocol::proofs::Command::stored_command))]
pub fn store(c: SdoCommand, payload: &[u8], buffer: &mut [u8])
    ensures { buffer.new ≡ splice 0 (encode_command flag_places (with_payload c payload.now)) buffer.old }
{
    let h = c.header;
    let total = c.total;
    let s = h.segmentation;
    put_header(h, buffer);
    put_total(s, total, buffer);
    octets::copy_at(buffer, fields::header_length(s), payload);
}

// Writes the command with its payload at the start of the buffer, whose other bytes stay. A buffer that is too short stays whole.
// (It answers how many bytes it wrote, as the Rust does: the buffer is the caller's.)
#[tactic(auto, using(protocol::proofs::Coding::written_short, protocol::proofs::Coding::left_short, protocol::proofs::Coding::written_fits, protocol::proofs::Coding::left_fits, protocol::proofs::Command::encoded_length))]
pub fn serialize(c: SdoCommand, payload: &[u8], buffer: &mut [u8]) -> Result<usize, BufferTooShort>
    ensures told { told_written result ≡ written (encode_command flag_places (with_payload c payload.now)) buffer.old }
    ensures left { buffer.new ≡ put (encode_command flag_places (with_payload c payload.now)) buffer.old }
{
    let h = c.header;
    let s = h.segmentation;
    let n = fields::header_length(s);
    if buffer.len() < n {
        return Err(BufferTooShort);
    }
    if buffer.len() - n < payload.len() {
        return Err(BufferTooShort);
    }
    store(c, payload, buffer);
    Ok(n + payload.len())
}
