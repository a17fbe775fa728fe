// The fields of a command's header as numbers (command/base.rs): the header's length, and the transaction id of what cannot be decoded.
#![tactic(auto)]

ghost use Rattle.std.specs.Prelude.{◌≡◌, ◌%◌};
ghost use Rattle.protocol.specs.Command.{header_length, undecodable_transaction};

use protocol::Segmentation;

// The length of a command's header.
// (No cast gives it: a variant's number is the one on the wire, and three of the four lengths are the same.)
pub fn header_length(s: Segmentation) -> usize
    ensures { result ≡ header_length s }
{
    match s {
        Segmentation::Expedited => 8,
        Segmentation::Initiate => 12,
        Segmentation::Segment => 8,
        Segmentation::Complete => 8,
    }
}

// The transaction id that an undecodable command is answered under.
pub fn undecodable_transaction(buffer: &[u8]) -> u8
    ensures { result ≡ undecodable_transaction buffer.now }
{
    octets::byte_at(buffer, 0) % 16
}
