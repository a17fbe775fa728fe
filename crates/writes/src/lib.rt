// WriteByIndex in one frame, and the Initiate that begins a download (handlers.rs). The client's own share of the area is lent to what a download stores.
#![tactic(auto)]

ghost use Rattle.std.specs.Prelude.{◌≡◌, List, ℕ, min};
ghost use Rattle.protocol.specs.Constants.{OFFSET_MAX};
ghost use Rattle.protocol.specs.TransferRecord.{told_action, write_object, write_expedited, write_initiate};

use handlers::Asked;
use protocol::{AbortCode, Action, Connection, SHARE, SdoServerState, SdoTransferState};

// A write of an object's value with its checks; `next` is the record after it.
// (Index and sub stay two, as the lookup takes them.)
#[tactic(auto, unfolding(protocol::specs::TransferRecord::write_object, protocol::specs::TransferRecord::write_entry))]
pub fn write_object(
    asked: Asked,
    next: Connection,
    image: &mut [u8],
    index: u16,
    sub: u8,
    bytes: &[u8],
) -> Action
    ensures { (share : List ℕ) (clock : ℕ) → told_action result share image.new ≡ write_object asked.connection share image.old clock asked.transaction next index sub bytes.now }
{
    match entries::writable(dictionary::lookup(image, index, sub), bytes.len()) {
        Err(code) => asked.abort(code),
        Ok(e) => {
            entries::write(image, e, bytes);
            Asked {
                connection: next,
                ..asked
            }
            .acknowledge()
        }
    }
}

// An Expedited write.
#[tactic(auto, unfolding(protocol::specs::TransferRecord::write_expedited, picks::specs::Pick::pick))]
pub fn write_expedited(asked: Asked, image: &mut [u8], payload: &[u8]) -> Action
    ensures { (share : List ℕ) (clock : ℕ) → told_action result share image.new ≡ write_expedited asked.connection share image.old clock asked.transaction payload.now }
{
    if payload.len() < 4 {
        return asked.abort(AbortCode::InvalidCommand);
    }
    let index: u16 = octets::number_at(payload, 0);
    let sub = octets::byte_at(payload, 2);
    let data = octets::rest(payload, 4);
    write_object(asked, asked.connection, image, index, sub, data)
}

// The offset behind an Initiate's data.
#[tactic(auto, unfolding(protocol::specs::Constants::OFFSET_MAX))]
fn first_offset(n: usize) -> u32
    ensures { result ≡ min n OFFSET_MAX }
{
    u32::try_from(n).unwrap_or(u32::MAX)
}

// An Initiate write: its first data is stored in the share.
#[tactic(auto, unfolding(protocol::specs::TransferRecord::write_initiate, picks::specs::Pick::pick, protocol::specs::Constants::SHARE))]
pub fn write_initiate(
    asked: Asked,
    share: &mut [u8],
    image: &[u8],
    clock: u64,
    total: u32,
    payload: &[u8],
) -> Action
    ensures { told_action result share.new image.now ≡ write_initiate asked.connection share.old image.now clock asked.transaction total payload.now }
{
    if payload.len() < 4 {
        return asked.abort(AbortCode::InvalidCommand);
    }
    if total == 0 {
        return asked.abort(AbortCode::LengthMisfit);
    }
    if SHARE < total {
        return asked.abort(AbortCode::OutOfMemory);
    }
    let first = octets::rest(payload, 4);
    octets::copy_at(share, 0, first);
    let t = SdoTransferState {
        transaction: asked.transaction,
        total,
        offset: first_offset(first.len()),
        index: octets::number_at(payload, 0),
        sub: octets::byte_at(payload, 2),
        deadline: Some(state::deadline_after(image, clock)),
        retries: 0,
        stored: false,
    };
    let next = state::with_state(asked.connection, SdoServerState::SegmentedDownload(t));
    Asked {
        connection: next,
        ..asked
    }
    .acknowledge()
}
