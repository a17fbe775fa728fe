// WriteByIndex: the data of a running download, and the four kinds of a write (handlers.rs). The client's own share of the area is lent to what a download stores.
#![tactic(auto)]

ghost use Rattle.std.specs.Prelude.{◌≡◌, List, [], ℕ, ◌+◌, length, take, ltb, Some, None};
ghost use Rattle.picks.specs.Pick.{pick};
ghost use Rattle.protocol.specs.TransferRecord.{told_action, with_state, replies, deadline_after, write_object, write_data, write_by_index};

use handlers::Asked;
use protocol::{AbortCode, Action, SdoServerState, SdoTransferState, Segmentation};

// Whether data at an offset goes beyond the total.
// (Total and offset as in `state`.)
fn is_beyond(total: u32, offset: u32, n: usize) -> bool
    ensures { result ≡ ltb total (offset + n) }
{
    (offset as usize).saturating_add(n) > total as usize
}

// Where data ends, unless it goes beyond the total.
#[tactic(auto, unfolding(picks::specs::Pick::pick))]
fn end_of(t: SdoTransferState, bytes: &[u8]) -> Option<u32>
    ensures { result ≡ pick (ltb t.total (t.offset + length bytes.now)) None (Some (t.offset + length bytes.now)) }
{
    if is_beyond(t.total, t.offset, bytes.len()) {
        return None;
    }
    Some(t.offset + bytes.len() as u32)
}

// A Segment write whose data is stored: the download goes on where it ends.
// (The transfer by update: it names the numbers that change and no other.)
// (Transfer and clock, and wherever a table or a row comes with it: a receiver and its argument.)
fn write_segment(asked: Asked, image: &[u8], clock: u64, t: SdoTransferState, end: u32) -> Action
    ensures { (share : List ℕ) → told_action result share image.now ≡ replies (with_state asked.connection (SdoServerState.SegmentedDownload (record t { offset = end; deadline = Some (deadline_after image.now clock) }))) share image.now asked.transaction [] }
{
    let next = SdoTransferState {
        offset: end,
        deadline: Some(state::deadline_after(image, clock)),
        ..t
    };
    let next = state::with_state(asked.connection, SdoServerState::SegmentedDownload(next));
    Asked {
        connection: next,
        ..asked
    }
    .acknowledge()
}

// A Complete write whose data is stored: the object is written from the share.
// (The share's front is as long as the transfer says: document 01 has the number in the transfer, and the bytes in the share.)
fn write_complete(asked: Asked, share: &[u8], image: &mut [u8], t: SdoTransferState) -> Action
    ensures { (clock : ℕ) → told_action result share.now image.new ≡ write_object asked.connection share.now image.old clock asked.transaction (with_state asked.connection SdoServerState.Established) t.index t.sub (take t.total share.now) }
{
    let value = octets::part(share, 0, t.total as usize);
    let next = state::with_state(asked.connection, SdoServerState::Established);
    writes::write_object(asked, next, image, t.index, t.sub, value)
}

// A Segment or a Complete write.
// (Their tests are the same but for one, and `complete` tells them apart: a function for each would repeat the rest. What is asked, share, image and clock stay four, as `handlers` says why.)
#[tactic(auto, unfolding(protocol::specs::TransferRecord::write_data, protocol::specs::TransferRecord::download_step, protocol::specs::TransferRecord::write_segment, protocol::specs::TransferRecord::write_complete, picks::specs::Pick::pick))]
fn write_data(
    asked: Asked,
    share: &mut [u8],
    image: &mut [u8],
    clock: u64,
    complete: bool,
    bytes: &[u8],
) -> Action
    ensures { told_action result share.new image.new ≡ write_data asked.connection share.old image.old clock asked.transaction complete bytes.now asked.connection.state }
{
    let SdoServerState::SegmentedDownload(t) = asked.connection.state else {
        return asked.abort(AbortCode::InvalidSequence);
    };
    if t.transaction != asked.transaction {
        return asked.abort(AbortCode::GeneralError);
    }
    let Some(end) = end_of(t, bytes) else {
        return asked.abort(AbortCode::LengthMisfit);
    };
    if complete & (end < t.total) {
        return asked.abort(AbortCode::LengthTooLow);
    }
    octets::copy_at(share, t.offset as usize, bytes);
    if complete {
        write_complete(asked, share, image, t)
    } else {
        write_segment(asked, image, clock, t, end)
    }
}

// WriteByIndex.
// (Segment and Complete go one way, with a bool: each with a function of its own would repeat the tests of write_data.)
pub fn write_by_index(
    asked: Asked,
    share: &mut [u8],
    image: &mut [u8],
    clock: u64,
    kind: Segmentation,
    total: u32,
    payload: &[u8],
) -> Action
    ensures { told_action result share.new image.new ≡ write_by_index asked.connection share.old image.old clock asked.transaction kind total payload.now }
{
    match kind {
        Segmentation::Expedited => writes::write_expedited(asked, image, payload),
        Segmentation::Initiate => {
            writes::write_initiate(asked, share, image, clock, total, payload)
        }
        Segmentation::Segment => write_data(asked, share, image, clock, false, payload),
        Segmentation::Complete => write_data(asked, share, image, clock, true, payload),
    }
}
