// The transfer of a connection record, by value: whether it is sound, and when it is due.
#![tactic(auto)]

ghost use Rattle.std.specs.Prelude.{◌≡◌, not, ◌&&◌, max, eqb};
ghost use Rattle.picks.specs.Pick.{pick};
ghost use Rattle.protocol.specs.ConnectionTable.{has_deadline, sound_upload, sound_download, sound_state, sound_record, transfer_deadline, is_past, is_due, earlier, deadline_of};

use protocol::{Connection, MAX_EXPEDITED_PAYLOAD, SHARE, SdoServerState, SdoTransferState};

// What the first frame of a write may carry.
const FIRST_MAX: u32 = 1480;

// Whether deadline and stored piece are both there, or both absent and no retries left.
#[tactic(auto, unfolding(picks::specs::Pick::pick))]
fn is_awaited(t: SdoTransferState) -> bool
    ensures { result ≡ pick t.stored (has_deadline t.deadline) (not (has_deadline t.deadline) && eqb t.retries 0) }
{
    if t.stored {
        return t.deadline.is_some();
    }
    t.deadline.is_none() & (t.retries == 0)
}

// An upload has total 1,453 to 8,192 and offset a positive multiple of 1,452 below total.
#[tactic(auto, unfolding(protocol::specs::ConnectionTable::sound_upload, protocol::specs::Constants::PIECE, protocol::specs::Constants::SHARE))]
pub fn sound_upload(t: SdoTransferState) -> bool
    ensures { result ≡ sound_upload t }
{
    (MAX_EXPEDITED_PAYLOAD < t.total)
        & (t.total <= SHARE)
        & (0 < t.offset)
        & (t.offset < t.total)
        & (t.offset % MAX_EXPEDITED_PAYLOAD == 0)
        & is_awaited(t)
}

// A download has total 1 to 8,192, offset at most the larger of total and 1,480, and a deadline.
#[tactic(auto, unfolding(protocol::specs::ConnectionTable::sound_download, protocol::specs::Constants::SHARE, protocol::specs::Constants::FIRST_MAX))]
pub fn sound_download(t: SdoTransferState) -> bool
    ensures { result ≡ sound_download t }
{
    (1 <= t.total)
        & (t.total <= SHARE)
        & (t.offset <= t.total.max(FIRST_MAX))
        & t.deadline.is_some()
}

// Whether the transfer of a state is sound.
// (`records` asks a record's bytes, and has a transfer made of them only where their state has one.)
fn sound_state(s: SdoServerState) -> bool
    ensures { result ≡ sound_state s }
{
    match s {
        SdoServerState::Closed | SdoServerState::Opening | SdoServerState::Established => true,
        SdoServerState::SegmentedDownload(t) => sound_download(t),
        SdoServerState::SegmentedUpload(t) => sound_upload(t),
    }
}

// Sequence numbers at most 63, and a sound transfer.
#[tactic(auto, unfolding(protocol::specs::ConnectionTable::sound_record))]
pub fn sound_record(c: Connection) -> bool
    ensures { result ≡ sound_record c }
{
    (c.send <= 63) & (c.receive <= 63) & sound_state(c.state)
}

// When the transfer of a state is due.
// (`records` reads a deadline's bytes alone, with no transfer made.)
fn transfer_deadline(s: SdoServerState) -> Option<u64>
    ensures { result ≡ transfer_deadline s }
{
    match s {
        SdoServerState::Closed | SdoServerState::Opening | SdoServerState::Established => None,
        SdoServerState::SegmentedDownload(t) | SdoServerState::SegmentedUpload(t) => t.deadline,
    }
}

// Whether a deadline is there and reached.
pub fn is_past(d: Option<u64>, clock: u64) -> bool
    ensures { result ≡ is_past clock d }
{
    d.is_some_and(|n| n <= clock)
}

// Whether a record is used and its transfer due.
pub fn is_due(c: Connection, clock: u64) -> bool
    ensures { result ≡ is_due clock c }
{
    c.used & is_past(transfer_deadline(c.state), clock)
}

// The earlier of two deadlines.
// (None is the latest here, and the least by Option's own order.)
#[tactic(auto, unfolding(picks::specs::Pick::pick))]
pub fn earlier(a: Option<u64>, b: Option<u64>) -> Option<u64>
    ensures { result ≡ earlier a b }
{
    match (a, b) {
        (Some(n), Some(m)) => Some(n.min(m)),
        _ => a.or(b),
    }
}

// When a record is due, an unused one never.
#[tactic(auto, unfolding(picks::specs::Pick::pick))]
pub fn deadline_of(c: Connection) -> Option<u64>
    ensures { result ≡ deadline_of c }
{
    if c.used {
        transfer_deadline(c.state)
    } else {
        None
    }
}
