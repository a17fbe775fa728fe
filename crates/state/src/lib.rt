// The transfer of an upload or a download (state.rs): its next and its stored piece, and the deadlines that they set. A piece's bytes stay in the share.
#![tactic(auto)]

ghost use Rattle.std.specs.Prelude.{◌≡◌, List, ℕ, ◌+◌, ◌*◌, min, leb};
ghost use Rattle.protocol.specs.Constants.{PIECE, CLOCK_MAX as LAST_CLOCK};
ghost use Rattle.protocol.specs.Command.{with_payload};
ghost use Rattle.protocol.specs.TransferRecord.{moved, with_state, body_bytes, told_action, piece_length, piece_kind, piece, stored_piece, deadline_after, after_piece, is_last, advance};

use protocol::{
    Action, Body, CLOCK_MAX, CommandId, CommandLayerHeader, Connection, MAX_EXPEDITED_PAYLOAD,
    Piece, SdoCommand, SdoServerState, SdoTransferState, Segmentation,
};

// A record with other numbers and another state.
pub fn moved(c: Connection, send: u8, receive: u8, s: SdoServerState) -> Connection
    ensures { result ≡ moved c send receive s }
{
    Connection {
        send,
        receive,
        state: s,
        ..c
    }
}

// A record in another state.
pub fn with_state(c: Connection, s: SdoServerState) -> Connection
    ensures { result ≡ with_state c s }
{
    Connection { state: s, ..c }
}

// The length of the piece at an offset.
// (Total and offset are two of a transfer's eight fields, and all that a piece rests on; a struct of them would be a type beside document 01's.)
// (One line of the library's: what it is the lesser of is all that it says.)
#[tactic(auto, unfolding(protocol::specs::Constants::PIECE))]
pub fn piece_length(total: u32, offset: u32) -> u32
    ensures { result ≡ piece_length PIECE total offset }
{
    total.saturating_sub(offset).min(MAX_EXPEDITED_PAYLOAD)
}

// Whether the piece at an offset is the last.
#[tactic(auto, unfolding(protocol::specs::Constants::PIECE))]
fn reaches_end(total: u32, offset: u32) -> bool
    ensures { result ≡ leb total (offset + piece_length PIECE total offset) }
{
    total.saturating_sub(offset) <= MAX_EXPEDITED_PAYLOAD
}

// Which kind of piece stands at an offset.
#[tactic(auto, unfolding(picks::specs::Pick::pick))]
pub fn piece_kind(total: u32, offset: u32) -> Segmentation
    ensures { result ≡ piece_kind PIECE total offset }
{
    if reaches_end(total, offset) {
        Segmentation::Complete
    } else if offset == 0 {
        Segmentation::Initiate
    } else {
        Segmentation::Segment
    }
}

// The piece at an offset of a transfer's bytes, which stay where they are. The first one tells the total.
// (Its header is written out: it has at most the two flags in common with another answer's.)
#[tactic(auto, unfolding(protocol::specs::Constants::PIECE, protocol::specs::TransferRecord::piece, picks::specs::Pick::pick))]
pub fn piece_at(transaction: u8, total: u32, offset: u32) -> Piece
    ensures { (share image : List ℕ) → with_payload result.command (body_bytes share image result.body) ≡ piece PIECE transaction total offset share }
{
    let size = piece_length(total, offset) as u16;
    let header = CommandLayerHeader {
        transaction,
        response: true,
        aborted: false,
        segmentation: piece_kind(total, offset),
        id: CommandId::ReadByIndex,
        size,
    };
    let total = if offset == 0 { Some(total) } else { None };
    Piece {
        command: SdoCommand { header, total },
        body: Body::Share(offset, size),
    }
}

// The piece that was sent last: the bytes before offset still hold it.
#[tactic(auto, unfolding(protocol::specs::Constants::PIECE))]
pub fn stored_piece(t: SdoTransferState) -> Piece
    ensures { (share image : List ℕ) → with_payload result.command (body_bytes share image result.body) ≡ stored_piece t share }
{
    piece_at(
        t.transaction,
        t.total,
        t.offset.saturating_sub(MAX_EXPEDITED_PAYLOAD),
    )
}

// The time that lies a timeout behind the clock.
#[tactic(auto, unfolding(protocol::specs::Constants::CLOCK_MAX))]
fn due_after(timeout: u32, clock: u64) -> u64
    ensures { result ≡ min clock LAST_CLOCK + timeout * 1000 }
{
    clock.min(CLOCK_MAX) + u64::from(timeout) * 1000
}

// The time at which a transfer that goes on now is due.
#[tactic(auto, unfolding(protocol::specs::TransferRecord::deadline_after))]
pub fn deadline_after(image: &[u8], clock: u64) -> u64
    ensures { result ≡ deadline_after image.now clock }
{
    due_after(dictionary::timeout(image), clock)
}

// Whether the next piece is the last.
fn is_last(t: SdoTransferState) -> bool
    ensures { result ≡ is_last t }
{
    reaches_end(t.total, t.offset)
}

// The transfer after its next piece, which is not the last.
// (An update, as wherever a transfer changes: it names the numbers that change and no other.)
#[tactic(auto, unfolding(protocol::specs::TransferRecord::deadline_after, protocol::specs::Constants::PIECE))]
fn after_piece(t: SdoTransferState, image: &[u8], clock: u64) -> SdoTransferState
    ensures { result ≡ after_piece t image.now clock }
{
    let p = dictionary::parameters_in(image);
    SdoTransferState {
        offset: t.offset + piece_length(t.total, t.offset),
        deadline: Some(due_after(p.timeout, clock)),
        retries: p.retries,
        stored: true,
        ..t
    }
}

// The next piece of an upload is sent.
// (The transfer is handed on beside its record, whose state was tested once: from the record alone it would be tested again.)
#[tactic(auto, unfolding(protocol::specs::TransferRecord::advance, picks::specs::Pick::pick))]
pub fn advance(c: Connection, image: &[u8], clock: u64, t: SdoTransferState) -> Action
    ensures { (share : List ℕ) → told_action result share image.now ≡ advance c share image.now clock t }
{
    let p = piece_at(t.transaction, t.total, t.offset);
    let next = if is_last(t) {
        SdoServerState::Closed
    } else {
        SdoServerState::SegmentedUpload(after_piece(t, image, clock))
    };
    Action {
        connection: with_state(c, next),
        command: p.command,
        body: p.body,
    }
}
