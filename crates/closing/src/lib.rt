// What a command's answer does to a connection after it (sequence_handler.rs): an answer that ends its transfer closes, and the answer gets its header.
#![tactic(auto)]

ghost use Rattle.std.specs.Prelude.{◌≡◌, List, ◌||◌, ℕ};
ghost use Rattle.picks.specs.Pick.{pick};
ghost use Rattle.protocol.specs.TransferRecord.{told_action};
ghost use Rattle.protocol.specs.ConnectionRecord.{told_handled, is_opening, ends, settle, answered};

use protocol::{
    Action, Connection, Handled, Left, SdoClientInfo, SdoResponseData, SdoServerState,
    SdoTransferState, Segmentation, SendConnState, SequenceLayerHeader,
};

// Whether a state is Opening.
// (One `matches!`: the state that is asked about is all that differs from `connection::is_closed`.)
pub fn is_opening(s: SdoServerState) -> bool
    ensures { result ≡ is_opening s }
{
    matches!(s, SdoServerState::Opening)
}

// Whether an answer ends its transfer.
fn ends(kind: Segmentation, aborted: bool) -> bool
    ensures { result ≡ (ends kind || aborted) }
{
    (kind == Segmentation::Expedited) | (kind == Segmentation::Complete) | aborted
}

// An answer that ends its transfer closes, but for the state Opening.
#[tactic(auto, unfolding(protocol::specs::ConnectionRecord::settle, picks::specs::Pick::pick))]
pub fn settle(a: Action) -> Action
    ensures { (share image : List ℕ) → told_action result share image ≡ settle (told_action a share image) }
{
    let c = a.connection;
    let h = a.command.header;
    if !is_opening(c.state) & ends(h.segmentation, h.aborted) {
        return Action {
            connection: state::with_state(c, SdoServerState::Closed),
            ..a
        };
    }
    a
}

// The send mark of an answer.
#[tactic(auto, unfolding(picks::specs::Pick::pick))]
fn answer_mark(aborted: bool, mark: SendConnState) -> SendConnState
    ensures { result ≡ pick aborted SendConnState.NoConnection mark }
{
    if aborted {
        SendConnState::NoConnection
    } else {
        mark
    }
}

// A client made anew of its parts, as the next four are: see `rebuilt`.
fn rebuilt_client(client: SdoClientInfo) -> SdoClientInfo
    ensures { result ≡ client }
{
    match client {
        SdoClientInfo::Asnd { node, mac } => SdoClientInfo::Asnd {
            node: node,
            mac: mac,
        },
        SdoClientInfo::Udp { ip, port } => SdoClientInfo::Udp { ip: ip, port: port },
    }
}

// A deadline.
fn rebuilt_deadline(d: Option<u64>) -> Option<u64>
    ensures { result ≡ d }
{
    match d {
        None => None,
        Some(time) => Some(time),
    }
}

// A transfer.
fn rebuilt_transfer(t: SdoTransferState) -> SdoTransferState
    ensures { result ≡ t }
{
    let deadline = t.deadline;
    SdoTransferState {
        transaction: t.transaction,
        total: t.total,
        offset: t.offset,
        index: t.index,
        sub: t.sub,
        deadline: rebuilt_deadline(deadline),
        retries: t.retries,
        stored: t.stored,
    }
}

// A state.
fn rebuilt_state(s: SdoServerState) -> SdoServerState
    ensures { result ≡ s }
{
    match s {
        SdoServerState::Closed => SdoServerState::Closed,
        SdoServerState::Opening => SdoServerState::Opening,
        SdoServerState::Established => SdoServerState::Established,
        SdoServerState::SegmentedDownload(t) => {
            SdoServerState::SegmentedDownload(rebuilt_transfer(t))
        }
        SdoServerState::SegmentedUpload(t) => {
            SdoServerState::SegmentedUpload(rebuilt_transfer(t))
        }
    }
}

// The same record, made anew of its parts. A compiler copies a whole value with the gaps between its fields, in moves that overlap, and a processor waits where it loads what it has just stored so; a record made of its parts has nothing in its gaps (docs/SPEED.md).
// (Tried without: a request takes 1 to 7 % more instructions.)
pub fn rebuilt(c: Connection) -> Connection
    ensures { result ≡ c }
{
    let client = c.client;
    let state = c.state;
    Connection {
        used: c.used,
        client: rebuilt_client(client),
        area: c.area,
        send: c.send,
        receive: c.receive,
        state: rebuilt_state(state),
    }
}

// The answer under the sequence step's header, with the receive number after the call.
#[tactic(auto, unfolding(protocol::specs::ConnectionRecord::answered, picks::specs::Pick::pick))]
pub fn answered(r: SequenceLayerHeader, a: Action) -> Handled
    ensures { (share image : List ℕ) → told_handled result share image ≡ answered r (told_action a share image) }
{
    let connection = rebuilt(a.connection);
    let header = SequenceLayerHeader {
        receive: connection.receive,
        scon: answer_mark(a.command.header.aborted, r.scon),
        ..r
    };
    Left {
        connection,
        said: Ok(SdoResponseData {
            header,
            command: a.command,
            body: a.body,
        }),
    }
}
