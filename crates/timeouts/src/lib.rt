// A transfer that is due (sequence_handler.rs, `tick`): an upload's stored piece is resent while there are retries, any other transfer is given up.
#![tactic(auto)]

ghost use Rattle.std.specs.Prelude.{◌≡◌, List, ℕ, ◌≤◌};
ghost use Rattle.protocol.specs.ConnectionRecord.{told_reply};
ghost use Rattle.protocol.specs.ConnectionTable.{ticks, times_out, retried, tick_upload};

use handlers::Asked;
use protocol::{
    AbortCode, Connection, Left, SdoResponseData, SdoServerState, SdoTransferState, SendConnState,
    SequenceLayerHeader,
};

// A transfer that is given up.
pub fn times_out(c: Connection, t: SdoTransferState) -> Left<SdoResponseData>
    ensures { (share image : List ℕ) → ticks result.connection (told_reply result.said share image) ≡ times_out c t }
{
    let asked = Asked {
        connection: c,
        transaction: t.transaction,
    };
    let a = asked.abort(AbortCode::TimedOut);
    let next = a.connection;
    let header = SequenceLayerHeader {
        scon: SendConnState::NoConnection,
        ..sequence_layer::answer_marked(next)
    };
    Left {
        connection: next,
        said: SdoResponseData {
            header,
            command: a.command,
            body: a.body,
        },
    }
}

// An upload with one retry less and a new deadline.
// (By update: it names the numbers that change and no other.)
fn retried(t: SdoTransferState, image: &[u8], clock: u64) -> SdoTransferState
    requires { 1 ≤ t.retries }
    ensures { result ≡ retried t image.now clock }
{
    SdoTransferState {
        deadline: Some(state::deadline_after(image, clock)),
        retries: t.retries - 1,
        ..t
    }
}

// A due upload: with retries left its stored piece is resent under send mark 3.
#[tactic(auto, unfolding(protocol::specs::ConnectionTable::tick_upload, picks::specs::Pick::pick))]
pub fn tick_upload(
    c: Connection,
    image: &[u8],
    clock: u64,
    t: SdoTransferState,
) -> Left<SdoResponseData>
    ensures { (share : List ℕ) → ticks result.connection (told_reply result.said share image.now) ≡ tick_upload c share image.now clock t }
{
    if t.retries == 0 {
        return times_out(c, t);
    }
    let next = SdoServerState::SegmentedUpload(retried(t, image, clock));
    let header = SequenceLayerHeader {
        scon: SendConnState::ConnectionValidAckRequest,
        ..sequence_layer::answer_marked(c)
    };
    Left {
        connection: state::with_state(c, next),
        said: sequence_layer::response(header, state::stored_piece(t)),
    }
}
