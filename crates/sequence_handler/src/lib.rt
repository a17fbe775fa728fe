// Requests and ticks on one connection, by value (sequence_handler.rs): before the sequence step, the step, and after it the command layer, the closing and the answer's header. The client's share of the area and the image are lent.
// (Record, share, image and clock stay parameters: why stands beside `handlers::read_entry`.)
#![tactic(auto)]

ghost use Rattle.std.specs.Prelude.{◌≡◌, List, true, false, ◌||◌, ℕ, eqb};
ghost use Rattle.protocol.specs.SequenceHeader.{send_mark, command_part};
ghost use Rattle.protocol.specs.TransferRecord.{told_action};
ghost use Rattle.protocol.specs.Coding.{refused, value, refusal_number};
ghost use Rattle.protocol.specs.ConnectionRecord.{told_handled, told_reply, sequence_step, nil, is_opening, empty_in, empty_frame, after_step, on_step, serve};
ghost use Rattle.protocol.specs.ConnectionTable.{told_record_ticked, tick_record};

use protocol::{
    Action, Body, Connection, Handled, Left, ReceiveConnState, Refusal, SdoResponseData,
    SdoServerState, SendConnState, SequenceLayerHeader,
};

// What an empty frame does that is no fault: an upload's next piece, or a Nil.
// (A match, since two states have answers of their own.)
#[tactic(auto, unfolding(protocol::specs::ConnectionRecord::empty_in))]
fn empty_in(c: Connection, image: &[u8], clock: u64) -> Action
    ensures { (share : List ℕ) (h k : SequenceLayerHeader) → told_action result share image.now ≡ empty_in c share image.now clock h k c.state }
{
    match c.state {
        SdoServerState::Established => empty_answer(state::with_state(c, SdoServerState::Closed)),
        SdoServerState::SegmentedUpload(t) => state::advance(c, image, clock, t),
        SdoServerState::Closed | SdoServerState::Opening | SdoServerState::SegmentedDownload(_) => {
            empty_answer(c)
        }
    }
}

// The Nil response to an empty frame.
fn empty_answer(c: Connection) -> Action
    ensures { (share image : List ℕ) → told_action result share image ≡ record { connection = c; share = share; image = image; command = nil true false } }
{
    Action {
        connection: c,
        command: command_layer::nil(true, false),
        body: Body::Nothing,
    }
}

// Whether an empty frame is no fault.
fn may_be_empty(s: SdoServerState, mark: SendConnState) -> bool
    ensures { result ≡ (is_opening s || eqb (send_mark mark) 2) }
{
    closing::is_opening(s) | (mark == SendConnState::ConnectionValid)
}

// What is left of a record whose request is answered.
// (This and `refused` are of one shape with `stepped` and `misfit` of `sequence_layer`: a struct of two fields, each with an equation of its own.)
fn answered(connection: Connection, r: SdoResponseData) -> Handled
    ensures { (share image : List ℕ) → told_handled result share image ≡ record { connection = connection; share = share; image = image; said = value (told_reply r share image) } }
{
    Left {
        connection,
        said: Ok(r),
    }
}

// What is left of a record whose request is refused.
fn refused(connection: Connection, x: Refusal) -> Handled
    ensures { (share image : List ℕ) → told_handled result share image ≡ record { connection = connection; share = share; image = image; said = refused (refusal_number x) } }
{
    Left {
        connection,
        said: Err(x),
    }
}

// A frame with no command.
// (Record and header stay two: the record is the one after the step, the header the frame's.)
#[tactic(auto, unfolding(protocol::specs::ConnectionRecord::empty_frame, picks::specs::Pick::pick))]
fn empty_frame(
    c: Connection,
    image: &[u8],
    clock: u64,
    h: SequenceLayerHeader,
    r: SequenceLayerHeader,
) -> Handled
    ensures { (share : List ℕ) → told_handled result share image.now ≡ empty_frame c share image.now clock h r }
{
    if may_be_empty(c.state, h.scon) {
        return closing::answered(r, empty_in(c, image, clock));
    }
    refused(c, Refusal::EmptyCommand)
}

// After the sequence step: the command layer, the closing and the answer's header. On receive mark 3 no command is looked at.
#[tactic(auto, unfolding(protocol::specs::ConnectionRecord::after_step, picks::specs::Pick::pick))]
pub fn after_step(
    c: Connection,
    share: &mut [u8],
    image: &mut [u8],
    clock: u64,
    h: SequenceLayerHeader,
    r: SequenceLayerHeader,
    body: &[u8],
) -> Handled
    ensures { told_handled result share.new image.new ≡ after_step c share.old image.old clock h r body.now }
{
    if h.rcon == ReceiveConnState::ErrorResponse {
        let nil = SdoResponseData {
            header: r,
            command: command_layer::nil(false, false),
            body: Body::Nothing,
        };
        return answered(c, nil);
    }
    if body.is_empty() {
        return empty_frame(c, image, clock, h, r);
    }
    closing::answered(
        r,
        closing::settle(command_layer::command_bytes(c, share, image, clock, body)),
    )
}

// From the sequence step on.
#[tactic(auto, unfolding(protocol::specs::ConnectionRecord::on_step))]
fn on_step(
    c: Connection,
    share: &mut [u8],
    image: &mut [u8],
    clock: u64,
    h: SequenceLayerHeader,
    body: &[u8],
) -> Handled
    ensures { (request : List ℕ) → body.now ≡ command_part request → told_handled result share.new image.new ≡ on_step c share.old image.old clock request h (sequence_step c h) }
{
    let step = stepping::sequence_step(c, h);
    match step.said {
        Ok(r) => {
            let next = closing::rebuilt(step.connection);
            after_step(next, share, image, clock, h, r, body)
        }
        Err(misfit) => refused(step.connection, Refusal::from(misfit)),
    }
}

// A whole request on one record: before the step, the step, and after it.
#[tactic(auto, unfolding(protocol::specs::ConnectionRecord::serve, protocol::specs::ConnectionRecord::on_header, protocol::specs::ConnectionRecord::on_before))]
pub fn handle_request(
    c: Connection,
    share: &mut [u8],
    image: &mut [u8],
    clock: u64,
    request: &[u8],
) -> Handled
    ensures { told_handled result share.new image.new ≡ serve c share.old image.old clock request.now }
{
    let Ok(h) = sequence::deserialize(request) else {
        return refused(c, Refusal::Short);
    };
    if let Some(r) = sequence_layer::before_step(c, h) {
        return answered(c, r);
    }
    on_step(c, share, image, clock, h, sequence::command_part(request))
}

// A tick on a record that is due.
// (A match, since two states are answered and in two ways.)
#[tactic(auto, unfolding(protocol::specs::ConnectionTable::tick_record, protocol::specs::ConnectionTable::tick_in))]
pub fn tick(c: Connection, image: &[u8], clock: u64) -> Option<Left<SdoResponseData>>
    ensures { (share : List ℕ) → told_record_ticked result share image.now ≡ tick_record c share image.now clock }
{
    match c.state {
        SdoServerState::SegmentedDownload(t) => Some(timeouts::times_out(c, t)),
        SdoServerState::SegmentedUpload(t) => Some(timeouts::tick_upload(c, image, clock, t)),
        SdoServerState::Closed | SdoServerState::Opening | SdoServerState::Established => None,
    }
}
