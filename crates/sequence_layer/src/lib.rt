// The sequence layer of one connection, by value (sequence_handler.rs, process_sequence_layer): what stands before the sequence step, and the step itself.
#![tactic(auto)]

ghost use Rattle.std.specs.Prelude.{◌≡◌, List, ◌&&◌, ℕ, eqb};
ghost use Rattle.protocol.specs.SequenceHeader.{send_mark};
ghost use Rattle.protocol.specs.ConnectionRecord.{told_step, stepped, misfit, told_resend, before_step, answer_marked, closed_step, opening_step, acknowledged, acknowledge, later_step, sequence_step};

use protocol::{
    Connection, Left, Misfit, Piece, ReceiveConnState, SdoResponseData, SdoServerState,
    SdoTransferState, SendConnState, SequenceLayerHeader, Step,
};

// Before the sequence step: receive mark 3 in an upload with a stored piece resends it, under send mark 3.
// (Record and header stay two: each step leaves another record, and the frame's header stays as it is.)
#[tactic(auto, unfolding(protocol::specs::ConnectionRecord::before_step, protocol::specs::ConnectionRecord::before_in, picks::specs::Pick::pick))]
pub fn before_step(c: Connection, h: SequenceLayerHeader) -> Option<SdoResponseData>
    ensures { (share image : List ℕ) → told_resend result share image ≡ before_step c share h }
{
    let SdoServerState::SegmentedUpload(t) = c.state else {
        return None;
    };
    if (h.rcon == ReceiveConnState::ErrorResponse) & t.stored {
        let header = SequenceLayerHeader {
            receive: h.send,
            scon: SendConnState::ConnectionValidAckRequest,
            ..answer_marked(c)
        };
        return Some(response(header, state::stored_piece(t)));
    }
    None
}

// A piece under a header.
pub fn response(header: SequenceLayerHeader, p: Piece) -> SdoResponseData
    ensures { result ≡ record { header = header; command = p.command; body = p.body } }
{
    SdoResponseData {
        header,
        command: p.command,
        body: p.body,
    }
}

// An answer's header under marks 2.
pub fn answer_marked(c: Connection) -> SequenceLayerHeader
    ensures { result ≡ answer_marked c }
{
    SequenceLayerHeader {
        receive: c.receive,
        rcon: ReceiveConnState::ConnectionValid,
        send: c.send,
        scon: SendConnState::ConnectionValid,
    }
}

// A frame that fits: the record after it, and the answer's header so far.
// (`sequence_handler` says of one shape with this and `misfit` what is left of a request.)
fn stepped(connection: Connection, header: SequenceLayerHeader) -> Step
    ensures { told_step result ≡ stepped connection header }
{
    Left {
        connection,
        said: Ok(header),
    }
}

// A frame that does not fit.
fn misfit(connection: Connection) -> Step
    ensures { told_step result ≡ misfit connection }
{
    Left {
        connection,
        said: Err(Misfit),
    }
}

// A Closed client's frame.
// (Both headers are written out: they have one field in common, and at most one with `answer_marked`.)
#[tactic(auto, unfolding(protocol::specs::ConnectionRecord::closed_step, picks::specs::Pick::pick))]
fn closed_step(c: Connection, h: SequenceLayerHeader) -> Step
    ensures { told_step result ≡ closed_step c h }
{
    if h.scon == SendConnState::Initialization {
        let header = SequenceLayerHeader {
            receive: h.send,
            rcon: ReceiveConnState::Initialization,
            send: 0,
            scon: SendConnState::Initialization,
        };
        return stepped(state::moved(c, 0, h.send, SdoServerState::Opening), header);
    }
    let header = SequenceLayerHeader {
        receive: h.send,
        rcon: ReceiveConnState::NoConnection,
        send: c.send,
        scon: SendConnState::NoConnection,
    };
    stepped(c, header)
}

// A frame in Opening: any send number ends the handshake.
#[tactic(auto, unfolding(protocol::specs::ConnectionRecord::opening_step, picks::specs::Pick::pick))]
fn opening_step(c: Connection, h: SequenceLayerHeader) -> Step
    ensures { told_step result ≡ opening_step c h }
{
    if ends_handshake(c, h) {
        let send = sequence::next_number(c.send);
        let next = state::moved(c, send, h.send, SdoServerState::Established);
        return stepped(next, answer_marked(next));
    }
    misfit(state::with_state(c, SdoServerState::Closed))
}

// Whether a frame in Opening has send mark 2 and the right receive number.
fn ends_handshake(c: Connection, h: SequenceLayerHeader) -> bool
    ensures { result ≡ (eqb (send_mark h.scon) 2 && eqb h.receive c.send) }
{
    (h.scon == SendConnState::ConnectionValid) & (h.receive == c.send)
}

// An upload whose piece is acknowledged has no deadline and no stored piece.
// (By update: it names the numbers that change and no other.)
fn acknowledged(t: SdoTransferState) -> SdoTransferState
    ensures { result ≡ acknowledged t }
{
    SdoTransferState {
        deadline: None,
        retries: 0,
        stored: false,
        ..t
    }
}

// The state after a frame with the next number, whose receive number is ours or not.
// (A match with a guard: two tests, one of them with a value, and one answer where either fails.)
#[tactic(auto, unfolding(protocol::specs::ConnectionRecord::acknowledge, picks::specs::Pick::pick))]
fn acknowledge(ours: bool, s: SdoServerState) -> SdoServerState
    ensures { result ≡ acknowledge ours s }
{
    match s {
        SdoServerState::SegmentedUpload(t) if ours => {
            SdoServerState::SegmentedUpload(acknowledged(t))
        }
        _ => s,
    }
}

// A frame in a later state: a repeat, the next number, or neither.
#[tactic(auto, unfolding(protocol::specs::ConnectionRecord::later_step, picks::specs::Pick::pick))]
fn later_step(c: Connection, h: SequenceLayerHeader) -> Step
    ensures { told_step result ≡ later_step c h }
{
    if h.send == c.receive {
        return stepped(c, answer_marked(c));
    }
    if h.send == sequence::next_number(c.receive) {
        let s = acknowledge(h.receive == c.send, c.state);
        let next = state::moved(c, sequence::next_number(c.send), h.send, s);
        return stepped(next, answer_marked(next));
    }
    misfit(c)
}

// The sequence step.
#[tactic(auto, unfolding(protocol::specs::ConnectionRecord::sequence_step, protocol::specs::ConnectionRecord::step_in))]
pub fn sequence_step(c: Connection, h: SequenceLayerHeader) -> Step
    ensures { told_step result ≡ sequence_step c h }
{
    match c.state {
        SdoServerState::Closed => closed_step(c, h),
        SdoServerState::Opening => opening_step(c, h),
        _ => later_step(c, h),
    }
}
