// The command layer of one connection, by value (sequence_handler.rs, process_command_layer). The client's share of the area and the image are lent.
// (Record, share, image and clock stay parameters: why stands beside `handlers::read_entry`.)
#![tactic(auto)]

ghost use Rattle.std.specs.Prelude.{◌≡◌, []};
ghost use Rattle.protocol.specs.Command.{flag_places, with_payload, decode_command};
ghost use Rattle.protocol.specs.TransferRecord.{told_action};
ghost use Rattle.protocol.specs.ConnectionRecord.{nil, dispatch, command_layer, on_decoding};

use handlers::{Asked, NIL};
use protocol::{
    AbortCode, Action, Body, CommandId, CommandLayerHeader, Connection, SdoCommand, SdoServerState,
};

// A Nil command with no payload.
pub fn nil(response: bool, aborted: bool) -> SdoCommand
    ensures { with_payload result [] ≡ nil response aborted }
{
    SdoCommand {
        header: CommandLayerHeader {
            response,
            aborted,
            ..NIL
        },
        total: None,
    }
}

// Acts on a command that no upload bars, by its id; the ids that nobody serves are answered as Abort is.
// (Command and payload stay two: an answer holds a command of this type too, and its payload lies elsewhere.)
#[tactic(auto, unfolding(protocol::specs::ConnectionRecord::dispatch))]
fn dispatch(
    c: Connection,
    share: &mut [u8],
    image: &mut [u8],
    clock: u64,
    m: SdoCommand,
    payload: &[u8],
) -> Action
    ensures { told_action result share.new image.new ≡ dispatch c share.old image.old clock m.header.id (with_payload m payload.now) }
{
    let h = m.header;
    let asked = Asked {
        connection: c,
        transaction: h.transaction,
    };
    match h.id {
        CommandId::Nil => asked.acknowledge(),
        CommandId::ReadByIndex => handlers::read_by_index(asked, share, image, clock, payload),
        CommandId::WriteByIndex => {
            let total = m.total.unwrap_or(0);
            downloads::write_by_index(asked, share, image, clock, h.segmentation, total, payload)
        }
        CommandId::MaxSegmentSize => handlers::max_segment_size(asked, payload),
        CommandId::Abort
        | CommandId::WriteAllByIndex
        | CommandId::ReadAllByIndex
        | CommandId::WriteByName
        | CommandId::ReadByName
        | CommandId::FileWrite
        | CommandId::FileRead
        | CommandId::WriteMultipleParamByIndex
        | CommandId::ReadMultipleParamByIndex => asked.abort(AbortCode::InvalidCommand),
    }
}

// The command layer. The client's own abort is answered by an empty aborted Nil and resets no number, and an upload bars what does not ask for its next piece.
#[tactic(auto, unfolding(protocol::specs::ConnectionRecord::command_layer, protocol::specs::ConnectionRecord::command_in, picks::specs::Pick::pick))]
pub fn process_command_layer(
    c: Connection,
    share: &mut [u8],
    image: &mut [u8],
    clock: u64,
    m: SdoCommand,
    payload: &[u8],
) -> Action
    ensures { told_action result share.new image.new ≡ command_layer c share.old image.old clock (with_payload m payload.now) }
{
    if m.header.aborted {
        return Action {
            connection: state::with_state(c, SdoServerState::Established),
            command: nil(false, true),
            body: Body::Nothing,
        };
    }
    if let SdoServerState::SegmentedUpload(t) = c.state {
        return uploads::upload_command(c, image, clock, t, m);
    }
    dispatch(c, share, image, clock, m, payload)
}

// The bytes of a command: what the command layer makes of them, or the abort of an undecodable one.
#[tactic(auto, unfolding(protocol::specs::ConnectionRecord::on_decoding))]
pub fn command_bytes(
    c: Connection,
    share: &mut [u8],
    image: &mut [u8],
    clock: u64,
    body: &[u8],
) -> Action
    ensures { told_action result share.new image.new ≡ on_decoding c share.old image.old clock body.now (decode_command flag_places body.now) }
{
    let Ok(m) = command::deserialize(body) else {
        let asked = Asked {
            connection: c,
            transaction: fields::undecodable_transaction(body),
        };
        return asked.abort(AbortCode::InvalidCommand);
    };
    let payload = command::payload(m.header, body);
    process_command_layer(c, share, image, clock, m, payload)
}
