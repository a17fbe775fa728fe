// A command that meets a running upload (sequence_handler.rs, `process_command_layer`): one of the same transaction may ask for the next piece.
#![tactic(auto)]

ghost use Rattle.std.specs.Prelude.{◌≡◌, List, ◌||◌, ℕ, eqb};
ghost use Rattle.protocol.specs.Command.{id_byte, with_payload};
ghost use Rattle.protocol.specs.TransferRecord.{told_action};
ghost use Rattle.protocol.specs.ConnectionRecord.{upload_command};

use handlers::Asked;
use protocol::{AbortCode, Action, CommandId, Connection, SdoCommand, SdoTransferState};

// Whether a command of an upload's transaction asks for the next piece.
fn asks_next(id: CommandId, response: bool) -> bool
    ensures { result ≡ (eqb (id_byte id) 0 || response) }
{
    id == CommandId::Nil || response
}

// A command that meets an upload.
#[tactic(auto, unfolding(protocol::specs::ConnectionRecord::upload_command, picks::specs::Pick::pick))]
pub fn upload_command(
    c: Connection,
    image: &[u8],
    clock: u64,
    t: SdoTransferState,
    m: SdoCommand,
) -> Action
    ensures { (share p : List ℕ) → told_action result share image.now ≡ upload_command c share image.now clock t (with_payload m p) }
{
    let h = m.header;
    let asked = Asked {
        connection: c,
        transaction: h.transaction,
    };
    if t.transaction != h.transaction {
        return asked.abort(AbortCode::GeneralError);
    }
    if asks_next(h.id, h.response) {
        return state::advance(c, image, clock, t);
    }
    asked.abort(AbortCode::InvalidSequence)
}
