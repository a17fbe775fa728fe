// The way in: request, tick and deadline query over a lent table, beside the lent area, image and answer buffer. A table of another length than eight is refused with 1, and all is left.
#![tactic(auto)]

ghost use Rattle.std.specs.Prelude.{◌≡◌, ◌≢◌, length, IfOk, IfErr};
ghost use Rattle.protocol.specs.declared.Refusal.TheVariants.{Lent};
ghost use Rattle.protocol.specs.Request.{told_outcome, request_of};
ghost use Rattle.protocol.specs.Tick.{told_ticked, tick_of};
ghost use Rattle.protocol.specs.DeadlineQuery.{told_next_action, query_of};
ghost use Rattle.lent.specs.Lent.{called};

use protocol::{Answered, Connection, Refusal, SdoClientInfo};

// A lent table as a row of eight records.
fn row_of(table: &[Connection]) -> Result<&[Connection; 8], Refusal>
    ensures loaded { IfOk result (λ row. row.now ≡ table.now) }
    ensures long { IfOk result (λ row. length table.now ≡ 8) }
    ensures refused { IfErr result (λ x. (length table.now ≢ 8) × (x ≡ Lent)) }
{
    table.as_array().ok_or(Refusal::Lent)
}

// A request from a client. A refusal leaves what its row of document 01's table says.
// (`known` is yes: a client by value is of a kind.)
pub fn handle_request(
    table: &mut [Connection],
    area: &mut [u8],
    image: &mut [u8],
    answer: &mut [u8],
    client: SdoClientInfo,
    clock: u64,
    request: &[u8],
) -> Result<Answered, Refusal>
    ensures { called (told_outcome result) answer.new table.new area.new image.new ≡ request_of client clock request.now image.old answer.old table.old area.old }
{
    let t = table.as_mut_array().ok_or(Refusal::Lent)?;
    server::request_on(t, true, area, image, answer, client, clock, request)
}

// A tick of the clock.
// (Document 01 names the scan of a lent row, so the due record is looked for here, and `server::tick`, which looks for it by value, is not called. The row goes by value and is stored again: a tick drops records of a row by value.)
pub fn tick<'t, 'a, 'b>(
    table: &'t mut [Connection],
    area: &'a [u8],
    image: &'a [u8],
    answer: &'b mut [u8],
    clock: u64,
) -> Result<Option<Answered>, Refusal>
    ensures { called (told_ticked result) answer.new table.new area.now image.now ≡ tick_of clock image.now answer.old table.old area.now }
{
    let row = *row_of(table)?;
    let due = row::due_place(table, clock);
    let called = server::tick_at(row, due, area, image, answer, clock);
    table.copy_from_slice(&called.table);
    called.outcome
}

// The earliest deadline of a lent table of eight.
// (Document 01 names the scan of a lent row, so this is no call of `server::next_action_time`, which scans one by value.)
pub fn next_action_time(table: &[Connection]) -> Result<Option<u64>, Refusal>
    ensures { told_next_action result ≡ query_of table.now }
{
    if records::is_sound(row_of(table)?) {
        return Ok(records::earliest(table));
    }
    Err(Refusal::Table)
}
