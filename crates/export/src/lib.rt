// The three calls of the server as C makes them: numbers and lent bytes in and out, the table as the 320 bytes of its records. Crate `export_c` exports them.
// (What is lent stands apart in every call, as C lends it: a request changes all of it, a tick table and answer, and the query nothing.)
#![tactic(auto)]

ghost use Rattle.std.specs.Prelude.{◌≡◌, true};
ghost use Rattle.picks.specs.Pick.{every};
ghost use Rattle.protocol.specs.Request.{told_outcome, request_of};
ghost use Rattle.protocol.specs.Tick.{told_ticked, tick_of};
ghost use Rattle.protocol.specs.DeadlineQuery.{told_next_action};
ghost use Rattle.server.specs.Tables.{left_in, kept_or_made};
ghost use Rattle.format.specs.Format.{client_of, is_client, table_bytes, table_of};
ghost use Rattle.packed.specs.Packed.{is_quiet};
ghost use Rattle.outcomes.specs.Outcomes.{tick_answer, query_answer, row_of};
ghost use Rattle.export.specs.Exported.{left, left_by, request_bytes, tick_bytes, query_bytes};

use outcomes::{SdoAnswer, SdoDeadline};
use protocol::{Answered, Refusal};

// A request on the table's bytes, from the client in its eight bytes.
fn handle_request(
    t: &mut [u8; 320],
    area: &mut [u8],
    image: &mut [u8],
    answer: &mut [u8],
    who: &[u8; 8],
    clock: u64,
    request: &[u8],
) -> Result<Answered, Refusal>
    ensures { left_in (told_outcome result) answer.new t.new area.new image.new ≡ kept_or_made table_bytes t.old (request_of (client_of who.now) clock request.now image.old answer.old (row_of (is_client who.now) t.old) area.old) }
{
    let known = clients::is_client(who);
    let client = clients::client_in(who);
    server::request_on(t, known, area, image, answer, client, clock, request)
}

// A request from a client. A table of another length than 320 is refused as what is lent.
// (The tick begins alike: an SdoAnswer takes no `?`, and a function of both would take the rest of each as a closure.)
#[tactic(auto, unfolding(crate::specs::Exported::request_bytes, picks::specs::Pick::pick))]
pub fn sdo_handle_request(
    table: &mut [u8],
    area: &mut [u8],
    image: &mut [u8],
    answer: &mut [u8],
    client: u64,
    clock: u64,
    request: &[u8],
) -> SdoAnswer
    ensures { left result table.new area.new image.new answer.new ≡ request_bytes client clock request.now image.old answer.old table.old area.old }
{
    let Some(t) = table.as_mut_array() else {
        return outcomes::refused(Refusal::Lent);
    };
    let who = client.to_le_bytes();
    outcomes::of_request(handle_request(t, area, image, answer, &who, clock, request))
}

// A tick that finds nobody due and no Closed record: it makes its tests and leaves the records as they are.
fn quiet_tick<'a>(
    t: &mut [u8; 320],
    area: &'a [u8],
    image: &'a [u8],
    answer: &'a [u8],
    clock: u64,
) -> Result<Option<Answered>, Refusal>
    requires { every (is_quiet clock) (table_of t.old) ≡ true }
    ensures { left (tick_answer (told_ticked result)) t.new area.now image.now answer.now ≡ left_by tick_answer t.old (tick_of clock image.now answer.now (row_of true t.old) area.now) }
{
    refusals::check_lent(packed::is_sound(t), area, image, answer, clock)?;
    packing::tidy(t);
    Ok(None)
}

// A tick on the table's bytes.
#[tactic(auto, using(crate::proofs::Through::tick_by_row))]
fn tick<'a>(
    t: &mut [u8; 320],
    area: &'a [u8],
    image: &'a [u8],
    answer: &mut [u8],
    clock: u64,
) -> SdoAnswer
    ensures { left result t.new area.now image.now answer.new ≡ left_by tick_answer t.old (tick_of clock image.now answer.old (row_of true t.old) area.now) }
{
    if packed::is_quiet(t, clock) {
        return outcomes::of_tick(quiet_tick(t, area, image, answer, clock));
    }
    let done = server::tick(outcomes::row_of(t), area, image, answer, clock);
    let told = outcomes::of_tick(done.outcome);
    outcomes::leave(t, done.table, told.outcome);
    told
}

// A tick of the clock.
#[tactic(auto, unfolding(crate::specs::Exported::tick_bytes, picks::specs::Pick::pick), using(crate::proofs::Through::tick_through_lem))]
pub fn sdo_tick<'a>(
    table: &mut [u8],
    area: &'a [u8],
    image: &'a [u8],
    answer: &mut [u8],
    clock: u64,
) -> SdoAnswer
    ensures { left result table.new area.now image.now answer.new ≡ tick_bytes clock image.now answer.old table.old area.now }
{
    let Some(t) = table.as_mut_array() else {
        return outcomes::refused(Refusal::Lent);
    };
    tick(t, area, image, answer, clock)
}

// The earliest deadline on the table's bytes.
// (`server` asks the same of a row: here no row is made of the bytes.)
#[tactic(auto, unfolding(crate::specs::Exported::query_bytes, picks::specs::Pick::pick, format::specs::Format::table_of), using(crate::proofs::Through::query_sound_bytes, crate::proofs::Through::query_unsound_bytes))]
fn next_action_time(table: &[u8]) -> Result<Option<u64>, Refusal>
    ensures { query_answer (told_next_action result) ≡ query_bytes table.now }
{
    let Some(t) = table.as_array() else {
        return Err(Refusal::Lent);
    };
    if !packed::is_sound(t) {
        return Err(Refusal::Table);
    }
    Ok(records::earliest(record::rows(t)))
}

// The earliest deadline.
pub fn sdo_next_action_time(table: &[u8]) -> SdoDeadline
    ensures { result ≡ query_bytes table.now }
{
    outcomes::of_query(next_action_time(table))
}
