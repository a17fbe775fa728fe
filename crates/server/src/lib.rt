// The server (server.rs): request, tick and deadline query, with the refusals in order. The table is one value, a row of eight records, or for a request one in any form, changed where it is. Area, image and answer buffer are lent.
// (Area, image and answer stand apart: a request changes all three, a tick the answer alone, and the tests none, so a struct of references would fit one of them.)
#![tactic(auto)]

ghost use Rattle.std.specs.Prelude.{◌≡◌, true, ◌+◌, ◌*◌, ◌≤◌, length, set};
ghost use Rattle.picks.specs.Pick.{pick};
ghost use Rattle.protocol.specs.Constants.{SHARE, ANSWER_MIN};
ghost use Rattle.protocol.specs.Coding.{told_written};
ghost use Rattle.protocol.specs.ConnectionRecord.{told_handled, told_reply, serve};
ghost use Rattle.protocol.specs.ConnectionTable.{sound_table, share_of, with_share};
ghost use Rattle.protocol.specs.Calls.{verdict, accept, addressed, answer_written, answer_left};
ghost use Rattle.protocol.specs.Request.{told_outcome, told_requested, accepted, request_of};
ghost use Rattle.protocol.specs.Tick.{told_ticked, told_ticked_row, tick_tests, tick_at, tick_of};
ghost use Rattle.row.specs.Row.{place_in};
ghost use Rattle.seats.specs.Seats.{settled_in};
ghost use Rattle.server.specs.Admitted.{Admitted};
ghost use Rattle.server.specs.Tables.{left_in, made_of, kept_or_made};
ghost use Rattle.server.specs.Left.{holds_share, served_on, told_to, ticked_call, tick_at_of};
ghost use Rattle.protocol.specs.DeadlineQuery.{told_next_action, query_of};

use forms::Table;
use protocol::{
    Answered, BufferTooShort, Called, Connection, Handled, Left, Refusal, SdoClientInfo,
    SdoResponseData,
};
use seats::Seat;

// The bytes of a record's own part of the area.
// (Document 01 finds the part by the record's area number, so its place is counted here.)
const PART: usize = protocol::SHARE as usize;

// A request on a record, whose own part of the area is lent on.
fn serve_share(
    c: Connection,
    area: &mut [u8],
    image: &mut [u8],
    clock: u64,
    request: &[u8],
) -> Handled
    requires { SHARE * c.area + SHARE ≤ length area.old }
    ensures served { (told_handled result (share_of area.new c.area) image.new ≡ serve c (share_of area.old c.area) image.old clock request.now) }
    ensures area_left { area.new ≡ with_share area.old c.area (share_of area.new c.area) }
{
    let from = PART * (c.area as usize);
    let to = from + PART;
    sequence_handler::handle_request(c, &mut area[from..to], image, clock, request)
}

// The same for an area of any length: one that does not hold the record's part is refused with 1.
#[tactic(auto, unfolding(picks::specs::Pick::pick, protocol::specs::Constants::SHARE))]
pub fn serve_record(
    c: Connection,
    area: &mut [u8],
    image: &mut [u8],
    clock: u64,
    request: &[u8],
) -> Handled
    ensures served { told_handled result (share_of area.new c.area) image.new ≡ served_on c area.old image.old clock request.now }
    ensures area_left { area.new ≡ pick (holds_share c area.old) (with_share area.old c.area (share_of area.new c.area)) area.old }
{
    if area.len() < PART * (c.area as usize) + PART {
        return Left {
            connection: c,
            said: Err(Refusal::Lent),
        };
    }
    serve_share(c, area, image, clock, request)
}

// An answer's bytes in the answer buffer; a piece stands in the record's own part of the area.
#[tactic(auto, unfolding(protocol::specs::Constants::SHARE))]
pub fn put_answer<'a>(
    r: SdoResponseData,
    area: &'a [u8],
    number: u8,
    image: &'a [u8],
    answer: &mut [u8],
) -> Result<usize, BufferTooShort>
    ensures told { told_written result ≡ answer_written (told_reply r (share_of area.now number) image.now) answer.old }
    ensures left { answer.new ≡ answer_left (told_reply r (share_of area.now number) image.now) answer.old }
{
    let share = octets::part(area, PART * (number as usize), PART);
    answer::write_answer(r, share, image, answer)
}

// What is returned for an answer that was written.
pub fn addressed(
    client: SdoClientInfo,
    written: Result<usize, BufferTooShort>,
) -> Result<Answered, Refusal>
    ensures { told_outcome result ≡ addressed client (told_written written) }
{
    let length = written?;
    Ok(Answered { client, length })
}

// An answered request: the answer's bytes, and the table after it.
fn answered<'a, T: Table>(
    t: &mut T,
    s: Seat,
    next: Connection,
    client: SdoClientInfo,
    r: SdoResponseData,
    area: &'a [u8],
    image: &'a [u8],
    answer: &mut [u8],
) -> Result<Answered, Refusal>
    ensures returned { told_outcome result ≡ addressed client (answer_written (told_reply r (share_of area.now s.own.area) image.now) answer.old) }
    ensures table_left { t.new ≡ T.made (settled_in s.place next (T.rows t.old)) }
    ensures answer_left { answer.new ≡ answer_left (told_reply r (share_of area.now s.own.area) image.now) answer.old }
{
    let written = put_answer(r, area, s.own.area, image, answer);
    seats::settle(t, s.place, next);
    addressed(client, written)
}

// A request that passed the tests: the client's record is served and goes to its seat.
fn accepted<T: Table>(
    t: &mut T,
    area: &mut [u8],
    image: &mut [u8],
    answer: &mut [u8],
    client: SdoClientInfo,
    place: Option<usize>,
    free: Option<usize>,
    clock: u64,
    request: &[u8],
) -> Result<Answered, Refusal>
    ensures { Admitted client place free clock request.now image.old answer.old (T.rows t.old) area.old → left_in (told_outcome result) answer.new t.new area.new image.new ≡ made_of T.made (accepted client clock request.now image.old answer.old (T.rows t.old) area.old) }
{
    let s = seats::seat_of(t, client, place, free);
    let served = serve_record(s.own, area, image, clock, request);
    let next = served.connection;
    match served.said {
        Ok(r) => answered(t, s, next, client, r, area, image, answer),
        Err(x) => {
            seats::put_back(t, s.place, next);
            Err(x)
        }
    }
}

// A request on a table that was found sound, with the other tests of what is lent passed. Refusals 1 to 7 leave the table as it was.
fn admitted<T: Table>(
    t: &mut T,
    area: &mut [u8],
    image: &mut [u8],
    answer: &mut [u8],
    client: SdoClientInfo,
    clock: u64,
    request: &[u8],
) -> Result<Answered, Refusal>
    ensures { verdict (tick_tests clock image.old answer.old (T.rows t.old) area.old) ≡ accept → left_in (told_outcome result) answer.new t.new area.new image.new ≡ kept_or_made T.made t.old (request_of client clock request.now image.old answer.old (T.rows t.old) area.old) }
{
    let place = t.place_of(client);
    let free = t.unused_place();
    refusals::check_frame(request.len(), place.is_none() & free.is_none())?;
    accepted(t, area, image, answer, client, place, free, clock, request)
}

// A request on a table in any form; `known` says whether its client is of a kind. Refusals 1 to 7 leave the table as it was.
// (The tests of what is lent are one call of `refusals`; that call is what this, `tick_at` and the tick of `export` share.)
// (`known` stands beside the client, and is no Option of it: an unknown one is refused amid the other tests, and behind them an Option would be matched again, with a case that nothing reaches.)
pub fn request_on<T: Table>(
    t: &mut T,
    known: bool,
    area: &mut [u8],
    image: &mut [u8],
    answer: &mut [u8],
    client: SdoClientInfo,
    clock: u64,
    request: &[u8],
) -> Result<Answered, Refusal>
    ensures { left_in (told_outcome result) answer.new t.new area.new image.new ≡ kept_or_made T.made t.old (request_of client clock request.now image.old answer.old (T.read known t.old) area.old) }
{
    refusals::check_lent(known & t.is_sound(), area, image, answer, clock)?;
    admitted(t, area, image, answer, client, clock, request)
}

// A request from a client. A refusal leaves what its row of document 01's table says.
// (`known` is yes: a client by value is of a kind.)
pub fn handle_request(
    mut t: [Connection; 8],
    area: &mut [u8],
    image: &mut [u8],
    answer: &mut [u8],
    client: SdoClientInfo,
    clock: u64,
    request: &[u8],
) -> Called<Answered>
    ensures { told_requested result answer.new area.new image.new ≡ request_of client clock request.now image.old answer.old t area.old }
{
    let outcome = request_on(&mut t, true, area, image, answer, client, clock, request);
    Called { outcome, table: t }
}

// A refused call, and the row that it leaves.
fn refused<T: Copy>(x: Refusal, table: [Connection; 8]) -> Called<T>
    ensures { result ≡ record { outcome = Err x; table = table } }
{
    Called {
        outcome: Err(x),
        table,
    }
}

// What is returned for a tick's answer.
fn ticked_to(
    client: SdoClientInfo,
    written: Result<usize, BufferTooShort>,
) -> Result<Option<Answered>, Refusal>
    ensures { told_ticked result ≡ told_to (addressed client (told_written written)) }
{
    addressed(client, written).map(Some)
}

// A tick that answers: the answer's bytes, and the row without its Closed records.
// (The place is one of the row, whose record is answered.)
#[tactic(auto, unfolding(picks::specs::Pick::pick))]
fn tick_answered<'a>(
    t: [Connection; 8],
    place: usize,
    c: Connection,
    next: Left<SdoResponseData>,
    area: &'a [u8],
    image: &'a [u8],
    answer: &mut [u8],
) -> Called<Option<Answered>>
    requires { (sound_table (set t place next.connection) ≡ true) × (ANSWER_MIN ≤ length answer.old) }
    ensures { told_ticked_row result answer.new area.now image.now ≡ ticked_call c.client t place next.connection (told_reply next.said (share_of area.now c.area) image.now) answer.old area.now image.now }
{
    let written = put_answer(next.said, area, c.area, image, answer);
    let row = table::replaced(t, place, next.connection);
    Called {
        outcome: ticked_to(c.client, written),
        table: table::drop_closed(row),
    }
}

// A tick that passed the tests: the client of the record at a place is answered, then all Closed records are dropped.
fn ticked<'a>(
    t: [Connection; 8],
    place: Option<usize>,
    area: &'a [u8],
    image: &'a [u8],
    answer: &mut [u8],
    clock: u64,
) -> Called<Option<Answered>>
    requires { verdict (tick_tests clock image.now answer.old t area.now) ≡ accept }
    ensures { told_ticked_row result answer.new area.now image.now ≡ tick_at clock image.now answer.old t area.now (place_in place) }
{
    if let Some(i) = place {
        let c = records::record_at(&t, i);
        if let Some(next) = sequence_handler::tick(c, image, clock) {
            return tick_answered(t, i, c, next, area, image, answer);
        }
    }
    Called {
        outcome: Ok(None),
        table: table::drop_closed(t),
    }
}

// A tick of the clock that looks at the record at a place, or at none.
// (No `?`: the row goes back with a refusal too.)
#[tactic(auto, unfolding(crate::specs::Left::tick_at_of), using(crate::proofs::Laws::tick_tests_lem))]
pub fn tick_at<'a>(
    t: [Connection; 8],
    place: Option<usize>,
    area: &'a [u8],
    image: &'a [u8],
    answer: &mut [u8],
    clock: u64,
) -> Called<Option<Answered>>
    ensures { told_ticked_row result answer.new area.now image.now ≡ tick_at_of (place_in place) clock image.now answer.old t area.now }
{
    match refusals::check_lent(records::is_sound(&t), area, image, answer, clock) {
        Ok(()) => ticked(t, place, area, image, answer, clock),
        Err(x) => refused(x, t),
    }
}

// A tick of the clock: it looks at the first due record.
#[tactic(auto, using(crate::proofs::Calls::tick_at_chosen))]
pub fn tick<'a>(
    t: [Connection; 8],
    area: &'a [u8],
    image: &'a [u8],
    answer: &mut [u8],
    clock: u64,
) -> Called<Option<Answered>>
    ensures { told_ticked_row result answer.new area.now image.now ≡ tick_of clock image.now answer.old t area.now }
{
    tick_at(t, table::first_due(t, clock), area, image, answer, clock)
}

// The earliest deadline.
#[tactic(auto, using(crate::proofs::Calls::query_sound, crate::proofs::Calls::query_unsound))]
pub fn next_action_time(t: [Connection; 8]) -> Result<Option<u64>, Refusal>
    ensures { told_next_action result ≡ query_of t }
{
    if records::is_sound(&t) {
        return Ok(records::earliest(&t));
    }
    Err(Refusal::Table)
}
