// The way in for a program that keeps its row of records itself: the row is lent to the call and returned as the call left it.
#![tactic(auto)]

ghost use Rattle.std.specs.Prelude.{◌≡◌};
ghost use Rattle.protocol.specs.Request.{told_requested, request_of};
ghost use Rattle.protocol.specs.Tick.{told_ticked_row, tick_of};
ghost use Rattle.protocol.specs.DeadlineQuery.{told_next_action, query_of};

use protocol::{Answered, Called, Connection, Refusal, SdoClientInfo};

// A request from a client.
// (Area, image and answer as one struct, and client, clock and request as another, prove too, but each caller makes them for this call alone, and the clause has no name for the answer that is left in a struct.)
// (This and the tick share that the row is returned beside what the call says: each lends it to a call of its own.)
// (`server` promises the same of each of the three: here the row goes by way of `lent`, which is what programs call.)
pub fn handle_request(
    mut t: [Connection; 8],
    area: &mut [u8],
    image: &mut [u8],
    answer: &mut [u8],
    client: SdoClientInfo,
    clock: u64,
    request: &[u8],
) -> Called<Answered>
    ensures { told_requested result answer.new area.new image.new ≡ request_of client clock request.now image.old answer.old t area.old }
{
    let outcome = lent::handle_request(&mut t, area, image, answer, client, clock, request);
    Called { outcome, table: t }
}

// A tick of the clock.
pub fn tick<'a, 'b>(
    mut t: [Connection; 8],
    area: &'a [u8],
    image: &'a [u8],
    answer: &'b mut [u8],
    clock: u64,
) -> Called<Option<Answered>>
    ensures { told_ticked_row result answer.new area.now image.now ≡ tick_of clock image.now answer.old t area.now }
{
    let outcome = lent::tick(&mut t, area, image, answer, clock);
    Called { outcome, table: t }
}

// The earliest deadline.
pub fn next_action_time(t: [Connection; 8]) -> Result<Option<u64>, Refusal>
    ensures { told_next_action result ≡ query_of t }
{
    lent::next_action_time(&t)
}
