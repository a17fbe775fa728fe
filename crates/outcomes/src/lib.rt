// What a call answers and leaves, for C: outcomes as numbers, and the row that a table's 320 bytes stand for.
#![tactic(auto)]

ghost use Rattle.std.specs.Prelude.{◌≡◌, true};
ghost use Rattle.octets.specs.Octets.{le};
ghost use Rattle.protocol.specs.Coding.{refusal_number};
ghost use Rattle.protocol.specs.Request.{told_outcome};
ghost use Rattle.protocol.specs.Tick.{told_ticked};
ghost use Rattle.protocol.specs.DeadlineQuery.{told_next_action};
ghost use Rattle.format.specs.Format.{client_bytes};
ghost use Rattle.outcomes.specs.Outcomes.{only, answers_to, request_answer, tick_answer, query_answer, row_of, table_left};

use protocol::{Answered, Connection, Refusal, SdoClientInfo};

// What a call answered: 0 and the answer's length and client, a refusal's number, or 255 where nobody is answered. (C's interface: numbers for kinds, and zeros beside them.)
#[repr(C)]
#[derive(Clone, Copy)]
pub struct SdoAnswer {
    pub outcome: u64,
    pub length: u64,
    pub client: u64,
}

// What the deadline query answered: 254 and the deadline, a refusal's number, or 255 without a deadline. (C's interface too.)
#[repr(C)]
#[derive(Clone, Copy)]
pub struct SdoDeadline {
    pub outcome: u64,
    pub at: u64,
}

// A client as a number: its bytes, the first the lowest.
fn client_number(client: SdoClientInfo) -> u64
    ensures { result ≡ le (client_bytes client) }
{
    octets::number_at(&clients::client_bytes(client), 0)
}

// A number alone.
// (C reads the outcome as a number: beside the refusals' it has 254 and 255, which are none.)
pub fn only(outcome: u64) -> SdoAnswer
    ensures { result ≡ only outcome }
{
    SdoAnswer {
        outcome,
        length: 0,
        client: 0,
    }
}

// A refusal.
pub fn refused(x: Refusal) -> SdoAnswer
    ensures { result ≡ only (refusal_number x) }
{
    only(x as u64)
}

// An answer.
// (0 is the number by which C knows an answer.)
fn answers(a: Answered) -> SdoAnswer
    ensures { result ≡ answers_to (record { client = a.client; size = a.length }) }
{
    SdoAnswer {
        outcome: 0,
        length: a.length as u64,
        client: client_number(a.client),
    }
}

// What a request says, as numbers.
// (Three matches on three types: From would be three impls, each with one of these for its body.)
pub fn of_request(o: Result<Answered, Refusal>) -> SdoAnswer
    ensures { result ≡ request_answer (told_outcome o) }
{
    match o {
        Ok(a) => answers(a),
        Err(x) => refused(x),
    }
}

// What a tick says, as numbers.
// (255 is the number by which C knows that nobody is answered.)
pub fn of_tick(o: Result<Option<Answered>, Refusal>) -> SdoAnswer
    ensures { result ≡ tick_answer (told_ticked o) }
{
    match o {
        Ok(Some(a)) => answers(a),
        Ok(None) => only(255),
        Err(x) => refused(x),
    }
}

// What the deadline query says, as numbers.
pub fn of_query(o: Result<Option<u64>, Refusal>) -> SdoDeadline
    ensures { result ≡ query_answer (told_next_action o) }
{
    let (outcome, at) = match o {
        Ok(Some(time)) => (254, time),
        Ok(None) => (255, 0),
        Err(x) => (x as u64, 0),
    };
    SdoDeadline { outcome, at }
}

// The row that a table's bytes stand for: one that is not sound where they are none.
#[tactic(auto, unfolding(picks::specs::Pick::pick, crate::specs::Outcomes::row_of))]
pub fn row_of(t: &[u8; 320]) -> [Connection; 8]
    ensures { result ≡ row_of true t.now }
{
    if record::is_table(t) {
        record::table_of(t)
    } else {
        [connection::fresh(0); 8]
    }
}

// The table's bytes after a call on its row: refusals 1 to 7 leave them.
// (A caller may give any outcome: a Result here would be a narrower parameter.)
#[tactic(auto, unfolding(picks::specs::Pick::pick, crate::specs::Outcomes::table_left))]
pub fn leave(t: &mut [u8; 320], row: [Connection; 8], outcome: u64)
    ensures { t.new ≡ table_left outcome row t.old }
{
    let left = (0 < outcome) & (outcome < 8);
    if !left {
        *t = record::table_bytes(row);
    }
}
