// Records in either form, connections by value or the 40 bytes of each (oracle/REPLAY.md): what is asked of one, and the tests and searches along several.
#![tactic(auto)]

ghost use Rattle.std.specs.Prelude.{◌≡◌, List, map, get_or, position, true};
ghost use Rattle.picks.specs.Pick.{every};
ghost use Rattle.protocol.specs.declared.Connection.{Connection};
ghost use Rattle.protocol.specs.ConnectionTable.{is_unused, is_fresh, fresh, holds, sound_record, deadline_of, earliest, ordered, areas_once, sound_table};
ghost use Rattle.connection.specs.Among.{follows, is_behind};
ghost use Rattle.std.proofs.lemmas.List.{map-id};

use protocol::{Connection, SdoClientInfo};

mod bytes;

// A record in some form.
pub trait Record {
    // The record that it is.
    ghost value: { Self → Connection };

    // The records that several are.
    ghost values: { List Self → List Connection };

    // Whether it is used.
    fn is_used(&self) -> bool
        ensures { result ≡ (value self.now).used };

    // Its client.
    fn client(&self) -> SdoClientInfo
        ensures { result ≡ (value self.now).client };

    // Its area number.
    fn area(&self) -> u8
        ensures { result ≡ (value self.now).area };

    // Whether it is unused and fresh, but for its area number.
    fn is_fresh(&self) -> bool
        ensures { result ≡ is_fresh (value self.now) };

    // Whether its sequence numbers are at most 63, and its transfer sound.
    fn is_sound(&self) -> bool
        ensures { result ≡ sound_record (value self.now) };

    // When it is due, an unused one never.
    fn deadline(&self) -> Option<u64>
        ensures { result ≡ deadline_of (value self.now) };

    // The record by value.
    fn record(&self) -> Connection
        ensures { result ≡ value self.now };

    // What several are is what each of them is.
    ghost laws: { (rows : List Self) → map value rows ≡ values rows };
}

// A record by value.
impl Record for Connection {
    ghost value = { λ c. c };

    ghost values = { λ rows. rows };

    ghost laws = { map-id };

    fn is_used(&self) -> bool {
        self.used
    }

    fn client(&self) -> SdoClientInfo {
        self.client
    }

    fn area(&self) -> u8 {
        self.area
    }

    fn is_fresh(&self) -> bool {
        connection::is_fresh(*self)
    }

    fn is_sound(&self) -> bool {
        transfers::sound_record(*self)
    }

    fn deadline(&self) -> Option<u64> {
        transfers::deadline_of(*self)
    }

    fn record(&self) -> Connection {
        *self
    }
}

// Whether a record may stand next behind another: used ones first and by client, and unused ones fresh.
#[tactic(auto, unfolding(picks::specs::Pick::pick))]
pub fn follows<R: Record>(x: &R, y: &R) -> bool
    ensures { result ≡ follows (R.value x.now) (R.value y.now) }
{
    if x.is_used() {
        !y.is_used() || x.client() < y.client()
    } else {
        x.is_fresh() & !y.is_used()
    }
}

// Used records come first, clients strictly ascending, and unused ones are fresh.
fn is_ordered<R: Record>(rows: &[R; 8]) -> bool
    ensures { result ≡ ordered (R.values rows.now) }
{
    let last = &rows[7];
    rows.is_sorted_by(|x, y| follows(x, y)) & (last.is_used() | last.is_fresh())
}

// Area numbers 0 to 7, each once.
fn areas_once<R: Record>(rows: &[R; 8]) -> bool
    ensures { result ≡ areas_once (R.values rows.now) }
{
    let mut seen = [false; 8];
    for r in rows {
        let area = r.area() as usize;
        let Some(false) = seen.get(area) else {
            return false;
        };
        seen[area] = true;
    }
    true
}

// Whether every one of ordered records is sound: the unused ones are fresh, which is sound.
fn records_sound<R: Record>(rows: &[R; 8]) -> bool
    requires { ordered (R.values rows.now) ≡ true }
    ensures { result ≡ every sound_record (R.values rows.now) }
{
    rows.iter()
        .take_while(|r| r.is_used())
        .all(|r| r.is_sound())
}

// Whether the records are in order, their area numbers each there once, and every record sound.
#[tactic(auto, unfolding(protocol::specs::ConnectionTable::sound_table))]
pub fn is_sound<R: Record>(rows: &[R; 8]) -> bool
    ensures { result ≡ sound_table (R.values rows.now) }
{
    is_ordered(rows) && areas_once(rows) && records_sound(rows)
}

// Whether a record is a used one of the client's.
#[tactic(auto, unfolding(picks::specs::Pick::pick))]
pub fn is_held<R: Record>(r: &R, client: SdoClientInfo) -> bool
    ensures { result ≡ holds client (R.value r.now) }
{
    r.is_used() && r.client() == client
}

// The place of the client's record.
// (Rows and a client, or a place, go apart here and below: a receiver and its argument.)
pub fn place_of<R: Record>(rows: &[R], client: SdoClientInfo) -> Option<usize>
    ensures { result ≡ position (holds client) (R.values rows.now) }
{
    rows.iter().position(|r| is_held(r, client))
}

// The place of the first unused record.
pub fn unused_place<R: Record>(rows: &[R]) -> Option<usize>
    ensures { result ≡ position is_unused (R.values rows.now) }
{
    rows.iter().position(|r| !r.is_used())
}

// Whether a client's record belongs before this one: it is unused, or its client does not stand before that client.
pub fn is_behind<R: Record>(r: &R, client: SdoClientInfo) -> bool
    ensures { result ≡ is_behind client (R.value r.now) }
{
    !(r.is_used() && r.client() < client)
}

// Where a client's record belongs.
pub fn seat_place<R: Record>(rows: &[R], client: SdoClientInfo) -> Option<usize>
    ensures { result ≡ position (is_behind client) (R.values rows.now) }
{
    rows.iter().position(|r| is_behind(r, client))
}

// The earliest deadline of any number of records.
pub fn earliest<R: Record>(rows: &[R]) -> Option<u64>
    ensures { result ≡ earliest (R.values rows.now) }
{
    rows.iter()
        .fold(None, |d, r| transfers::earlier(d, r.deadline()))
}

// The area number of the record at a place; 0 past the end, as a fresh record has it.
// (0 is the number that a fresh record has there, and stands for no other.)
pub fn area_at<R: Record>(rows: &[R], i: usize) -> u8
    ensures { result ≡ (get_or (R.values rows.now) i (fresh 0)).area }
{
    match rows.get(i) {
        Some(r) => r.area(),
        None => 0,
    }
}

// The record at a place; past the end a fresh one.
pub fn record_at<R: Record>(rows: &[R], i: usize) -> Connection
    ensures { result ≡ get_or (R.values rows.now) i (fresh 0) }
{
    match rows.get(i) {
        Some(r) => r.record(),
        None => connection::fresh(0),
    }
}
