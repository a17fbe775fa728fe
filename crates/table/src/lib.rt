// The row of eight connection records, by value (server.rs has a BTreeMap of handlers, by client): who is due, and how a client joins and leaves.
#![tactic(auto)]

ghost use Rattle.std.specs.Prelude.{◌≡◌, true, false, not, ◌&&◌, length, set, ◌<◌, eqb, IfSome};
ghost use Rattle.picks.specs.Pick.{pick, first};
ghost use Rattle.protocol.specs.ConnectionTable.{unused_of, holds, place_of, is_known, join, release, chosen, sound_table};
ghost use Rattle.connection.specs.Among.{is_gone};
ghost use Rattle.row.specs.Row.{place_in};
ghost use Rattle.table.specs.Row.{joined_row, dropped_at, drops_first};

use protocol::{Connection, SdoClientInfo};

// The place of the first record that is due.
pub fn first_due(t: [Connection; 8], clock: u64) -> Option<usize>
    ensures place { place_in result ≡ chosen t clock }
    ensures inside { IfSome result (λ i. i < 8) }
{
    row::due_place(&t, clock)
}

// Whether the row has no record for the client, and none left to give it one.
pub fn is_full(t: [Connection; 8], client: SdoClientInfo) -> bool
    ensures { result ≡ (not (is_known client t) && eqb (length (unused_of t)) 0) }
{
    records::place_of(&t, client).is_none() & records::unused_place(&t).is_none()
}

// The row with the client's record in its place, under the first unused one's number; a full row stays.
fn joined(t: [Connection; 8], client: SdoClientInfo) -> [Connection; 8]
    ensures { result ≡ joined_row client t }
{
    let Some(n) = records::unused_place(&t) else {
        return t;
    };
    let at = records::seat_place(&t, client).unwrap_or(n);
    let c = connection::joining(client, t[n].area);
    row::inserted(t, at, n, c)
}

// The row where the client has a record: its own, or one that it joins with.
pub fn seated(t: [Connection; 8], client: SdoClientInfo) -> [Connection; 8]
    ensures value { result ≡ pick (is_known client t) t (joined_row client t) }
    ensures when_sound { (sound_table t ≡ true → (not (is_known client t) && eqb (length (unused_of t)) 0) ≡ false → result ≡ pick (is_known client t) t (join client t)) }
{
    if records::place_of(&t, client).is_some() {
        return t;
    }
    joined(t, client)
}

// The row with another record at a place; past the end it stays.
pub fn replaced(mut t: [Connection; 8], i: usize, c: Connection) -> [Connection; 8]
    ensures { result ≡ set t i c }
{
    octets::store_at(&mut t, i, c);
    t
}

// The row without the record at a place, whose area number goes to the last unused one.
pub fn dropped_at(mut t: [Connection; 8], i: usize) -> [Connection; 8]
    ensures { result ≡ dropped_at i t }
{
    if let Some(c) = t.get(i) {
        let last = connection::fresh(c.area);
        t[i..].rotate_left(1);
        t[7] = last;
    }
    t
}

// The row without the client's record.
pub fn dropped(t: [Connection; 8], client: SdoClientInfo) -> [Connection; 8]
    ensures value { result ≡ dropped_at (place_of client t) t }
    ensures when_sound { (sound_table t ≡ true → result ≡ release (holds client) t) }
{
    match records::place_of(&t, client) {
        Some(i) => dropped_at(t, i),
        None => t,
    }
}

// The place of the first closed one of the used records.
fn gone_place(t: [Connection; 8]) -> Option<usize>
    ensures place { place_in result ≡ first is_gone t }
    ensures inside { IfSome result (λ i. i < 8) }
{
    t.iter().position(|c| connection::is_gone(*c))
}

// The row without its closed records, whose area numbers go to the last unused ones in client order.
// (The place is found again in each turn, since a drop moves the records behind it. With `t = dropped_at(t, i)` the check does not read the proof.)
pub fn drop_closed(mut t: [Connection; 8]) -> [Connection; 8]
    ensures value { result ≡ drops_first 8 is_gone t }
    ensures when_sound { (sound_table t ≡ true → result ≡ release is_gone t) }
{
    while let Some(i) = gone_place(t) {
        let next = dropped_at(t, i);
        t = next;
    }
    t
}
