// A table of eight records in any form: a row of them, or their 320 bytes. What a call asks of one, and how one is changed where it is.
#![tactic(auto)]

ghost use Rattle.std.specs.Prelude.{◌≡◌, Bool, true, ◌&&◌, ◌<◌, List, length, get_or, set, ltb, leb, IfSome};
ghost use Rattle.picks.specs.Pick.{pick};
ghost use Rattle.protocol.specs.declared.Connection.{Connection};
ghost use Rattle.protocol.specs.ConnectionTable.{fresh, place_of, sound_table};
ghost use Rattle.row.specs.Row.{place_in, seat_place, put_in};
ghost use Rattle.table.specs.Row.{unused_place, dropped_at};
ghost use Rattle.format.specs.Format.{table_bytes, table_of};
ghost use Rattle.outcomes.specs.Outcomes.{no_table, row_of};
ghost use Rattle.outcomes.proofs.Rows.{row_if, row_is};

use protocol::{Connection, SdoClientInfo};
use records::Record;

// A table of eight records: what it says of them, and how they are changed where they are.
pub trait Table {
    // What each of its records is.
    type Row: Record;

    // The records that it holds.
    ghost rows: { Self → List Connection };

    // The table that is made of records.
    ghost made: { List Connection → Self };

    // The records that a call reads. They are those of no sound table where the table holds none, or where `known` is false, that is where the client is of no kind: such a call is refused as one on a table that is not sound.
    ghost read: { Bool → Self → List Connection };

    // Where they are sound, they are those that the table holds.
    ghost laws: { (known : Bool) (t : Self) → sound_table (read known t) ≡ true → read known t ≡ rows t };

    // Its eight records, each in the form that they have here.
    // (A slice: of an array the proof would have to show that eight of any type fit in memory, and does not close.)
    fn rows(&self) -> &[Self::Row]
        ensures value { Self.Row.Record.values result.now ≡ rows self.now }
        ensures eight { length (rows self.now) ≡ 8 };

    // Whether the records that a call of a known client reads are a sound table's; there are eight of them, sound or not.
    fn is_sound(&self) -> bool
        ensures flag { (known : Bool) → (known && result) ≡ sound_table (read known self.now) }
        ensures eight { (known : Bool) → length (read known self.now) ≡ 8 };

    // Another record at a place; past the end the records stay.
    fn replace(&mut self, i: usize, c: Connection)
        ensures { self.new ≡ made (set (rows self.old) i c) };

    // A record put at a place and those from there up to place n moved up by one; the one at place n is lost. Where there is no such place the records stay.
    // (Two places, since the records between them move.)
    fn insert(&mut self, at: usize, n: usize, c: Connection)
        ensures { self.new ≡ made (pick (leb at n && ltb n 8) (put_in at n c (rows self.old)) (rows self.old)) };

    // The record at a place dropped, its area number behind all others; past the end nothing is dropped.
    fn drop_at(&mut self, i: usize)
        ensures { self.new ≡ made (dropped_at i (rows self.old)) };

    // Here and below what `records` has of its rows: the searches, whose place is one of eight, and what stands at a place.
    // (That it is one of eight is a clause: a type whose invariant is that the number is below 8 would be made a number again by each caller, since what takes a place takes any number.)
    fn place_of(&self, client: SdoClientInfo) -> Option<usize>
        ensures place { place_in result ≡ place_of client (rows self.now) }
        ensures inside { IfSome result (λ i. i < 8) }
    {
        records::place_of(self.rows(), client)
    }

    fn unused_place(&self) -> Option<usize>
        ensures place { place_in result ≡ unused_place (rows self.now) }
        ensures inside { IfSome result (λ i. i < 8) }
    {
        records::unused_place(self.rows())
    }

    fn seat_place(&self, client: SdoClientInfo) -> Option<usize>
        ensures place { place_in result ≡ seat_place client (rows self.now) }
        ensures inside { IfSome result (λ i. i < 8) }
    {
        records::seat_place(self.rows(), client)
    }

    fn record_at(&self, i: usize) -> Connection
        ensures { result ≡ get_or (rows self.now) i (fresh 0) }
    {
        records::record_at(self.rows(), i)
    }

    // (0 past the end is the number that a fresh record has there, and stands for no other.)
    fn area_at(&self, i: usize) -> u8
        ensures { result ≡ (get_or (rows self.now) i (fresh 0)).area }
    {
        records::area_at(self.rows(), i)
    }
}

// A row of records.
impl Table for [Connection; 8] {
    type Row = Connection;

    ghost rows = { λ t. t };

    ghost made = { λ t. t };

    ghost read = { λ known t. pick known t no_table };

    ghost laws = { λ known t. row_if t known };

    fn rows(&self) -> &[Connection] {
        self.as_slice()
    }

    #[tactic(auto, using(outcomes::proofs::Rows::sound_if, outcomes::proofs::Rows::eight_if))]
    fn is_sound(&self) -> bool {
        records::is_sound(self)
    }

    fn replace(&mut self, i: usize, c: Connection) {
        *self = table::replaced(*self, i, c);
    }

    fn insert(&mut self, at: usize, n: usize, c: Connection) {
        *self = row::inserted(*self, at, n, c);
    }

    fn drop_at(&mut self, i: usize) {
        *self = table::dropped_at(*self, i);
    }
}

// The records' bytes.
impl Table for [u8; 320] {
    type Row = [u8; 40];

    ghost rows = { table_of };

    ghost made = { table_bytes };

    ghost read = { row_of };

    ghost laws = { row_is };

    #[tactic(auto, unfolding(format::specs::Format::table_of))]
    fn rows(&self) -> &[[u8; 40]] {
        record::rows(self)
    }

    #[tactic(auto, using(outcomes::proofs::Rows::sound_row, outcomes::proofs::Rows::eight_row))]
    fn is_sound(&self) -> bool {
        packed::is_sound(self)
    }

    fn replace(&mut self, i: usize, c: Connection) {
        packing::replace(self, i, c);
    }

    fn insert(&mut self, at: usize, n: usize, c: Connection) {
        packing::insert(self, at, n, c);
    }

    fn drop_at(&mut self, i: usize) {
        packing::drop_at(self, i);
    }
}
