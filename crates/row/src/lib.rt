// Rows of connection records: the first due one of any number, and a record put in at a place of eight.
#![tactic(auto)]

ghost use Rattle.std.specs.Prelude.{◌≡◌, ◌&&◌, length, ltb, leb};
ghost use Rattle.picks.specs.Pick.{pick};
ghost use Rattle.protocol.specs.ConnectionTable.{chosen};
ghost use Rattle.row.specs.Row.{due_in, put_in};

use protocol::Connection;

// The place of the first due one of any number of records.
// (One call of the library, as `table::gone_place` and the searches of `reading::rows` are: a function of rows of any type would take the test as a closure, and be `position`.)
pub fn due_place(rows: &[Connection], clock: u64) -> Option<usize>
    ensures { result ≡ due_in (chosen rows.now clock) (length rows.now) }
{
    rows.iter().position(|c| transfers::is_due(*c, clock))
}

// The row with a record put at a place and those from there up to place n moved up by one; the one at place n is lost. Where there is no such place the row stays.
// (A test that the places are inside, and no number for none.)
// (Two places, since the records between them move; `packing::insert` moves bytes, where no row is made of them.)
pub fn inserted(mut t: [Connection; 8], at: usize, n: usize, c: Connection) -> [Connection; 8]
    ensures { result ≡ pick (leb at n && ltb n 8) (put_in at n c t) t }
{
    if (at <= n) & (n < 8) {
        t[at..=n].rotate_right(1);
        t[at] = c;
    }
    t
}
