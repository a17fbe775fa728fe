// A table's 320 bytes changed where they are, by whole records: what nobody looks at becomes 0.
#![tactic(auto)]

ghost use Rattle.std.specs.Prelude.{◌≡◌, true, ◌&&◌, take, drop, set, ltb, leb};
ghost use Rattle.picks.specs.Pick.{pick};
ghost use Rattle.octets.specs.Octets.{splice};
ghost use Rattle.row.specs.Row.{put_in};
ghost use Rattle.table.specs.Row.{dropped_at};
ghost use Rattle.format.specs.Format.{table_bytes, table_of};
ghost use Rattle.packing.specs.Plain.{SameClient, NoTransfer, SameTransfer, SameState, SameRecord};

use protocol::Connection;

// Whether the client of a record has nothing but 0 where nobody looks.
// (Kind and state are compared with their numbers, here and below: any byte may stand there, and what is asked is whether it is one that is written.)
fn plain_client(r: &[u8; 40]) -> bool
    ensures { result ≡ true → SameClient r.now }
{
    r[1] == 0 || (r[1] == 1 && r[8] == 0)
}

// Whether the bytes behind the state are 0.
fn no_transfer(r: &[u8; 40]) -> bool
    ensures { result ≡ true → NoTransfer r.now }
{
    let first = octets::number_at::<u64, _>(r, 13) == 0;
    let second = octets::number_at::<u64, _>(r, 21) == 0;
    first
        & second
        & (octets::number_at::<u64, _>(r, 29) == 0)
        & (octets::number_at::<u64, _>(r, 32) == 0)
}

// Whether a transfer's flags are 0 or 1, its deadline 0 where it has none, and the last byte 0.
fn plain_transfer(r: &[u8; 40]) -> bool
    ensures { result ≡ true → SameTransfer r.now }
{
    let ends = (r[39] == 0) & (r[38] <= 1);
    ends && (r[25] == 1 || (r[25] == 0 && octets::number_at::<u64, _>(r, 26) == 0))
}

// Whether the bytes from the state on are those written of it.
fn plain_state(r: &[u8; 40]) -> bool
    ensures { result ≡ true → SameState r.now }
{
    if r[12] < 3 {
        no_transfer(r)
    } else {
        r[12] < 5 && plain_transfer(r)
    }
}

// Whether the bytes of a record are those written of it.
fn plain_record(r: &[u8; 40]) -> bool
    ensures { result ≡ true → SameRecord r.now }
{
    let head = (r[0] <= 1) & plain_client(r);
    head && plain_state(r)
}

// Whether the bytes are those written of the eight records that they say; a doubt is a no.
fn is_plain(t: &[u8; 320]) -> bool
    ensures { result ≡ true → table_bytes (table_of t.now) ≡ t.now }
{
    record::rows(t).iter().all(|r| plain_record(r))
}

// The bytes are those of the records that they say. (By `*t = table_bytes(..)` every call fills 320 bytes with 0 first, which takes 40 instructions.)
#[tactic(auto, unfolding(picks::specs::Pick::pick))]
pub fn tidy(t: &mut [u8; 320])
    ensures { t.new ≡ table_bytes (table_of t.old) }
{
    if !is_plain(t) {
        let row = record::table_of(t);
        record::put_table(t, row);
    }
}

// Another record at a place; past the end the records stay.
// (Here and below the bytes and the record are a receiver and its argument.)
pub fn replace(t: &mut [u8; 320], i: usize, c: Connection)
    ensures { t.new ≡ table_bytes (set (table_of t.old) i c) }
{
    tidy(t);
    record::store_record(t, i, c);
}

// So many bytes of a table go from one place to another, as they were before. (`copy_within` asks that both parts lie inside, and moves one byte at a time.)
fn shift(t: &mut [u8; 320], from: usize, len: usize, to: usize)
    ensures { t.new ≡ splice to (take len (drop from t.old)) t.old }
{
    let old = *t;
    octets::copy_at(t, to, octets::part(&old, from, len));
}

// A record put at a place and those from there up to place n moved up by one; the one at place n is lost. Where there is no such place the records stay.
// (Two places of records and no part of the bytes: those between them move, and any number may come.)
pub fn insert(t: &mut [u8; 320], at: usize, n: usize, c: Connection)
    ensures { t.new ≡ table_bytes (pick (leb at n && ltb n 8) (put_in at n c (table_of t.old)) (table_of t.old)) }
{
    tidy(t);
    if (at <= n) & (n < 8) {
        shift(t, 40 * at, 40 * n - 40 * at, 40 * at + 40);
        record::store_record(t, at, c);
    }
}

// The record at a place dropped, its area number behind all others; past the end nothing is dropped.
// (A test that the place is one of the table's, before a byte of the record there is read.)
pub fn drop_at(t: &mut [u8; 320], i: usize)
    ensures { t.new ≡ table_bytes (dropped_at i (table_of t.old)) }
{
    if 8 <= i {
        tidy(t);
        return;
    }
    let area = t[40 * i + 9];
    tidy(t);
    shift(t, 40 * i + 40, 280 - 40 * i, 40 * i);
    record::store_record(t, 7, connection::fresh(area));
}
