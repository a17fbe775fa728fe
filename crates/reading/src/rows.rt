// The readings of the clients that read at one time, in a row of eight: no more can have a connection.
ghost use Rattle.std.specs.Prelude.{◌≡◌, position};
ghost use Rattle.reading.specs.Rows.{is_own, is_free, place_for, reading_at, with_reading, no_readings};

use crate::Reading;
use protocol::SdoClientInfo;

// Whether a reading runs for a client.
fn is_own(r: Reading, client: SdoClientInfo) -> bool
    ensures { result ≡ is_own client r }
{
    r.running && r.client == client
}

// The place of a client's running reading.
// (Here and below one call of the library: a function for rows of any type would take the test as a closure, which is what position does.)
pub fn own_place(rows: [Reading; 8], client: SdoClientInfo) -> Option<usize>
    ensures { result ≡ position (is_own client) rows }
{
    rows.iter().position(|r| is_own(*r, client))
}

// The first place at which no reading runs.
fn free_place(rows: [Reading; 8]) -> Option<usize>
    ensures { result ≡ position is_free rows }
{
    rows.iter().position(|r| !r.running)
}

// The place for a client's reading: its own, or a free one, also for a number that is no place of the row.
// (A row and a place in it, here and below: a receiver and its argument.)
#[tactic(auto, unfolding(picks::specs::Pick::pick))]
pub fn place_for(rows: [Reading; 8], own: Option<usize>) -> Option<usize>
    ensures { result ≡ place_for rows own }
{
    own.filter(|i| *i < 8).or_else(|| free_place(rows))
}

// The reading at a place: without one, that of nobody.
// (One chain of the library's calls: a function for rows of any type would have the same, and the other element as a parameter.)
pub fn reading_at(rows: [Reading; 8], place: Option<usize>) -> Reading
    ensures { result ≡ reading_at rows place }
{
    place
        .and_then(|i| rows.get(i).copied())
        .unwrap_or(crate::no_reading())
}

// The row with another reading at a place; without one it stays.
pub fn with_reading(mut rows: [Reading; 8], place: Option<usize>, r: Reading) -> [Reading; 8]
    ensures { result ≡ with_reading rows place r }
{
    if let Some(i) = place {
        octets::store_at(&mut rows, i, r);
    }
    rows
}

// A row in which no reading runs.
pub fn none() -> [Reading; 8]
    ensures { result ≡ no_readings }
{
    [crate::no_reading(); 8]
}
