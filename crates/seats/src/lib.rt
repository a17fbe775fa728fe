// A client's seat in a table of eight records: where its record stands or belongs, the record, and how it is put back after a call.
#![tactic(auto)]

ghost use Rattle.std.specs.Prelude.{◌≡◌};
ghost use Rattle.seats.specs.Seats.{seat_in, back_row, settled_in};

use forms::Table;
use protocol::{Connection, SdoClientInfo};

// Where a client's record stands, or where it belongs if it has none, with the place of the first unused record, whose area number it takes. A place past the end is 8.
// (8 and no Option: what puts in or drops takes any number and leaves the records where there is no such place, so an Option would be matched again for nothing.)
#[derive(Clone, Copy)]
pub enum Place {
    Known(usize),
    Joining { at: usize, free: usize },
}

// A client's place, and the record that stands there or that it joins with.
#[derive(Clone, Copy)]
pub struct Seat {
    pub place: Place,
    pub own: Connection,
}

// The client's seat, told the place of its record and of the first unused one.
pub fn seat_of<T: Table>(
    t: &T,
    client: SdoClientInfo,
    place: Option<usize>,
    free: Option<usize>,
) -> Seat
    ensures { result ≡ seat_in client place free (T.rows t.now) }
{
    match place {
        Some(i) => Seat {
            place: Place::Known(i),
            own: t.record_at(i),
        },
        None => {
            let at = t.seat_place(client).unwrap_or(8);
            let free = free.unwrap_or(8);
            Seat {
                place: Place::Joining { at, free },
                own: connection::joining(client, t.area_at(free)),
            }
        }
    }
}

// The record after a call goes to its seat.
pub fn put_back<T: Table>(t: &mut T, place: Place, next: Connection)
    ensures { t.new ≡ T.made (back_row place next (T.rows t.old)) }
{
    match place {
        Place::Known(i) => t.replace(i, next),
        Place::Joining { at, free } => t.insert(at, free, next),
    }
}

// The same after an answer: a record that is Closed is dropped. One that never stood in the table leaves its area number behind all others.
#[tactic(auto, unfolding(picks::specs::Pick::pick))]
pub fn settle<T: Table>(t: &mut T, place: Place, next: Connection)
    ensures { t.new ≡ T.made (settled_in place next (T.rows t.old)) }
{
    if !connection::is_closed(next.state) {
        return put_back(t, place, next);
    }
    match place {
        Place::Known(i) => t.drop_at(i),
        Place::Joining { at: _, free } => t.drop_at(free),
    }
}
