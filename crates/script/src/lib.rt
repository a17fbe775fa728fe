// Scripts of calls, which are also the bench's recordings: oracle/REPLAY.md has the format. What the items lend, and the calls on what is lent.
#![tactic(auto)]

pub mod told;

ghost use Rattle.std.specs.Prelude.{◌≡◌, ◌≤◌, length};
ghost use Rattle.script.specs.Outcomes.{said};
ghost use Rattle.script.specs.Playing.{at_start, did, left, calls, image_lent, image_stored, table_lent, filled, lengths_lent, lent_area, blank, request_on, tick_on, query_on, request_played, play_of};

use items::{Item, UnknownItem};
use protocol::{ANSWER_MIN, Connection, Refusal};
use told::Told;

// The buffers: an image, the answer, and the area as far as it can be lent.
pub const IMAGE: usize = 131072;

pub const ANSWER: usize = 1600;

pub const LENT_AREA: usize = 65600;

// The area's own length.
pub const AREA: usize = protocol::AREA;

// What every byte of the answer buffer is before a call.
pub const FILL: u8 = 0xA5;

// The most records that can be lent, and the length of the server's table.
const LENT_RECORDS: u8 = 9;

const RECORDS: u8 = 8;

// How much of each buffer is lent from here on, how many records, and the table.
// (Lengths of parts of the program's fixed buffers, each of which is borrowed anew by each call.)
#[derive(Clone, Copy)]
pub struct Lent {
    pub answer: usize,
    pub area: usize,
    pub records: u8,
    pub image: usize,
    pub table: [Connection; 8],
}

// What an item is: one that there is not, one that lends something, or a call, with what it says.
#[derive(Clone, Copy)]
pub enum Done {
    Unknown,
    Lends,
    Calls(Told),
}

// What an item is, and what is lent after it.
#[derive(Clone, Copy)]
pub struct Played {
    pub done: Done,
    pub lent: Lent,
}

// Item 6: area byte i becomes (b + 7 i + i / 256) mod 256.
fn fill_area(b: u8, area: &mut [u8])
    requires { 65536 ≤ length area.old }
    ensures { area.new ≡ filled b area.old }
{
    let first = b as usize;
    for (i, byte) in area[..AREA].iter_mut().enumerate() {
        *byte = ((first + 7 * i + i / 256) % 256) as u8;
    }
}

// A call finds the answer buffer filled, and zeros past the area's own length.
#[tactic(auto, unfolding(crate::specs::Playing::blank), using(crate::proofs::Buffers::area_laid))]
fn ready(area: &mut [u8; LENT_AREA], answer: &mut [u8; ANSWER])
    ensures { (area.new ≡ lent_area area.old) × (answer.new ≡ blank) }
{
    *answer = [FILL; ANSWER];
    octets::copy_at(area, AREA, &[0; 64]);
}

// How many records the server's table has.
fn records_of(table: [Connection; 8]) -> u8
    ensures { (result ≡ 8) × (length table ≡ 8) }
{
    RECORDS
}

impl Lent {
    // What is played, with what is lent after it.
    fn played(self, done: Done) -> Played
        ensures { (result.done ≡ done) × (result.lent ≡ self) }
    {
        Played { done, lent: self }
    }

    // A call, with the table that it leaves.
    fn calls(self, told: Told, table: [Connection; 8]) -> Played
        ensures { (did result ≡ calls (said told) self table) × (length table ≡ 8) }
    {
        Lent { table, ..self }.played(Done::Calls(told))
    }

    // Item 4: an image is lent.
    #[tactic(auto, unfolding(crate::specs::Playing::image_lent, crate::specs::Playing::image_stored, picks::specs::Pick::pick))]
    fn lend_image(self, item: &[u8], image: &mut [u8; IMAGE]) -> Played
        ensures { (did result ≡ image_lent item.now self) × (image.new ≡ image_stored item.now image.old) }
    {
        let n: u32 = octets::number_at(item, 1);
        let n = n as usize;
        if IMAGE < n {
            return self.played(Done::Unknown);
        }
        octets::copy_at(image, 0, octets::part(item, 5, n));
        Lent { image: n, ..self }.played(Done::Lends)
    }

    // Item 5: a table is lent.
    #[tactic(auto, unfolding(crate::specs::Playing::table_lent, picks::specs::Pick::pick))]
    fn lend_table(self, item: &[u8]) -> Played
        ensures { did result ≡ table_lent item.now self }
    {
        let s = octets::rest(item, 1);
        if !record::is_table(s) {
            return self.played(Done::Unknown);
        }
        Lent {
            table: record::table_of(s),
            ..self
        }
        .played(Done::Lends)
    }

    // Item 7: how much is lent.
    #[tactic(auto, unfolding(crate::specs::Playing::lengths_lent, picks::specs::Pick::pick))]
    fn lend_lengths(self, item: &[u8]) -> Played
        ensures { did result ≡ lengths_lent item.now self }
    {
        let answer: u32 = octets::number_at(item, 1);
        let area: u32 = octets::number_at(item, 5);
        let (answer, area) = (answer as usize, area as usize);
        let records = octets::byte_at(item, 9);
        let fit = (answer <= ANSWER) & (area <= LENT_AREA) & (records <= LENT_RECORDS);
        if !fit {
            return self.played(Done::Unknown);
        }
        Lent {
            answer,
            area,
            records,
            ..self
        }
        .played(Done::Lends)
    }

    // A request on what is lent of the buffers. A table of another length than the server's is refused here: the server cannot be given one.
    // (Each of the three calls tests the records itself: who lends the buffers to a closure does not know what its call left in them.)
    // (Area, image and answer are the caller's own buffers, which document 01 lends to a call one by one.)
    fn call_request(
        self,
        item: &[u8],
        area: &mut [u8],
        image: &mut [u8],
        answer: &mut [u8],
    ) -> Played
        ensures { left (did result) area.new image.new answer.new ≡ request_on item.now self area.old image.old answer.old }
    {
        let row = self.table;
        if self.records != records_of(row) {
            return self.calls(Told::Request(Err(Refusal::Lent)), row);
        }
        let client = items::client_of(item);
        let clock = items::clock_of(item);
        let request = items::request_of(item);
        let a = self.area.min(area.len());
        let b = self.image.min(image.len());
        let c = self.answer.min(answer.len());
        let done = owned::handle_request(
            row,
            &mut area[..a],
            &mut image[..b],
            &mut answer[..c],
            client,
            clock,
            request,
        );
        self.calls(Told::Request(done.outcome), done.table)
    }

    // A tick on what is lent of the buffers.
    fn call_tick<'a>(
        self,
        item: &[u8],
        area: &'a [u8],
        image: &'a [u8],
        answer: &mut [u8],
    ) -> Played
        ensures { left (did result) area.now image.now answer.new ≡ tick_on item.now self area.now image.now answer.old }
    {
        let row = self.table;
        if self.records != records_of(row) {
            return self.calls(Told::Tick(Err(Refusal::Lent)), row);
        }
        let clock = items::clock_of(item);
        let c = self.answer.min(answer.len());
        let done = owned::tick(
            row,
            octets::part(area, 0, self.area),
            octets::part(image, 0, self.image),
            &mut answer[..c],
            clock,
        );
        self.calls(Told::Tick(done.outcome), done.table)
    }

    // A deadline query on the table that is lent.
    #[tactic(auto, using(crate::proofs::Through::query_other))]
    fn call_query(self) -> Played
        ensures { did result ≡ query_on self }
    {
        let row = self.table;
        if self.records != records_of(row) {
            return self.calls(Told::Query(Err(Refusal::Lent)), row);
        }
        self.calls(Told::Query(owned::next_action_time(row)), row)
    }

    // Item 1: a request. A client of a kind that there is not is unknown.
    // (`is_client` asks of bytes whether a client stands there, and compares no kind.)
    #[tactic(auto, unfolding(crate::specs::Playing::request_played, picks::specs::Pick::pick))]
    fn play_request(
        self,
        item: &[u8],
        area: &mut [u8; LENT_AREA],
        image: &mut [u8; IMAGE],
        answer: &mut [u8; ANSWER],
    ) -> Played
        ensures { left (did result) area.new image.new answer.new ≡ request_played item.now self area.old image.old answer.old }
    {
        if clients::is_client(octets::rest(item, 1)) {
            ready(area, answer);
            return self.call_request(item, area, image, answer);
        }
        self.played(Done::Unknown)
    }

    // Item 2: a tick.
    fn play_tick(
        self,
        item: &[u8],
        area: &mut [u8; LENT_AREA],
        image: &[u8; IMAGE],
        answer: &mut [u8; ANSWER],
    ) -> Played
        ensures { left (did result) area.new image.now answer.new ≡ tick_on item.now self (lent_area area.old) image.now blank }
    {
        ready(area, answer);
        self.call_tick(item, area, image, answer)
    }

    // Item 3: a deadline query.
    fn play_query(self, area: &mut [u8; LENT_AREA], answer: &mut [u8; ANSWER]) -> Played
        ensures { (did result ≡ query_on self) × (area.new ≡ lent_area area.old) × (answer.new ≡ blank) }
    {
        ready(area, answer);
        self.call_query()
    }

    // Plays an item: it lends something, or a call answers into the buffer.
    #[tactic(auto, unfolding(crate::specs::Playing::play_of, items::specs::Items::by_kind, items::specs::Kinds::item_of, picks::specs::Pick::pick))]
    pub fn play(
        self,
        item: &[u8],
        area: &mut [u8; LENT_AREA],
        image: &mut [u8; IMAGE],
        answer: &mut [u8; ANSWER],
    ) -> Played
        ensures { left (did result) area.new image.new answer.new ≡ play_of item.now self area.old image.old answer.old }
    {
        match Item::try_from(octets::byte_at(item, 0)) {
            Ok(Item::Request) => self.play_request(item, area, image, answer),
            Ok(Item::Tick) => self.play_tick(item, area, image, answer),
            Ok(Item::Query) => self.play_query(area, answer),
            Ok(Item::Image) => self.lend_image(item, image),
            Ok(Item::Table) => self.lend_table(item),
            Ok(Item::Area) => {
                fill_area(octets::byte_at(item, 1), area);
                self.played(Done::Lends)
            }
            Ok(Item::Lengths) => self.lend_lengths(item),
            Err(UnknownItem(_)) => self.played(Done::Unknown),
        }
    }
}

// What is lent at the start: the empty table, an area of 0 and an image with no entry.
pub fn begun() -> Lent
    ensures { result ≡ at_start }
{
    Lent {
        answer: ANSWER_MIN,
        area: AREA,
        records: RECORDS,
        image: 2,
        table: record::empty_table(),
    }
}
