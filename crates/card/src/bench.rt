// Calls of the server, each printed with what was given, what came out and what it left. A call is right when the whole answer buffer, the answer's length, the refusal, the records in use and the image are as they should be.
use crate::rows::Card;
use crate::{print_laid, rows};
use protocol::{Called, Connection, Refusal, SdoClientInfo, SdoServerState};
use std::{fmt, io};

// What every byte of the answer buffer is before a call.
const FILL: u8 = 0xA5;

// What a call leaves: no record in use, one in a state, or more than one.
#[derive(Clone, Copy, PartialEq, Eq)]
pub enum Left {
    Dropped,
    Opening,
    Established,
    Upload,
    Download,
    Closed,
    More,
}

impl fmt::Display for Left {
    fn fmt<W: fmt::Write>(&self, f: &mut fmt::Formatter<W>) -> fmt::Result {
        f.write_str(match self {
            Left::Dropped => "no record in use",
            Left::Opening => "Opening",
            Left::Established => "Established",
            Left::Upload => "upload",
            Left::Download => "download",
            Left::Closed => "Closed",
            Left::More => "more than one record in use",
        })
    }
}

// (Two of the states have a transfer, which is dropped here, so each variant is said.)
impl From<SdoServerState> for Left {
    fn from(state: SdoServerState) -> Self {
        match state {
            SdoServerState::Closed => Left::Closed,
            SdoServerState::Opening => Left::Opening,
            SdoServerState::Established => Left::Established,
            SdoServerState::SegmentedUpload(_) => Left::Upload,
            SdoServerState::SegmentedDownload(_) => Left::Download,
        }
    }
}

// What a call leaves, by its word.
// (The card's lines have three such words, and the third, dropped, is read as any other would be.)
impl From<&str> for Left {
    fn from(word: &str) -> Self {
        match word {
            "Opening" => Left::Opening,
            "upload" => Left::Upload,
            _ => Left::Dropped,
        }
    }
}

// An answer that should come: the text of the bytes that begin it, and the part of the object behind them.
#[derive(Clone, Copy)]
pub struct Reply<'a> {
    pub head: &'a str,
    pub part: &'a [u8],
}

impl fmt::Display for Reply<'_> {
    fn fmt<W: fmt::Write>(&self, f: &mut fmt::Formatter<W>) -> fmt::Result {
        f.write_str(self.head)?;
        if !self.part.is_empty() {
            write!(f, " and {} bytes of the object", self.part.len())?;
        }
        Ok(())
    }
}

// What should come of a call: an answer, nothing or a refusal, and what the call leaves.
#[derive(Clone, Copy)]
pub struct Due<'a> {
    pub outcome: Result<Option<Reply<'a>>, Refusal>,
    pub left: Left,
}

impl<'a> Due<'a> {
    // An answer is due.
    pub fn answer(head: &'a str, part: &'a [u8], left: Left) -> Due<'a> {
        Due {
            outcome: Ok(Some(Reply { head, part })),
            left,
        }
    }
}

impl fmt::Display for Due<'_> {
    fn fmt<W: fmt::Write>(&self, f: &mut fmt::Formatter<W>) -> fmt::Result {
        f.write_str("due   ")?;
        match self.outcome {
            Ok(Some(reply)) => write!(f, "{reply}")?,
            Ok(None) => {}
            Err(refusal) => write!(f, " refused with {}", u8::from(refusal))?,
        }
        write!(f, "; {}", self.left)
    }
}

// What came of a call: the answer buffer, the length of the answer, nothing or a refusal, and what the call leaves.
// (The whole buffer is compared, so that it stays beside the answer's length.)
#[derive(Clone, Copy)]
struct Came<'a> {
    answer: &'a [u8],
    outcome: Result<Option<usize>, Refusal>,
    left: Left,
}

// A call: what is printed of it, the request's bytes, and what is due.
#[derive(Clone, Copy)]
pub struct Call<'a> {
    pub what: &'a str,
    pub bytes: &'a [u8],
    pub due: Due<'a>,
}

// A tick at a clock. The card has it of one table: with an upload that is due at 1,000,000.
#[derive(Clone, Copy)]
struct Tick(u64);

impl fmt::Display for Tick {
    fn fmt<W: fmt::Write>(&self, f: &mut fmt::Formatter<W>) -> fmt::Result {
        f.write_str("an upload due at 1000000 without retries\n")?;
        write!(f, "            given  a tick at {}", self.0)
    }
}

// The server between calls: its table and its image, and the image as it should be after each call. The area is lent beside it.
// (In the bench it was zeroed twice, where the value was made and where it went, and took the stack of both.)
#[derive(Clone, Copy)]
pub struct Bench<'a, const N: usize> {
    table: [Connection; 8],
    image: [u8; N],
    object: &'a [u8],
}

// The client of all calls.
fn client() -> SdoClientInfo {
    SdoClientInfo::Asnd {
        node: 1,
        mac: 0x010203040506,
    }
}

// A table with one client, in a state and with these numbers.
pub fn in_state(send: u8, receive: u8, state: SdoServerState) -> [Connection; 8] {
    let mut t = record::empty_table();
    t[0] = Connection {
        used: true,
        client: client(),
        send,
        receive,
        state,
        ..t[0]
    };
    t
}

// What is left in use: used records come first.
fn left_in(t: [Connection; 8]) -> Left {
    if t[1].used {
        return Left::More;
    }
    if t[0].used {
        return Left::from(t[0].state);
    }
    Left::Dropped
}

// Puts the answer that is due at the start of a buffer, and answers what should come: its length, nothing or a refusal.
fn put_due(due: Due, wanted: &mut [u8]) -> Result<Option<usize>, Refusal> {
    let Some(reply) = due.outcome? else {
        return Ok(None);
    };
    let n = rows::read(reply.head, wanted).len();
    octets::copy_at(wanted, n, reply.part);
    Ok(Some(n.wrapping_add(reply.part.len())))
}

// Whether what came, and the image, are as they should be.
fn is_right(came: Came, due: Due, image: &[u8], object: &[u8]) -> bool {
    let mut wanted = [FILL; 1468];
    let outcome = put_due(due, &mut wanted);
    came.answer == wanted.as_slice()
        && came.outcome == outcome
        && came.left == due.left
        && image == object
}

// The part of an object that a text names, by a place and a length of two bytes each.
fn part_of<'a>(object: &'a [u8], text: &str) -> &'a [u8] {
    let part: [u8; 4] = rows::bytes(text);
    let from: u16 = octets::number_at(&part, 0);
    let size: u16 = octets::number_at(&part, 2);
    octets::part(object, usize::from(from), usize::from(size))
}

impl<P: Print> Card<'_, P> {
    // What is given with a call.
    fn say_given(&self, call: Call) -> io::Result<()> {
        print!(self.rt; "{}", call.what)?;
        print!(self.rt; "\n            given ")?;
        print_laid(self.rt, |page| show::put_start(page, 0, call.bytes, 24))?;
        println!(self.rt; "")
    }

    // What came of a call.
    fn say_came(&self, came: Came) -> io::Result<()> {
        print!(self.rt; "            came  ")?;
        match came.outcome {
            Ok(Some(length)) => {
                let bytes = octets::part(came.answer, 0, length);
                print_laid(self.rt, |page| show::put_start(page, 0, bytes, 16))?;
            }
            Ok(None) => print!(self.rt; " nothing")?,
            Err(refusal) => print!(self.rt; " refused with {}", u8::from(refusal))?,
        }
        print!(self.rt; "; {}", came.left)?;
        println!(self.rt; "")
    }

    // The end of a call's row: what came and, where that is something else, what was due.
    fn say_outcome(&self, came: Came, due: Due, same: bool) -> io::Result<()> {
        self.say_came(came)?;
        if !same {
            println!(self.rt; "            {due}")?;
        }
        Ok(())
    }
}

impl<'a, const N: usize> Bench<'a, N> {
    // A bench before its first call.
    pub fn new(table: [Connection; 8], image: [u8; N], object: &'a [u8]) -> Bench<'a, N> {
        Bench {
            table,
            image,
            object,
        }
    }

    // A request of the client at clock 0, as bytes.
    pub fn asks(
        &mut self,
        card: &mut Card<'_, impl Print>,
        area: &mut [u8],
        call: Call,
    ) -> io::Result<()> {
        let mut answer = [FILL; 1468];
        let Called { outcome, table } = owned::handle_request(
            self.table,
            area,
            &mut self.image,
            &mut answer,
            client(),
            0,
            call.bytes,
        );
        self.table = table;
        let came = Came {
            answer: &answer,
            outcome: outcome.map(|answered| Some(answered.length)),
            left: left_in(table),
        };
        let same = is_right(came, call.due, &self.image, self.object);
        card.verdict(same)?;
        card.say_given(call)?;
        card.say_outcome(came, call.due, same)
    }

    // A request of a line: what is printed, the request, the bytes that begin its answer, the image's part behind them, and what is left.
    fn step(
        &mut self,
        card: &mut Card<'_, impl Print>,
        area: &mut [u8],
        line: &str,
    ) -> io::Result<()> {
        let (what, rest) = line.split_once('|').unwrap_or((line, ""));
        let (given, rest) = rest.split_once('|').unwrap_or((rest, ""));
        let (head, rest) = rest.split_once('|').unwrap_or((rest, ""));
        let (part, word) = rest.split_once('|').unwrap_or((rest, ""));
        let mut buffer = [0; 32];
        let bytes = rows::read(given, &mut buffer);
        let due = Due::answer(head, part_of(self.object, part), Left::from(word));
        self.asks(card, area, Call { what, bytes, due })
    }

    // Plays the requests of a text, one to a line, on an area that begins with the bytes 1 to 6.
    pub fn script(&mut self, card: &mut Card<'_, impl Print>, text: &str) -> io::Result<()> {
        let mut area = [0; 65536];
        octets::copy_at(&mut area, 0, &[1, 2, 3, 4, 5, 6]);
        for line in text.lines() {
            self.step(card, &mut area, line)?;
        }
        Ok(())
    }

    // A tick at a clock.
    pub fn ticks(
        &mut self,
        card: &mut Card<'_, impl Print>,
        area: &[u8],
        clock: u64,
        due: Due,
    ) -> io::Result<()> {
        let mut answer = [FILL; 1468];
        let Called { outcome, table } = owned::tick(
            self.table,
            area,
            &self.image,
            &mut answer,
            clock,
        );
        self.table = table;
        let came = Came {
            answer: &answer,
            outcome: outcome.map(|said| said.map(|answered| answered.length)),
            left: left_in(table),
        };
        let same = is_right(came, due, &self.image, self.object);
        card.verdict(same)?;
        println!(card.rt; "{}", Tick(clock))?;
        card.say_outcome(came, due, same)
    }
}
