// The card's rows. A text of bytes is as on the card, with a blank before each byte. Rows stand in lines, their fields parted by bars.
use crate::print_laid;
use std::io;

// How wide a row is before what came.
const WIDTH: usize = 52;

// The card as it is played: the handle that prints it, how many rows were played, and how many of them differ from the card.
#[derive(Drop)]
pub struct Card<'a, P> {
    pub rt: &'a P,
    rows: u64,
    differ: u64,
}

// A row: what it is, the bytes that are given, and those that should come.
#[derive(Clone, Copy)]
pub struct Row<'a> {
    pub what: &'a str,
    pub given: &'a str,
    pub expected: &'a str,
}

// Puts the bytes of a text at the start of a buffer, as far as it goes, and answers them.
// (A text may have any number of bytes, so no array's type can say how many, and a Vec needs a heap, which the project does without: each caller lends a buffer that has room for its longest text.)
pub fn read<'a>(text: &str, buffer: &'a mut [u8]) -> &'a [u8] {
    for (byte, digits) in buffer.iter_mut().zip(text.split_whitespace()) {
        *byte = u8::from_str_radix(digits, 16).unwrap_or(0);
    }
    octets::part(buffer, 0, text.split_whitespace().count())
}

// The first N bytes of a text; a byte that is not there is 0.
pub fn bytes<const N: usize>(text: &str) -> [u8; N] {
    let mut bytes = [0; N];
    read(text, &mut bytes);
    bytes
}

impl<'a, P: Print> Card<'a, P> {
    // A card of which no row is played yet.
    pub fn new(rt: &'a P) -> Card<'a, P> {
        Card {
            rt,
            rows: 0,
            differ: 0,
        }
    }

    // Counts a row and begins its line.
    pub fn verdict(&mut self, same: bool) -> io::Result<()> {
        self.rows = self.rows.wrapping_add(1);
        if same {
            return print!(self.rt; "ok      ");
        }
        self.differ = self.differ.wrapping_add(1);
        print!(self.rt; "DIFFERS ")
    }

    // A row of one line: what is given, in two parts, what came and, where that differs, what the card has.
    // (A row is counted as it is printed, which no Display can do.)
    pub fn say(&mut self, row: Row, came: &[u8]) -> io::Result<()> {
        let Row {
            what,
            given,
            expected,
        } = row;
        let mut buffer = [0; 32];
        let same = came == read(expected, &mut buffer);
        self.verdict(same)?;
        let width = WIDTH.saturating_sub(what.len()).saturating_sub(given.len());
        // (What is printed at once is one write, here and for a call: on a line that is full, what stands before it has gone out whole.)
        print!(self.rt; "{what}")?;
        print!(self.rt; "{given}")?;
        print!(self.rt; "{:width$}", "")?;
        print_laid(self.rt, |page| show::put_bytes(page, 0, came))?;
        if !same {
            print!(self.rt; "  expected")?;
            print!(self.rt; "{expected}")?;
        }
        println!(self.rt; "")
    }

    // The line that ends the card: the counts.
    pub fn close(&self) -> io::Result<()> {
        println!(self.rt; "{} rows, {} differ", self.rows, self.differ)
    }
}
