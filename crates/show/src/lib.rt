// Bytes in hex for those who read them, texts laid on a lent page, and the parts of a text.
#![tactic(auto)]

ghost use Rattle.std.specs.Prelude.{◌≡◌, ◌≤◌, length, eqb, Some};
ghost use Rattle.picks.specs.Pick.{first};
ghost use Rattle.show.specs.Text.{bytes_text, start_text, until_mark, behind_mark, line_of};

mod page;

pub use page::{digit, put, put_bytes, put_hex, put_line, put_number, put_start};
use std::fmt;

// Bytes in hex, with a blank before each.
#[derive(Clone, Copy)]
pub struct Bytes<'a>(pub &'a [u8]);

impl fmt::Display for Bytes<'_> {
    ghost output = { λ x. Some (bytes_text x.0.now) };

    fn fmt<W: fmt::Write>(&self, f: &mut fmt::Formatter<W>) -> fmt::Result {
        for &byte in self.0 {
            write!(f, " {byte:02X}")?;
        }
        Ok(())
    }
}

// The first bytes, and how many follow.
// (All the bytes stay beside how many of them are shown, since how many more there are is printed.)
#[derive(Clone, Copy)]
pub struct Start<'a> {
    pub bytes: &'a [u8],
    pub shown: usize,
}

impl fmt::Display for Start<'_> {
    ghost output = { λ x. Some (start_text x.bytes.now x.shown) };

    #[tactic(auto, unfolding(crate::specs::Text::start_text, crate::specs::Text::more_text, crate::specs::Text::letters, picks::specs::Pick::pick), using(crate::proofs::Numbers::decimal_same))]
    fn fmt<W: fmt::Write>(&self, f: &mut fmt::Formatter<W>) -> fmt::Result {
        let length = self.bytes.len();
        if self.shown < length {
            let shown = Bytes(&self.bytes[..self.shown]);
            return write!(f, "{shown} and {} more", length - self.shown);
        }
        write!(f, "{}", Bytes(self.bytes))
    }
}

// Where a mark first stands in a text: its length where it does not.
// (Both callers ask for the length there: all of the text stands before, and nothing behind. Text and mark: a receiver and its argument.)
fn find(text: &[u8], mark: u8) -> usize
    ensures value { result ≡ first (λ x. eqb x mark) text.now }
    ensures upper_bound { result ≤ length text.now }
{
    text.iter().position(|x| *x == mark).unwrap_or(text.len())
}

// What stands before the first such mark.
#[tactic(auto, unfolding(crate::specs::Text::until_mark))]
pub fn before(text: &[u8], mark: u8) -> &[u8]
    ensures { result.now ≡ until_mark mark text.now }
{
    &text[..find(text, mark)]
}

// What stands behind the first such mark.
#[tactic(auto, unfolding(crate::specs::Text::behind_mark))]
pub fn behind(text: &[u8], mark: u8) -> &[u8]
    ensures { result.now ≡ behind_mark mark text.now }
{
    octets::rest(text, find(text, mark) + 1)
}

// The line of a text with this number, from 0; one that the text does not have is empty.
pub fn line(text: &[u8], n: u8) -> &[u8]
    ensures { result.now ≡ line_of n text.now }
{
    text.split(|b| *b == b'\n')
        .nth(usize::from(n))
        .unwrap_or(&[])
}
