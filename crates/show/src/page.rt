// Texts, numbers and bytes laid on a lent page, whatever it holds. A page has a place, where the next text goes; what does not fit is dropped.
// (The texts stand here beside the impls that print them: these answer on every page and cannot fail, while a Formatter may.)
// (Each has the page and the place as parameters: a struct of both would be made anew and taken apart in every public function, which takes them so.)
ghost use Rattle.std.specs.Prelude.{◌≡◌, ◌%◌};
ghost use Rattle.show.specs.Text.{page_at, laid, digit_of, hex_text, decimal_text, bytes_text, start_text, line_of};

use itoa::Buffer;

// A text goes to a page from a place on, as far as the page goes; answers the place behind it.
#[tactic(auto, unfolding(crate::specs::Text::laid), using(crate::proofs::Laid::page_path))]
pub fn put(page: &mut [u8], at: usize, text: &[u8]) -> usize
    ensures { page_at result page.new ≡ laid (page_at at page.old) text.now }
{
    let n = text.len().min(page.len().saturating_sub(at));
    octets::copy_at(page, at, text);
    at + n
}

// The last digit of a number in hex, 0 to 9 and then A to F.
#[tactic(auto, unfolding(picks::specs::Pick::pick))]
pub fn digit(n: u64) -> u8
    ensures { result ≡ digit_of (n % 16) }
{
    let d = (n % 16) as u8;
    if d < 10 { b'0' + d } else { b'A' - 10 + d }
}

// The lowest byte of a number, in hex.
#[tactic(auto, unfolding(crate::specs::Text::digits))]
pub fn put_hex(page: &mut [u8], at: usize, n: u64) -> usize
    ensures { page_at result page.new ≡ laid (page_at at page.old) (hex_text n) }
{
    put(page, at, &[digit(n / 16), digit(n)])
}

// A number in decimal.
// (The second law is of a body that lays a part, as that of the edit last_digit_of_number: with it that is refused for what it lays.)
#[tactic(auto, using(crate::proofs::Numbers::decimal_same, crate::proofs::Numbers::part_whole))]
pub fn put_number(page: &mut [u8], at: usize, n: u64) -> usize
    ensures { page_at result page.new ≡ laid (page_at at page.old) (decimal_text n) }
{
    put(page, at, Buffer::new().format(n).as_bytes())
}

// Bytes in hex, with a blank before each.
#[tactic(auto, unfolding(crate::specs::Text::bytes_text), using(crate::proofs::Laid::laid_none, crate::proofs::Laid::laid_laid, crate::proofs::Texts::bytes_more))]
pub fn put_bytes(page: &mut [u8], at: usize, bytes: &[u8]) -> usize
    ensures { page_at result page.new ≡ laid (page_at at page.old) (bytes_text bytes.now) }
{
    let mut end = at;
    for &byte in bytes {
        end = put(page, end, b" ");
        end = put_hex(page, end, u64::from(byte));
    }
    end
}

// The first bytes, and how many follow.
#[tactic(auto, unfolding(crate::specs::Text::start_text, crate::specs::Text::more_text, crate::specs::Text::letters, picks::specs::Pick::pick), using(crate::proofs::Laid::laid_laid))]
pub fn put_start(page: &mut [u8], at: usize, bytes: &[u8], shown: usize) -> usize
    ensures { page_at result page.new ≡ laid (page_at at page.old) (start_text bytes.now shown) }
{
    let length = bytes.len();
    if length <= shown {
        return put_bytes(page, at, bytes);
    }
    let at = put_bytes(page, at, &bytes[..shown]);
    let at = put(page, at, b" and ");
    let at = put_number(page, at, (length - shown) as u64);
    put(page, at, b" more")
}

// The line of a table with this number.
pub fn put_line(page: &mut [u8], at: usize, table: &[u8], n: u8) -> usize
    ensures { page_at result page.new ≡ laid (page_at at page.old) (line_of n table.now) }
{
    put(page, at, crate::line(table, n))
}
