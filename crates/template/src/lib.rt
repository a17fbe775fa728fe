// Words with numbers in them, laid on a page: a template has a mark for each number.
// (Its callers lay words on any page, beside the impls of Display that print the same: they cannot fail, while a Formatter may.)
// (Each has the page and the place as parameters, as its callers have them.)
#![tactic(auto)]

ghost use Rattle.std.specs.Prelude.{◌<◌, ◌≤◌, ◌≡◌, drop};
ghost use Rattle.show.specs.Text.{page_at, laid, digits};
ghost use Rattle.template.specs.Filled.{mark_of, letter_text, taken, filled};

// A mark: a number in decimal or its last six digits, or its last digits in hex.
#[derive(Clone, Copy)]
enum Mark {
    Decimal,
    LastSix,
    Hex2,
    Hex4,
    Hex8,
}

// The last k digits of a number.
#[tactic(auto, unfolding(show::specs::Text::digits), using(show::proofs::Laid::laid_none, show::proofs::Laid::laid_laid, crate::proofs::Filling::digit_below))]
fn put_digits(page: &mut [u8], at: usize, n: u64, base: u64, k: u8) -> usize
    requires base_nonzero { 0 < base }
    requires base_bound { base ≤ 16 }
    ensures { page_at result page.new ≡ laid (page_at at page.old) (digits base k n) }
{
    if k == 0 {
        return at;
    }
    let at = put_digits(page, at, n / base, base, k - 1);
    show::put(page, at, &[show::digit(n % base)])
}

// The mark that a letter of a template is, if it is one.
// (Here a letter becomes a mark.)
#[tactic(auto, unfolding(crate::specs::Filled::mark_of, picks::specs::Pick::pick))]
fn mark_of(letter: u8) -> Option<Mark>
    ensures { result ≡ mark_of letter }
{
    match letter {
        b'#' => Some(Mark::Decimal),
        b'^' => Some(Mark::LastSix),
        b'@' => Some(Mark::Hex2),
        b'&' => Some(Mark::Hex4),
        b'*' => Some(Mark::Hex8),
        _ => None,
    }
}

// What a letter stands for, at a number.
#[tactic(auto, unfolding(crate::specs::Filled::mark_of, crate::specs::Filled::letter_text, picks::specs::Pick::pick))]
fn put_letter(page: &mut [u8], at: usize, letter: u8, n: u64) -> usize
    ensures { page_at result page.new ≡ laid (page_at at page.old) (letter_text letter n) }
{
    match mark_of(letter) {
        Some(Mark::Decimal) => show::put_number(page, at, n),
        Some(Mark::LastSix) => put_digits(page, at, n, 10, 6),
        Some(Mark::Hex2) => put_digits(page, at, n, 16, 2),
        Some(Mark::Hex4) => put_digits(page, at, n, 16, 4),
        Some(Mark::Hex8) => put_digits(page, at, n, 16, 8),
        None => show::put(page, at, &[letter]),
    }
}

// The numbers that a letter leaves: a mark takes the first.
#[tactic(auto, unfolding(crate::specs::Filled::mark_of, crate::specs::Filled::taken, picks::specs::Pick::pick))]
fn left_by(letter: u8, numbers: &[u64]) -> &[u64]
    ensures { result.now ≡ drop (taken letter) numbers.now }
{
    if mark_of(letter).is_some() {
        return numbers.get(1..).unwrap_or(&[]);
    }
    numbers
}

// A template goes to a page, with the numbers at its marks; a mark for which none is left has 0.
#[tactic(auto, using(crate::proofs::Filling::filled_more, crate::proofs::Filling::filled_end))]
pub fn put(page: &mut [u8], at: usize, words: &[u8], numbers: &[u64]) -> usize
    ensures { page_at result page.new ≡ laid (page_at at page.old) (filled words.now numbers.now) }
{
    let mut end = at;
    let mut left = numbers;
    for &letter in words {
        end = put_letter(page, end, letter, left.first().copied().unwrap_or(0));
        left = left_by(letter, left);
    }
    end
}
