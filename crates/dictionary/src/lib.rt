// The dictionary image: the look-up of an object, and the two parameters. Every function takes every image.
#![tactic(auto)]

ghost use Rattle.std.specs.Prelude.{◌≡◌, ℕ, ◌+◌, ◌*◌, ◌≤◌, ◌<◌, min, Bool, false, ◌&&◌, length, Err};
ghost use Rattle.std.specs.List.{position_or_len};
ghost use Rattle.dictionary.specs.Skipping.{is_near, is_near_four, lookup_from};
ghost use Rattle.protocol.specs.DictionaryImage.{entry_at, entry_count, lookup, parameter_of, timeout_of, retries_of};

use protocol::{Entry, LookupError};

// The objects of the two parameters, and what holds where they are missing.
const TIMEOUT_INDEX: u16 = 0x1300;

const RETRIES_INDEX: u16 = 0x1302;

const DEFAULT_TIMEOUT: u32 = 15000;

const DEFAULT_RETRIES: u32 = 2;

// Indices that one byte tells from others, with the two parameters' among them.
const NEAR_LOW: u16 = 0x1300;

const NEAR_HIGH: u16 = 0x13FF;

// The two parameters of a transfer.
#[derive(Clone, Copy)]
pub struct Parameters {
    pub timeout: u32, // in milliseconds
    pub retries: u32, // how often a segment is sent again
}

// Whether the index in an entry's bytes is one of a range.
// (The range's two bounds go as two: a struct of them would be made for each look-up, and each clause would name its fields.)
#[tactic(auto, unfolding(octets::specs::Octets::le))]
fn is_near(entry: &[u8; 12], low: u16, high: u16) -> bool
    ensures { result ≡ is_near low high entry.now }
{
    let index = u16::from_le_bytes([entry[0], entry[1]]);
    low <= index && index <= high
}

// Whether the index of one of four entries is one of a range.
fn is_near_four(four: &[u8; 48], low: u16, high: u16) -> bool
    ensures { result ≡ is_near_four low high four.now }
{
    let (entries, _) = four.as_chunks::<12>();
    entries.iter().any(|entry| is_near(entry, low, high))
}

// What a look-up compares of an entry.
#[derive(Clone, Copy)]
struct Key {
    index: u16,
    sub: u8,
}

// The index and the sub-index of the entry at a place, without the rest of it.
// (An object may have 254 sub-indices: with a whole entry made of each that is passed, a request takes twice as long.)
#[tactic(auto, unfolding(protocol::specs::DictionaryImage::entry_at))]
fn key_at(image: &[u8], at: usize) -> Key
    requires { at ≤ 786422 }
    ensures index { result.index ≡ (entry_at image.now at).index }
    ensures sub { result.sub ≡ (entry_at image.now at).sub }
{
    Key {
        index: octets::number_at(image, at),
        sub: octets::byte_at(image, at + 2),
    }
}

// How many fours of entries come before the first with an index of a range.
fn count_far(fours: &[[u8; 48]], low: u16, high: u16) -> usize
    ensures first { result ≡ position_or_len (is_near_four low high) fours.now }
    ensures within { result ≤ length fours.now }
{
    let first = fours.iter().position(|four| is_near_four(four, low, high));
    first.unwrap_or(fours.len())
}

// The entries of an image, as many as it says; those behind its end are of zeros.
// (The number is the image's own word, and may be more than it holds: places behind its end count, so neither a slice nor an iterator has them.)
#[derive(Clone, Copy)]
struct Entries<'a> {
    image: &'a [u8],
    n: u16,
}

impl<'a> Entries<'a> {
    fn of(image: &'a [u8]) -> Entries<'a>
        ensures image { result.image.now ≡ image.now }
        ensures count { result.n ≡ entry_count image.now }
    {
        Entries {
            image,
            n: octets::number_at(image, 0),
        }
    }

    // Entries from a position on without an index of a range are skipped, four at a time, but never the last.
    fn skip(self, from: usize, low: u16, high: u16) -> usize
        requires { from ≤ 65535 }
        ensures { (from ≤ result) × (from < self.entry.n → result < self.entry.n) × ((index sub : ℕ) (seen : Bool) → low ≤ index → index ≤ high → lookup_from self.entry.image.now self.entry.n from index sub seen ≡ lookup_from self.entry.image.now self.entry.n result index sub seen) }
    {
        let (fours, _) = octets::rest(self.image, 2 + 12 * from).as_chunks::<48>();
        let left = (self.n as usize).saturating_sub(from + 1);
        let most = fours.len().min(left / 4);
        from + 4 * count_far(&fours[..most], low, high)
    }

    // What the entries from a position on say of an index and sub-index. Behind the end all entries are alike, so that one is enough.
    // (Behind an entry of the index that is asked another may stand, so that nothing is skipped there.)
    fn lookup_from(self, from: usize, index: u16, sub: u8) -> Result<Entry, LookupError>
        ensures { result ≡ lookup_from self.entry.image.now self.entry.n from index sub false }
    {
        let Entries { image, n } = self;
        let mut missing = LookupError::NoObject;
        let mut i = from;
        // No `for`: a turn ends with a skip of any length.
        while i < n as usize {
            let at = 2 + 12 * i;
            let e = key_at(image, at);
            let here = e.index == index;
            if here {
                if e.sub == sub {
                    return Ok(entries::entry_at(image, at));
                }
                missing = LookupError::NoSubIndex;
            }
            if image.len() <= at {
                return Err(missing);
            }
            i += 1;
            if !here {
                i = self.skip(i, index, index);
            }
        }
        Err(missing)
    }

    // The number at sub-index 0 of an object, which is looked up from a position on, or the default.
    #[tactic(auto, unfolding(protocol::specs::DictionaryImage::parameter_of))]
    fn parameter(self, from: usize, index: u16, default: u32) -> u32
        ensures { result ≡ parameter_of self.entry.image.now default (lookup_from self.entry.image.now self.entry.n from index 0 false) }
    {
        match self.lookup_from(from, index, 0) {
            Ok(e) => entries::number(self.image, e, default),
            Err(_) => default,
        }
    }
}

// The entry of an index and sub-index, or which of the two is missing.
#[tactic(auto, using(crate::proofs::Skipping::lookup_whole))]
pub fn lookup(image: &[u8], index: u16, sub: u8) -> Result<Entry, LookupError>
    ensures { result ≡ lookup image.now index sub }
{
    Entries::of(image).lookup_from(0, index, sub)
}

// The two parameters in one pass: both are looked up from the first entries on whose index is near theirs.
#[tactic(auto, unfolding(protocol::specs::DictionaryImage::timeout_of, protocol::specs::Constants::TIMEOUT_INDEX, protocol::specs::Constants::DEFAULT_TIMEOUT, protocol::specs::DictionaryImage::retries_of, protocol::specs::Constants::RETRIES_INDEX, protocol::specs::Constants::DEFAULT_RETRIES), using(crate::proofs::Skipping::lookup_whole))]
pub fn parameters_in(image: &[u8]) -> Parameters
    ensures timeout { result.timeout ≡ timeout_of image.now }
    ensures retries { result.retries ≡ retries_of image.now }
{
    let listed = Entries::of(image);
    let i = listed.skip(0, NEAR_LOW, NEAR_HIGH);
    Parameters {
        timeout: listed.parameter(i, TIMEOUT_INDEX, DEFAULT_TIMEOUT),
        retries: listed.parameter(i, RETRIES_INDEX, DEFAULT_RETRIES),
    }
}

// The timeout of a transfer in milliseconds.
#[tactic(auto, unfolding(protocol::specs::DictionaryImage::timeout_of, protocol::specs::Constants::TIMEOUT_INDEX, protocol::specs::Constants::DEFAULT_TIMEOUT), using(crate::proofs::Skipping::lookup_whole))]
pub fn timeout(image: &[u8]) -> u32
    ensures { result ≡ timeout_of image.now }
{
    Entries::of(image).parameter(0, TIMEOUT_INDEX, DEFAULT_TIMEOUT)
}
