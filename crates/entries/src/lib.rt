// One entry of the dictionary image: its fields, its value, whether it may be read and written, the number of a parameter, and a write. Every function takes every image.
#![tactic(auto)]

ghost use Rattle.std.specs.Prelude.{◌≡◌, ◌+◌, length, Ok};
ghost use Rattle.octets.specs.Octets.{le_bytes, splice};
ghost use Rattle.entries.specs.Reading.{entry_in};
ghost use Rattle.protocol.specs.DictionaryImage.{entry_at, is_variable, is_read_only, value_of, readable, parameter_of, writable, write_image};

use protocol::{AbortCode, Entry, LookupError};

// The entry in these bytes, which has this place; bytes past the end are 0.
pub fn entry_in(place: usize, b: &[u8]) -> Entry
    ensures { result ≡ entry_in place b.now }
{
    Entry {
        place,
        index: octets::number_at(b, 0),
        sub: octets::byte_at(b, 2),
        flags: octets::byte_at(b, 3),
        body: octets::number_at(b, 4),
        capacity: octets::number_at(b, 8),
        length: octets::number_at(b, 10),
    }
}

// The entry at a place of an image.
// (Entry.place is a number of the whole image, where a write finds it again, so the part alone would not do.)
pub fn entry_at(image: &[u8], at: usize) -> Entry
    ensures { result ≡ entry_at image.now at }
{
    entry_in(at, octets::rest(image, at))
}

// Whether an entry's length may be below its capacity.
pub fn is_variable(e: Entry) -> bool
    ensures { result ≡ is_variable e }
{
    e.flags % 2 == 1
}

// Whether an entry refuses writes.
pub fn is_read_only(e: Entry) -> bool
    ensures { result ≡ is_read_only e }
{
    e.flags / 2 % 2 == 1
}

// The value that an entry holds.
// (An image and an entry of it, here and below: a receiver and its argument.)
pub fn value(image: &[u8], e: Entry) -> &[u8]
    ensures { result.now ≡ value_of image.now e }
{
    octets::part(image, e.body as usize, e.length as usize)
}

// What a read of what was found is.
pub fn readable(l: Result<Entry, LookupError>) -> Result<Entry, AbortCode>
    ensures { result ≡ readable l }
{
    Ok(l?)
}

// The number that an entry holds, if it has four bytes and a fixed length, else the default.
#[tactic(auto, unfolding(protocol::specs::DictionaryImage::parameter_of, picks::specs::Pick::pick))]
pub fn number(image: &[u8], e: Entry, default: u32) -> u32
    ensures { result ≡ parameter_of image.now default (Ok e) }
{
    if e.length == 4 && !is_variable(e) {
        octets::number_at(image, e.body as usize)
    } else {
        default
    }
}

// What a write of n bytes to what was found is.
#[tactic(auto, unfolding(protocol::specs::DictionaryImage::writable, picks::specs::Pick::pick))]
pub fn writable(l: Result<Entry, LookupError>, n: usize) -> Result<Entry, AbortCode>
    ensures { result ≡ writable l n }
{
    let e = l?;
    let capacity = usize::from(e.capacity);
    if !is_variable(e) && n < capacity {
        return Err(AbortCode::LengthTooLow);
    }
    if capacity < n {
        return Err(AbortCode::LengthMisfit);
    }
    if is_read_only(e) {
        return Err(AbortCode::ReadOnly);
    }
    Ok(e)
}

// The length of the entry at a place is set.
// (`n` is the number stored, and no count of the image's entries.)
fn set_length(image: &mut [u8], place: usize, n: u16)
    ensures { image.new ≡ splice (place + 10) (le_bytes 2 n) image.old }
{
    if let Some(at) = place.checked_add(10) {
        octets::store(image, at, n);
    }
}

// Writes the bytes and their length; nothing else changes, and what falls outside is dropped.
pub fn write(image: &mut [u8], e: Entry, bytes: &[u8])
    ensures { image.new ≡ write_image image.old e bytes.now }
{
    octets::copy_at(image, e.body as usize, bytes);
    set_length(image, e.place, (bytes.len() % 65536) as u16);
}
