// The soundness of a dictionary image, in one pass.
#![tactic(auto)]

ghost use Rattle.std.specs.Prelude.{◌≡◌, ◌+◌, ◌*◌, ◌≤◌, ◌<◌, false, ◌&&◌, ◌||◌, leb, eqb, length};
ghost use Rattle.protocol.specs.DictionaryImage.{entry_at, entries_from, is_variable, key, sound_entry, sound_entries, sound_image};

use protocol::Entry;

// The longest image, and the largest capacity of an entry.
const IMAGE_MAX: usize = 65536;

const CAPACITY_MAX: u16 = 8192;

// Both flags: variable length, and read-only.
const FLAGS_MAX: u8 = 3;

// The entry at a place, all of it within the image.
// (`entries::entry_at` takes any place, and reads 0 behind the image's end; here the twelve bytes are there, and the slice of them says so.)
fn entry_in(image: &[u8], at: usize) -> Entry
    requires { at + 12 ≤ length image.now }
    ensures { result ≡ entry_at image.now at }
{
    let end = at + 12;
    entries::entry_in(at, &image[at..end])
}

// The number that entries are ordered by.
// (No pair: the least key that may follow is one more.)
fn key_of(e: Entry) -> u32
    ensures { result ≡ key e }
{
    u32::from(e.index) * 256 + u32::from(e.sub)
}

// Whether an entry's length is its capacity, or lies below it and may.
fn has_room(e: Entry) -> bool
    ensures { result ≡ (leb e.length e.capacity && (is_variable e || eqb e.length e.capacity)) }
{
    e.length == e.capacity || (e.length < e.capacity && entries::is_variable(e))
}

// Whether an entry is sound, with a key of at least `least` and its body at `start`.
#[tactic(auto, unfolding(protocol::specs::Constants::CAPACITY_MAX))]
fn is_sound(e: Entry, least: u32, start: u32) -> bool
    ensures { result ≡ sound_entry least start e }
{
    e.flags <= FLAGS_MAX
        && 1 <= e.capacity
        && e.capacity <= CAPACITY_MAX
        && e.body == start
        && least <= key_of(e)
        && has_room(e)
}

// Whether the first n entries of an image are sound, one behind the other, up to its end.
// (Inlined into a tick, or with the early return in place of `sound`, the loop takes one to three instructions more an entry.)
// (The loop counts, since the number is the entry's place, which `Entry` keeps.)
// (`n` is read of the image once, by the caller, who tests that there is room for so many.)
#[inline(never)]
fn sound_entries(image: &[u8], n: usize) -> bool
    requires { (2 + 12 * n ≤ length image.now) × (length image.now ≤ 65536) }
    ensures { result ≡ sound_entries (length image.now) 0 (2 + 12 * n) (entries_from image.now 2 n) }
{
    let mut sound = true;
    let mut least: u32 = 0;
    let mut start = (2 + 12 * n) as u32;
    for i in 0..n {
        let e = entry_in(image, 2 + 12 * i);
        sound = is_sound(e, least, start);
        if !sound {
            break;
        }
        least = key_of(e) + 1;
        start += u32::from(e.capacity);
    }
    sound & (start as usize == image.len())
}

// Whether an image is sound, in one pass that ends at the first fault.
#[tactic(auto, unfolding(protocol::specs::DictionaryImage::sound_image, protocol::specs::DictionaryImage::entries, protocol::specs::Constants::IMAGE_MAX))]
pub fn sound_image(image: &[u8]) -> bool
    ensures { result ≡ sound_image image.now }
{
    let size = image.len();
    if size < 2 || IMAGE_MAX < size {
        return false;
    }
    let n = octets::number_at::<u16, _>(image, 0) as usize;
    2 + 12 * n <= size && sound_entries(image, n)
}
