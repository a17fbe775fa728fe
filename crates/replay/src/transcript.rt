// What a call leaves, as bytes of the transcript: oracle/REPLAY.md has the format.
ghost use Rattle.std.specs.Prelude.{◌+◌, ◌<◌, ◌≤◌, length};

use protocol::Answered;
use script::told::Told;
use script::{ANSWER, Lent, told};

// The prime of Adler-32, and how many bytes are summed up between two remainders.
const PRIME: u64 = 65521;

const BLOCK: usize = 4096;

// The length of the longest entry, with an answer that fills its buffer.
pub const ENTRY: usize = 1940;

// The two sums of Adler-32.
#[derive(Clone, Copy)]
struct Sums {
    bytes: u64,
    sums: u64,
}

// The sums with a block's bytes taken in: so few that no sum overflows.
fn with_block(block: &[u8], before: Sums) -> Sums
    requires few { length block.now ≤ 4096 }
    requires remainders { (before.bytes < 65521) × (before.sums < 65521) }
    ensures { (result.bytes < 65521) × (result.sums < 65521) }
{
    let mut bytes = before.bytes;
    let mut sums = before.sums;
    for byte in block {
        bytes += u64::from(*byte);
        sums += bytes;
    }
    Sums {
        bytes: bytes % PRIME,
        sums: sums % PRIME,
    }
}

// Adler-32 of these bytes.
fn adler(s: &[u8]) -> u32 {
    let mut sums = Sums { bytes: 1, sums: 0 };
    for block in s.chunks(BLOCK) {
        sums = with_block(block, sums);
    }
    (sums.sums * 65536 + sums.bytes) as u32
}

// Bytes go to the buffer from a place on, as far as it goes; answers the place behind them.
// (A lent buffer and a place in it, since a writer may fail and `put_entry` may not. `show::put` tells all that is laid, as an equation of pages; only how far the bytes go is asked here.)
fn put(out: &mut [u8], at: usize, bytes: &[u8]) -> usize
    ensures { result ≤ at + length bytes.now }
{
    show::put(out, at, bytes)
}

// An answer's client, its length and its bytes, from a place on.
// (A lent buffer and a place in it, since a writer may fail and `put_entry` may not.)
fn put_answer(out: &mut [u8], at: usize, answered: Answered, answer: &[u8; ANSWER]) -> usize
    ensures { result ≤ at + 1610 }
{
    let bytes = octets::part(answer, 0, answered.length);
    let length = (bytes.len() % 65536) as u16;
    let at = put(out, at, &clients::client_bytes(answered.client));
    let at = put(out, at, &length.to_le_bytes());
    put(out, at, bytes)
}

// What a call says.
fn put_told(out: &mut [u8], told: Told, answer: &[u8; ANSWER]) -> usize
    ensures { result ≤ 1611 }
{
    let at = put(out, 0, &[told::code(told)]);
    match told {
        Told::Request(Ok(answered)) | Told::Tick(Ok(Some(answered))) => {
            put_answer(out, at, answered, answer)
        }
        Told::Query(Ok(Some(time))) => put(out, at, &time.to_le_bytes()),
        _ => at,
    }
}

// A call's part of the transcript, and how long it is: what the call says, whether it left the buffer that was lent past the answer alone, the table, and the sums of the area and the image.
// (A lent buffer and a length of it, since a writer may fail and this cannot: the caller writes what it laid.)
pub fn put_entry(
    told: Told,
    lent: Lent,
    answer: &[u8; ANSWER],
    area: &[u8],
    image: &[u8],
    out: &mut [u8],
) -> usize
    ensures { result ≤ 1940 }
{
    let length = told::answer(told).map_or(0, |answered| answered.length);
    let past = octets::rest(octets::part(answer, 0, lent.answer), length);
    let untouched = past.iter().all(|b| *b == script::FILL);
    let area_sum = adler(octets::part(area, 0, script::AREA));
    let image_sum = adler(octets::part(image, 0, lent.image));
    let at = put_told(out, told, answer);
    let at = put(out, at, &[u8::from(untouched)]);
    let at = put(out, at, &record::table_bytes(lent.table));
    let at = put(out, at, &area_sum.to_le_bytes());
    put(out, at, &image_sum.to_le_bytes())
}
