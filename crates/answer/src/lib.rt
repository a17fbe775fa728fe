// An answer's bytes in a lent buffer.
#![tactic(auto)]

ghost use Rattle.std.specs.Prelude.{◌≡◌, ℕ, List, false};
ghost use Rattle.protocol.specs.Coding.{told_written};
ghost use Rattle.protocol.specs.TransferRecord.{is_part, body_bytes};
ghost use Rattle.protocol.specs.ConnectionRecord.{told_reply};
ghost use Rattle.protocol.specs.Calls.{answer_written, answer_left};

use octets::LittleEndian;
use protocol::{ANSWER_MIN, Body, BufferTooShort, SdoCommand, SdoResponseData};

// The bytes of a body's numbers: an abort code, or two sizes. A part of the image or of the share has none.
fn number_bytes(body: Body) -> [u8; 4]
    ensures { (share image : List ℕ) → is_part body ≡ false → result ≡ body_bytes share image body }
{
    match body {
        Body::Code(code) => code.to_bytes(),
        Body::Sizes(a, b) => {
            let [a_low, a_high]: [u8; 2] = a.to_bytes();
            let [b_low, b_high]: [u8; 2] = b.to_bytes();
            [a_low, a_high, b_low, b_high]
        }
        Body::Nothing | Body::Image(_, _) | Body::Share(_, _) => [0; 4],
    }
}

// A body's payload: a part of the image or of the share, or its numbers' bytes.
// (Share and image stay two: why stands beside `handlers::read_entry`.)
#[tactic(auto, unfolding(picks::specs::Pick::pick))]
fn payload<'a>(share: &'a [u8], image: &'a [u8], body: Body, numbers: &'a [u8; 4]) -> &'a [u8]
    requires { is_part body ≡ false → numbers.now ≡ body_bytes share.now image.now body }
    ensures { result.now ≡ body_bytes share.now image.now body }
{
    match body {
        Body::Code(_) | Body::Sizes(_, _) => numbers,
        Body::Nothing | Body::Image(_, _) | Body::Share(_, _) => {
            handlers::payload(share, image, body)
        }
    }
}

// Writes an answer into a lent buffer and tells its length. A buffer under 1,468 bytes is refused and stays whole.
// (A length and no slice, here and in `server::put_answer`: document 01 has the answer in a lent buffer, with its length told.)
#[tactic(auto, unfolding(protocol::specs::Constants::ANSWER_MIN, picks::specs::Pick::pick))]
pub fn write_answer<'a>(
    r: SdoResponseData,
    share: &'a [u8],
    image: &'a [u8],
    answer: &mut [u8],
) -> Result<usize, BufferTooShort>
    ensures told { told_written result ≡ answer_written (told_reply r share.now image.now) answer.old }
    ensures left { answer.new ≡ answer_left (told_reply r share.now image.now) answer.old }
{
    if answer.len() < ANSWER_MIN {
        return Err(BufferTooShort);
    }
    let _ = sequence::serialize(r.header, answer);
    let m = r.command;
    let numbers = number_bytes(r.body);
    let payload = payload(share, image, r.body, &numbers);
    command::store(m, payload, &mut answer[4..]);
    Ok(4 + fields::header_length(m.header.segmentation) + payload.len())
}
