// The tests of a call, in the order of their refusals: what is lent, the clock and the frame; whether the table is sound, and full for the client, is told.
#![tactic(auto)]

ghost use Rattle.std.specs.Prelude.{◌≡◌, not, ◌||◌, length, eqb, ltb};
ghost use Rattle.protocol.specs.Constants.{AREA as WHOLE_AREA, ANSWER_MIN as LEAST_ANSWER};
ghost use Rattle.protocol.specs.Calls.{told_checked, verdict};
ghost use Rattle.refusals.specs.Tests.{lent_tests, frame_tests};

use protocol::{ANSWER_MIN, AREA, CLOCK_MAX, REQUEST_MAX, Refusal};

// The length of the sequence header: no request is shorter.
const HEADER: usize = 4;

// Whether the answer buffer or the area has a length that no call takes.
#[tactic(auto, unfolding(protocol::specs::Constants::ANSWER_MIN, protocol::specs::Constants::AREA, protocol::specs::Constants::PIECE, protocol::specs::Constants::RECORDS, protocol::specs::Constants::SHARE))]
fn lent_wrong(area: &[u8], answer: &[u8]) -> bool
    ensures { result ≡ (ltb (length answer.now) LEAST_ANSWER || not (eqb (length area.now) WHOLE_AREA)) }
{
    answer.len() < ANSWER_MIN || area.len() != AREA
}

// The tests of what is lent and of the clock, the table's soundness told: refusals 1 to 4, in order.
#[tactic(auto, unfolding(protocol::specs::Calls::verdict, picks::specs::Pick::pick, protocol::specs::Constants::CLOCK_MAX))]
pub fn check_lent(
    sound: bool,
    area: &[u8],
    image: &[u8],
    answer: &[u8],
    clock: u64,
) -> Result<(), Refusal>
    ensures { told_checked result ≡ verdict (lent_tests sound clock image.now answer.now area.now) }
{
    if lent_wrong(area, answer) {
        return Err(Refusal::Lent);
    }
    if !soundness::sound_image(image) {
        return Err(Refusal::Image);
    }
    if !sound {
        return Err(Refusal::Table);
    }
    if CLOCK_MAX < clock {
        return Err(Refusal::Clock);
    }
    Ok(())
}

// The tests of a request of n bytes, told whether the table is full for its client: refusals 5 to 7, in order.
#[tactic(auto, unfolding(protocol::specs::Calls::verdict, picks::specs::Pick::pick, protocol::specs::Constants::REQUEST_MAX))]
pub fn check_frame(n: usize, full: bool) -> Result<(), Refusal>
    ensures { told_checked result ≡ verdict (frame_tests n full) }
{
    if n < HEADER {
        return Err(Refusal::Short);
    }
    if REQUEST_MAX < n {
        return Err(Refusal::Long);
    }
    if full {
        return Err(Refusal::Full);
    }
    Ok(())
}
