// What a call says, of whatever kind it is.
ghost use Rattle.std.specs.Prelude.{◌≡◌};
ghost use Rattle.script.specs.Outcomes.{said, code_of, answer_of};

use protocol::{Answered, Refusal};

// What a call of each kind says: who is answered, if anybody; the earliest deadline, if there is one; or why it is refused.
#[derive(Clone, Copy)]
pub enum Told {
    Request(Result<Answered, Refusal>),
    Tick(Result<Option<Answered>, Refusal>),
    Query(Result<Option<u64>, Refusal>),
}

// The transcript's code: 0 an answer, 1 to 9 a refusal, 254 a deadline, 255 nothing.
// (Here what a call says becomes the transcript's numbers.)
pub fn code(told: Told) -> u8
    ensures { result ≡ code_of (said told) }
{
    match told {
        Told::Request(Ok(_)) | Told::Tick(Ok(Some(_))) => 0,
        Told::Query(Ok(Some(_))) => 254,
        Told::Tick(Ok(None)) | Told::Query(Ok(None)) => 255,
        Told::Request(Err(x)) | Told::Tick(Err(x)) | Told::Query(Err(x)) => u8::from(x),
    }
}

// The answer, where there is one.
pub fn answer(told: Told) -> Option<Answered>
    ensures { result ≡ answer_of told }
{
    match told {
        Told::Request(Ok(answered)) => Some(answered),
        Told::Tick(Ok(answered)) => answered,
        _ => None,
    }
}
