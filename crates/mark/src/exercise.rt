// The exercise, from the program's arguments.
ghost use Rattle.std.specs.Prelude.{◌≤◌};

use marking::Exercise;
use std::env::FillError;
use std::rt::Env;

// The number that a text spells, where it is one and at most 65,535. One with a plus in front is none.
fn spelled(text: &[u8], radix: u32) -> Option<u16>
    requires least { 2 ≤ radix }
    requires most { radix ≤ 36 }
{
    if text.starts_with(b"+") {
        return None;
    }
    u16::from_str_radix(str::from_utf8(text).ok()?, radix).ok()
}

// The number of an argument. One of more than eight bytes is none.
// (The environment fills a buffer and tells how much of it: without a heap an argument has no text of its own.)
fn argument(rt: &impl Env, i: usize, radix: u32) -> Option<u16>
    requires least { 2 ≤ radix }
    requires most { radix ≤ 36 }
{
    let mut text = [0; 8];
    let n = rt.arg(i, &mut text).ok()?;
    spelled(text.get(..n)?, radix)
}

// How many arguments there are, the program's name among them: 5 stands for more than 4.
fn argument_count(rt: &impl Env) -> usize {
    (0..5)
        .find(|i| matches!(rt.arg(*i, &mut [0; 8]), Err(FillError::NotPresent)))
        .unwrap_or(5)
}

// The exercise of three arguments.
fn of_three(rt: &impl Env) -> Option<Exercise> {
    Some(Exercise {
        index: argument(rt, 1, 16)?,
        sub: u8::try_from(argument(rt, 2, 10)?).ok()?,
        length: u32::from(argument(rt, 3, 10)?),
    })
}

// The exercise of the arguments, where they are one: without any, the shuttle map of a gearbox controller.
// (The numbers are how many arguments there are, the program's name among them.)
pub fn of_arguments(rt: &impl Env) -> Option<Exercise> {
    match argument_count(rt) {
        1 => Some(Exercise {
            index: 0x2110,
            sub: 0,
            length: 4096,
        }),
        4 => of_three(rt),
        _ => None,
    }
}
