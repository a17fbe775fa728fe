// Plays a recording from standard input through the server and prints the marked sheet of an exercise: each step in words, and the mark. oracle/REPLAY.md has the recording's format.
#![tactic(auto)]

mod exercise;
mod sheet;
mod verdict;

use crate::sheet::{Call, Sheet};
use crate::verdict::Break;
use input::{INPUT, Player, Window};
use marking::Exercise;
use script::{ANSWER, Done, IMAGE, LENT_AREA, Lent};
use std::io;

// The bytes of a page: no text of the sheet has as many.
const PAGE: usize = 2048;

// Prints a text of `wording` or `steps`: a function that cannot fail lays it on a page, and the page is printed as far as it was laid.
// (Not by Display: what that prints is the text only where `fmt` returns Ok, and one that never does meets its clause too. `card` has this function as well: in a crate for both it would be public, and no public function has a `requires`.)
fn print_laid<F: FnOnce(&mut [u8]) -> usize>(rt: &impl Print, lay: F) -> io::Result<()>
    requires { F.IsAlwaysCallable lay }
{
    let mut page = [0; PAGE];
    let end = lay(&mut page);
    rt.write_all(octets::part(&page, 0, end))
}

// The sheet's player: what is lent, of which buffers, the sheet so far, and where it is printed.
#[derive(Drop)]
struct Marking<'a, P> {
    rt: &'a P,
    lent: Lent,
    area: [u8; LENT_AREA],
    image: [u8; IMAGE],
    sheet: Sheet,
}

impl<P: Print> Player for Marking<'_, P> {
    fn length_of(&self, bytes: &[u8]) -> usize {
        items::length_of(bytes)
    }

    // What is played is shown on the sheet.
    // (`replay` plays alike: what both share is `Lent::play`.)
    fn play(&mut self, item: &[u8]) -> io::Result<bool> {
        let before = self.lent.table;
        let mut answer = [0; ANSWER];
        let played = self
            .lent
            .play(item, &mut self.area, &mut self.image, &mut answer);
        self.lent = played.lent;
        match played.done {
            Done::Unknown => return Ok(false),
            Done::Lends => self.sheet.lend_step(self.rt, item)?,
            Done::Calls(told) => {
                let call = Call {
                    item,
                    before,
                    after: self.lent.table,
                    answer: &answer,
                };
                self.sheet.call_step(self.rt, call, told)?
            }
        }
        Ok(true)
    }
}

// Where the recording ends, if it is not whole: in the middle of an item, or at one that is unknown.
fn ended(input: &[u8; INPUT], window: Window) -> Option<Break> {
    let bytes = input::unplayed(input, window);
    if bytes.is_empty() {
        return None;
    }
    if bytes.len() < items::length_of(bytes) {
        return Some(Break::CutShort(window.at));
    }
    Some(Break::Unknown(window.at))
}

// What is marked, and how to read the steps.
fn say_title(rt: &impl Print, e: Exercise) -> io::Result<()> {
    print!(rt; "MARKED SHEET\nExercise: read ")?;
    sheet::say_object(rt, e)?;
    println!(rt;
        ", to its end: {} bytes.\nEach step is what a client sent and what the controller answered: in words, decoded, and as bytes in hex.\n",
        e.length
    )
}

// The end of the last line, where all that stands before it was written. Where something cannot be written, the sheet is not whole.
fn close(rt: &(impl Print + Eprint), written: io::Result<()>) -> io::Result<()> {
    let whole = written.and_then(|()| println!(rt; ""));
    if whole.is_err() {
        eprintln!(rt; "mark: the sheet cannot be written")?;
    }
    whole
}

// The sheet of the recording on standard input, but for the end of its last line.
fn sheet_of(rt: &(impl Input + Print), e: Exercise) -> io::Result<()> {
    let mut input = [0u8; INPUT];
    let mut reader = rt.reader();
    let mut marking = Marking {
        rt,
        lent: script::begun(),
        area: [0; LENT_AREA],
        image: [0; IMAGE],
        sheet: Sheet::blank(e),
    };
    say_title(rt, e)?;
    let window = input::played(&mut reader, &mut input, &mut marking)?;
    verdict::say_end(rt, &marking.sheet, ended(&input, window))
}

// Marks the recording on standard input.
fn mark(rt: &(impl Input + Print + Eprint), e: Exercise) -> io::Result<()> {
    close(rt, sheet_of(rt, e))
}

fn main(rt: HostRuntime) -> io::Result<()> {
    let Some(exercise) = exercise::of_arguments(&rt) else {
        return eprintln!(rt;
            "usage: mark [INDEX SUB LENGTH] < RECORDING\nINDEX in hex, SUB (at most 255) and LENGTH in decimal; by default 2110 0 4096"
        );
    };
    mark(&rt, exercise)
}
