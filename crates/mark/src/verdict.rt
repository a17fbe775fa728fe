// The end of the sheet: what finished, and the mark.
// (What is printed at once is one write, here and in `sheet`: on a line that is full, what stands before it has gone out whole.)
use crate::sheet::{Finish, Sheet};
use crate::{print_laid, sheet};
use marking::Mark;
use std::io;

// A finish, without an end of the line.
fn say_finish(rt: &impl Print, finish: Finish) -> io::Result<()> {
    print!(rt; "call {}, ", finish.call)?;
    sheet::say_client(rt, finish.client)?;
    let numbers = [u64::from(finish.length), u64::from(finish.crc)];
    print_laid(
        rt,
        |page| template::put(page, 0, b": # bytes, CRC-32 *", &numbers),
    )
}

// Where a recording ends that is not whole: in the middle of an item, or at one that is unknown.
#[derive(Clone, Copy)]
pub enum Break {
    CutShort(u64),
    Unknown(u64),
}

fn say_break(rt: &impl Print, ended: Break) -> io::Result<()> {
    let (words, at) = match ended {
        Break::CutShort(at) => ("is cut short in the item at byte ", at),
        Break::Unknown(at) => ("cannot be read on: unknown item at byte ", at),
    };
    print!(rt; "the recording ")?;
    print!(rt; "{words}")?;
    print!(rt; "{at}")
}

// What was played, and each finish that is kept.
fn say_counts(rt: &impl Print, sheet: &Sheet) -> io::Result<()> {
    print!(rt;
        "{} calls. Not shown: {} of the controller's own clock that sent nothing, and {} that asked for the next deadline.\nFinished readings of ",
        sheet.calls, sheet.silent, sheet.queries
    )?;
    sheet::say_object(rt, sheet.exercise)?;
    println!(rt; ": {}", sheet.finished)?;
    for finish in sheet.finishes.iter().flatten() {
        print!(rt; "  ")?;
        say_finish(rt, *finish)?;
        println!(rt; "")?;
    }
    if 8 < sheet.finished {
        println!(rt; "  and more")?;
    }
    Ok(())
}

// Where a reading that did not end stopped.
fn say_stopped(rt: &impl Print, sent: u32, total: u32, ended: Option<u32>) -> io::Result<()> {
    print!(rt; "the reading began and stopped at byte {sent} of {total}")?;
    let Some(code) = ended else {
        return print!(rt; ": the pieces were not acknowledged to the end.");
    };
    print!(rt; ": it was ended by abort ")?;
    say_abort(rt, code)
}

// An abort's code and its meaning, and the end of the sentence.
fn say_abort(rt: &impl Print, code: u32) -> io::Result<()> {
    print_laid(rt, |page| wording::put_abort(page, 0, code))?;
    print!(rt; ".")
}

// The reason of a mark, with what the steps came to.
fn say_reason(rt: &impl Print, sheet: &Sheet, mark: Mark) -> io::Result<()> {
    let wanted = sheet.exercise.length;
    match mark {
        Mark::Passed => print!(rt; "."),
        Mark::OtherLength(length) => print!(rt;
            "the object was read to its end, but has {length} bytes where the exercise asks for {wanted}."
        ),
        Mark::NotOpened => print!(rt; "the connection was never opened (initialised)."),
        Mark::NotAsked => {
            print!(rt; "the connection was opened, but ")?;
            sheet::say_object(rt, sheet.exercise)?;
            print!(rt; " was never asked for.")
        }
        Mark::DeniedBy(code) => {
            print!(rt; "the object was asked for, and the answer was abort ")?;
            say_abort(rt, code)
        }
        Mark::RefusedWith(number) => {
            print!(rt; "the object was asked for, and the request was refused with ")?;
            print_laid(rt, |page| wording::put_refusal(page, 0, number))?;
            print!(rt; ".")
        }
        Mark::NotAnswered => {
            print!(rt; "the object was asked for in the middle of another transfer.")
        }
        Mark::Stopped(sent, total) => say_stopped(rt, sent, total, sheet.book.marks.ended),
    }
}

// The mark of a reading that finished.
fn say_passed(rt: &impl Print, sheet: &Sheet, ended: Option<Break>) -> io::Result<()> {
    if let Some(ended) = ended {
        print!(rt; "Note: ")?;
        say_break(rt, ended)?;
        println!(rt; ".")?;
    }
    print!(rt; "MARK: PASSED\nThe object was read to its end: ")?;
    sheet.passed.map_or(Ok(()), |finish| say_finish(rt, finish))
}

// The mark of a recording in which no reading passed. One that is not whole shows no more than what came before.
fn say_failed(rt: &impl Print, sheet: &Sheet, ended: Option<Break>, mark: Mark) -> io::Result<()> {
    print!(rt; "MARK: FAILED\nReason: ")?;
    if let Some(ended) = ended {
        say_break(rt, ended)?;
        print!(rt; "; up to there: ")?;
    }
    if sheet.calls == 0 {
        return print!(rt; "the recording has no call in it.");
    }
    say_reason(rt, sheet, mark)
}

// The end of a sheet, but for the end of its last line, with where the recording ends, if it is not whole.
pub fn say_end(rt: &impl Print, sheet: &Sheet, ended: Option<Break>) -> io::Result<()> {
    say_counts(rt, sheet)?;
    match sheet.mark() {
        Mark::Passed => say_passed(rt, sheet, ended),
        mark => say_failed(rt, sheet, ended, mark),
    }
}
