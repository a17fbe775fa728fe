// The sheet: each call of a recording as a step, and what the steps come to.
ghost use Rattle.std.specs.Prelude.{◌≡◌};
ghost use Rattle.marking.specs.Marks.{mark_of};

use crate::print_laid;
use items::{Item, UnknownItem};
use marking::{Book, Event, Exercise, Mark, Noted};
use protocol::{Answered, Connection, ReceiveConnState, Refusal, SdoClientInfo, SdoServerState};
use reading::frame::Frame;
use reading::{Reading, frame};
use script::told::Told;
use std::io;
use steps::Answer;

// A finished reading of the exercise's object.
#[derive(Clone, Copy)]
pub struct Finish {
    pub call: u64,
    pub client: SdoClientInfo,
    pub length: u32,
    pub crc: u32,
}

// The sheet of an exercise so far: how many calls, ticks that sent nothing and deadline queries there were, the book of marks and readings, the first finishes and their number, and the one that passed.
// (`finished` counts those too that are not kept, and the other counts are of nothing kept.)
#[derive(Clone, Copy)]
pub struct Sheet {
    pub exercise: Exercise,
    pub calls: u64,
    pub silent: u64,
    pub queries: u64,
    pub book: Book,
    pub finishes: [Option<Finish>; 8],
    pub finished: u64,
    pub passed: Option<Finish>,
}

// A call: its item, the tables before and after it, and the answer buffer.
#[derive(Clone, Copy)]
pub struct Call<'a> {
    pub item: &'a [u8],
    pub before: [Connection; 8],
    pub after: [Connection; 8],
    pub answer: &'a [u8],
}

// The object of an exercise.
pub fn say_object(rt: &impl Print, e: Exercise) -> io::Result<()> {
    print_laid(rt, |page| wording::put_object(page, 0, e.index, e.sub))
}

pub fn say_client(rt: &impl Print, client: SdoClientInfo) -> io::Result<()> {
    print_laid(rt, |page| wording::put_client(page, 0, client))
}

// Whether a request has the number of the client's frame before, and is no error response.
fn is_repeat(row: [Connection; 8], client: SdoClientInfo, frame: Frame) -> bool {
    let Some(place) = records::place_of(&row, client) else {
        return false;
    };
    let record = records::record_at(&row, place);
    match frame {
        Frame::Short => false,
        Frame::Empty(header) | Frame::Unreadable(header) | Frame::Command(header, _) => {
            // A state that has taken a frame's number: the same number is a repeat.
            let open = !matches!(
                record.state,
                SdoServerState::Closed | SdoServerState::Opening
            );
            open && record.receive == header.send && header.rcon != ReceiveConnState::ErrorResponse
        }
    }
}

// A client and what it sent, with the table before it.
#[derive(Clone, Copy)]
struct Sent<'a> {
    row: [Connection; 8],
    client: SdoClientInfo,
    bytes: &'a [u8],
}

impl Sent<'_> {
    fn say(&self, rt: &impl Print) -> io::Result<()> {
        let seen = frame::read(self.bytes);
        say_client(rt, self.client)?;
        print!(rt; "\n  request: ")?;
        print_laid(rt, |page| steps::put_request(page, 0, seen))?;
        if is_repeat(self.row, self.client, seen.frame) {
            print!(rt; "; a repeat: it has the number of the frame before")?;
        }
        print_laid(rt, |page| wording::put_frame(page, 0, seen))
    }
}

// What an item lends, in words.
fn lent_by(item: &[u8]) -> Option<&'static str> {
    match Item::try_from(octets::byte_at(item, 0)) {
        Ok(Item::Image) => Some("the controller's objects."),
        Ok(Item::Table) => Some("the table of connections: readings begin anew."),
        Ok(Item::Area) => Some("the area."),
        Ok(Item::Lengths) => Some("the lengths of what the controller is lent."),
        Ok(Item::Request | Item::Tick | Item::Query) | Err(UnknownItem(_)) => None,
    }
}

impl Sheet {
    // A sheet with no step yet.
    pub fn blank(exercise: Exercise) -> Sheet {
        Sheet {
            exercise,
            calls: 0,
            silent: 0,
            queries: 0,
            book: marking::empty(),
            finishes: [None; 8],
            finished: 0,
            passed: None,
        }
    }

    // The mark of the steps so far: what the book comes to, whatever stands beside it.
    pub fn mark(&self) -> Mark
        ensures { result ≡ mark_of self.now.book.marks }
    {
        marking::mark_of(self.book.marks)
    }

    // A reading is finished.
    fn finish(&mut self, finish: Finish) {
        if let Some(place) = self.finishes.get_mut(self.finished as usize) {
            *place = Some(finish);
        }
        self.finished = self.finished.wrapping_add(1);
        if finish.length == self.exercise.length && self.passed.is_none() {
            self.passed = Some(finish);
        }
    }

    // An answer: it is shown and marked. A tick's has no request.
    fn answered(
        &mut self,
        rt: &impl Print,
        client: SdoClientInfo,
        request: &[u8],
        bytes: &[u8],
    ) -> io::Result<()> {
        let Noted {
            piece,
            reading,
            event,
            book,
        } = marking::answered(self.book, self.exercise, client, request, bytes);
        self.book = book;
        let seen = frame::read(bytes);
        let answer = Answer {
            request: frame::read(request).frame,
            frame: seen.frame,
            piece,
            reading,
        };
        print!(rt; "  answer:  ")?;
        print_laid(rt, |page| steps::put_answer(page, 0, answer))?;
        print_laid(rt, |page| wording::put_frame(page, 0, seen))?;
        if let Some(Event::Finished(length)) = event {
            self.finish(Finish {
                call: self.calls,
                client: reading.client,
                length,
                crc: reading::crc_of(reading),
            });
        }
        Ok(())
    }

    // A refusal: it is shown and marked.
    fn refused(&mut self, rt: &impl Print, request: &[u8], refusal: Refusal) -> io::Result<()> {
        let number = u8::from(refusal);
        self.book = marking::refused(self.book, self.exercise, request, number);
        print!(rt; "  answer:  none, refused with ")?;
        print_laid(rt, |page| wording::put_refusal(page, 0, number))?;
        println!(rt; "\n")
    }

    // The line that begins a step.
    fn head(&self, rt: &impl Print, item: &[u8]) -> io::Result<()> {
        print!(rt; "Call {} at ", self.calls)?;
        print_laid(
            rt,
            |page| wording::put_clock(page, 0, items::clock_of(item)),
        )?;
        print!(rt; ", ")
    }

    // An answer to a client, and whether its connection is closed then. A tick's has no request.
    // (The answer's length stands in Answered and its bytes in the lent buffer, as document 01 has it.)
    fn answer_step(
        &mut self,
        rt: &impl Print,
        call: Call,
        said: Answered,
        request: &[u8],
    ) -> io::Result<()> {
        let bytes = octets::part(call.answer, 0, said.length);
        self.answered(rt, said.client, request, bytes)?;
        if records::place_of(&call.after, said.client).is_none() {
            println!(rt; "  then:    the connection is closed")?;
        }
        println!(rt; "")
    }

    // A request and what came of it.
    fn request_step(
        &mut self,
        rt: &impl Print,
        call: Call,
        outcome: Result<Answered, Refusal>,
    ) -> io::Result<()> {
        let sent = Sent {
            row: call.before,
            client: items::client_of(call.item),
            bytes: items::request_of(call.item),
        };
        self.head(rt, call.item)?;
        sent.say(rt)?;
        match outcome {
            Ok(said) => self.answer_step(rt, call, said, sent.bytes),
            Err(refusal) => self.refused(rt, sent.bytes, refusal),
        }
    }

    // A tick and what came of it.
    fn tick_step(
        &mut self,
        rt: &impl Print,
        call: Call,
        outcome: Result<Option<Answered>, Refusal>,
    ) -> io::Result<()> {
        match outcome {
            Ok(None) => {
                self.silent = self.silent.wrapping_add(1);
                Ok(())
            }
            Ok(Some(said)) => {
                self.head(rt, call.item)?;
                print!(rt; "the controller's own clock, for ")?;
                say_client(rt, said.client)?;
                println!(rt; "")?;
                self.answer_step(rt, call, said, b"")
            }
            Err(refusal) => {
                self.head(rt, call.item)?;
                println!(rt; "the controller's own clock")?;
                self.refused(rt, b"", refusal)
            }
        }
    }

    // A call and what came of it.
    pub fn call_step(&mut self, rt: &impl Print, call: Call, told: Told) -> io::Result<()> {
        self.calls = self.calls.wrapping_add(1);
        match told {
            Told::Request(outcome) => self.request_step(rt, call, outcome),
            Told::Tick(outcome) => self.tick_step(rt, call, outcome),
            Told::Query(_) => {
                self.queries = self.queries.wrapping_add(1);
                Ok(())
            }
        }
    }

    // An item that lends something. A table that is lent knows nothing of the readings so far.
    pub fn lend_step(&mut self, rt: &impl Print, item: &[u8]) -> io::Result<()> {
        if let Ok(Item::Table) = Item::try_from(octets::byte_at(item, 0)) {
            self.book = marking::anew(self.book);
        }
        let Some(what) = lent_by(item) else {
            return Ok(());
        };
        print!(rt; "(The recording sets ")?;
        print!(rt; "{what})")?;
        println!(rt; "\n")
    }
}
