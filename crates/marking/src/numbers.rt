// Marks as flags with numbers beside them, of which each may be any: what the frames come to, and the mark.
// (The marks of the crate have Options, and hold no number beside a flag that is false. Here a caller may put one; what the frames say, call by call, is the same.)
ghost use Rattle.std.specs.Prelude.{◌≡◌};
ghost use Rattle.marking.specs.Numbers.{denied, with_piece, with_finish, event_marks, marks_after, answered_marks, refused_marks, unmarked_of, unfinished_mark, mark_of, empty_book, anew_book, answered_book, refused_book};

use crate::{Denial, Event, Exercise, Mark};
use protocol::SdoClientInfo;
use reading::{Piece, Reading, frame, rows};

// What the events so far come to: the first denial, how far the reading went that came furthest, the code that ended the last one, and the length of the first finish that has another length than the exercise.
#[derive(Clone, Copy)]
pub struct Marks {
    pub opened: bool,
    pub asked: bool,
    pub denial: Option<Denial>,
    pub begun: bool,
    pub sent: u32,
    pub total: u32,
    pub ended: u32,
    pub finished: bool,
    pub other: u32,
    pub passed: bool,
}

// What is marked so far: the marks, and each client's reading.
#[derive(Clone, Copy)]
pub struct Book {
    pub marks: Marks,
    pub readings: [Reading; 8],
}

// What an answer comes to: what it is, the client's reading after it, what it says of the exercise, and the book.
#[derive(Clone, Copy)]
pub struct Noted {
    pub piece: Piece,
    pub reading: Reading,
    pub event: Option<Event>,
    pub book: Book,
}

// The marks with a denial: the first one counts.
fn with_denial(m: Marks, d: Denial) -> Marks
    ensures { result ≡ denied m d }
{
    Marks {
        denial: m.denial.or(Some(d)),
        ..m
    }
}

// The marks with a piece, which counts where no reading came further.
#[tactic(auto, unfolding(crate::specs::Numbers::with_piece, picks::specs::Pick::pick))]
fn with_piece(m: Marks, sent: u32, total: u32) -> Marks
    ensures { result ≡ with_piece m sent total }
{
    let begun = Marks {
        begun: true,
        ended: 0,
        ..m
    };
    if m.sent < sent {
        return Marks {
            sent,
            total,
            ..begun
        };
    }
    begun
}

// The marks with a finish: the exercise is passed where it has the length that is asked. Of the other lengths the first counts.
#[tactic(auto, unfolding(crate::specs::Numbers::with_finish, picks::specs::Pick::pick))]
fn with_finish(m: Marks, e: Exercise, length: u32) -> Marks
    ensures { result ≡ with_finish m e length }
{
    if length == e.length {
        return Marks { passed: true, ..m };
    }
    if m.finished {
        return m;
    }
    Marks {
        finished: true,
        other: length,
        ..m
    }
}

// The marks after an event.
fn after_event(m: Marks, e: Exercise, event: Event) -> Marks
    ensures { result ≡ event_marks e m event }
{
    match event {
        Event::Opened => Marks { opened: true, ..m },
        Event::Asked => Marks { asked: true, ..m },
        Event::Aborted(code) => with_denial(m, Denial::Code(code)),
        Event::Refused(number) => with_denial(m, Denial::Number(number)),
        Event::Sent(sent, total) => with_piece(m, sent, total),
        Event::Ended(code) => Marks { ended: code, ..m },
        Event::Finished(length) => with_finish(m, e, length),
    }
}

// The marks after what a call says.
fn after(m: Marks, e: Exercise, event: Option<Event>) -> Marks
    ensures { result ≡ marks_after e m event }
{
    event.map_or(m, |event| after_event(m, e, event))
}

// The marks after an answer: whether it opened a connection, whether the exercise's object was asked for, what the answer is, and what that says of a reading.
fn after_answered(
    m: Marks,
    e: Exercise,
    opened: bool,
    asked: bool,
    p: Piece,
    event: Option<Event>,
) -> Marks
    ensures { result ≡ answered_marks m e opened asked p event }
{
    let a = after(m, e, opened.then_some(Event::Opened));
    let b = after(a, e, asked.then_some(Event::Asked));
    let c = after(b, e, crate::denial_event(asked, p));
    after(c, e, event)
}

// The marks after a refused request.
fn after_refused(m: Marks, e: Exercise, asked: bool, number: u8) -> Marks
    ensures { result ≡ refused_marks m e asked number }
{
    let a = after(m, e, asked.then_some(Event::Asked));
    after(a, e, asked.then_some(Event::Refused(number)))
}

// The marks before any event.
fn unmarked() -> Marks
    ensures { result ≡ unmarked_of }
{
    Marks {
        opened: false,
        asked: false,
        denial: None,
        begun: false,
        sent: 0,
        total: 0,
        ended: 0,
        finished: false,
        other: 0,
        passed: false,
    }
}

// The mark where no reading of the object finished: the first step that is missing.
#[tactic(auto, unfolding(crate::specs::Numbers::unfinished_mark, picks::specs::Pick::pick))]
fn unfinished_mark(m: Marks) -> Mark
    ensures { result ≡ unfinished_mark m }
{
    if !m.opened {
        return Mark::NotOpened;
    }
    if !m.asked {
        return Mark::NotAsked;
    }
    if m.begun {
        return Mark::Stopped(m.sent, m.total);
    }
    crate::denial_mark(m.denial)
}

// The mark.
#[tactic(auto, unfolding(crate::specs::Numbers::mark_of, picks::specs::Pick::pick))]
pub fn mark_of(m: Marks) -> Mark
    ensures { result ≡ mark_of m }
{
    if m.passed {
        return Mark::Passed;
    }
    if m.finished {
        return Mark::OtherLength(m.other);
    }
    unfinished_mark(m)
}

// A book with nothing in it.
pub fn empty() -> Book
    ensures { result ≡ empty_book }
{
    Book {
        marks: unmarked(),
        readings: rows::none(),
    }
}

// The book with readings that begin anew.
pub fn anew(b: Book) -> Book
    ensures { result ≡ anew_book b }
{
    Book {
        marks: b.marks,
        readings: rows::none(),
    }
}

// The book after an answer to a client, with the request that it answers; a tick's answer has none.
#[tactic(auto, unfolding(crate::specs::Numbers::noted_of))]
pub fn answered(b: Book, e: Exercise, client: SdoClientInfo, request: &[u8], answer: &[u8]) -> Noted
    ensures { result ≡ answered_book b e client request.now answer.now }
{
    let q = frame::read(request);
    let a = frame::read(answer);
    let piece = reading::piece_of(q.frame, a);
    let own = rows::own_place(b.readings, client);
    let was = rows::reading_at(b.readings, own);
    let reading = reading::next_reading(was, client, piece, q, a);
    let event = crate::piece_event(e, was.running, reading, piece);
    let opened = crate::opens(a.frame);
    let asked = crate::asks(e, q);
    let place = rows::place_for(b.readings, own);
    Noted {
        piece,
        reading,
        event,
        book: Book {
            marks: after_answered(b.marks, e, opened, asked, piece, event),
            readings: rows::with_reading(b.readings, place, reading),
        },
    }
}

// The book after a refused request.
// (A caller may give any number, so it is no Refusal.)
pub fn refused(b: Book, e: Exercise, request: &[u8], number: u8) -> Book
    ensures { result ≡ refused_book b e request.now number }
{
    let asked = crate::asks(e, frame::read(request));
    Book {
        marks: after_refused(b.marks, e, asked, number),
        ..b
    }
}
