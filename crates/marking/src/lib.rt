// The marking of an exercise: what the frames of a recording say of it, call by call, and the mark that this comes to. It rests on the frames alone, as they were sent.
#![tactic(auto)]

ghost use Rattle.std.specs.Prelude.{◌≡◌};
ghost use Rattle.marking.specs.Marks.{asks_of, last_event, reading_event, piece_event, denial_event, denied, with_piece, with_finish, event_marks, marks_after, answered_marks, refused_marks, unmarked_of, denial_mark, unfinished_mark, mark_of, empty_book, anew_book, opens_in, answered_book, refused_book};

pub mod numbers;

use protocol::{ReceiveConnState, SdoClientInfo, SendConnState};
use reading::frame::{Frame, Seen};
use reading::{Piece, Reading, frame, rows};

// An exercise: the object that is to be read, and its length.
#[derive(Clone, Copy)]
pub struct Exercise {
    pub index: u16,
    pub sub: u8,
    pub length: u32,
}

// What a call says of the exercise.
// (A frame may hold any code, and `refused` may be given any number, so both stay numbers.)
#[derive(Clone, Copy)]
pub enum Event {
    // A client's opening was answered.
    Opened,
    // The object was asked for.
    Asked,
    // A request for it was answered by an abort, or refused with a number.
    Aborted(u32),
    Refused(u8),
    // A piece of it was sent: so many bytes by then, of so many.
    Sent(u32, u32),
    // A reading of it was ended by an abort.
    Ended(u32),
    // It was sent whole: how many bytes.
    Finished(u32),
}

// What denied an object: an abort's code, or a refusal's number.
// (Each as an Event has it, known or not.)
#[derive(Clone, Copy)]
pub enum Denial {
    Code(u32),
    Number(u8),
}

// What the events so far come to: the first denial, the bytes sent and all bytes of the reading that came furthest, the code that ended the last one, and the length of the first finish that has another length than the exercise.
// (Opened, asked and passed say that it was so, with no value that an Option would hold.)
#[derive(Clone, Copy)]
pub struct Marks {
    pub opened: bool,
    pub asked: bool,
    pub denial: Option<Denial>,
    pub furthest: Option<(u32, u32)>,
    pub ended: Option<u32>,
    pub other: Option<u32>,
    pub passed: bool,
}

// What is marked so far: the marks, and each client's reading.
#[derive(Clone, Copy)]
pub struct Book {
    pub marks: Marks,
    pub readings: [Reading; 8],
}

// What an answer comes to: what it is, the client's reading after it, what it says of the exercise, and the book.
#[derive(Clone, Copy)]
pub struct Noted {
    pub piece: Piece,
    pub reading: Reading,
    pub event: Option<Event>,
    pub book: Book,
}

// The mark: passed, finished with another length, or the first step of the procedure that is missing.
// (The code or the number is the denial's, known or not.)
#[derive(Clone, Copy)]
pub enum Mark {
    Passed,
    OtherLength(u32),
    NotOpened,
    NotAsked,
    DeniedBy(u32),
    RefusedWith(u8),
    NotAnswered,
    Stopped(u32, u32),
}

// Whether a request asks for the exercise's object.
fn asks(e: Exercise, f: Seen<'_>) -> bool
    ensures { result ≡ asks_of e f.entry.frame f.entry.bytes.now }
{
    let payload = f.payload();
    let index: u16 = octets::number_at(payload, 0);
    reading::is_read(f.frame) & (index == e.index) & (octets::byte_at(payload, 2) == e.sub)
}

// What the last piece of a reading says: a finish where all bytes of the size in Initiate were sent.
#[tactic(auto, unfolding(crate::specs::Marks::last_event, picks::specs::Pick::pick))]
fn last_event(r: Reading) -> Event
    ensures { result ≡ last_event r }
{
    if r.sent == r.total {
        return Event::Finished(r.sent);
    }
    Event::Sent(r.sent, r.total)
}

// What an answer says of a reading, given whether it ran before and what it is after.
// (`ran` is of the reading before, and `r` is the one after: both are there, whichever `ran` says.)
// (Reading and piece, here and below: a receiver and its argument.)
fn reading_event(ran: bool, r: Reading, p: Piece) -> Option<Event>
    ensures { result ≡ reading_event ran r p }
{
    match p {
        Piece::Other | Piece::Again => None,
        Piece::Whole => Some(Event::Finished(r.sent)),
        Piece::First(_) => Some(Event::Sent(r.sent, r.total)),
        Piece::Next => ran.then_some(Event::Sent(r.sent, r.total)),
        Piece::Last => ran.then_some(last_event(r)),
        Piece::Abort(code) => ran.then_some(Event::Ended(code)),
    }
}

// What an answer says of the exercise: nothing where the reading is of another object.
#[tactic(auto, unfolding(crate::specs::Marks::piece_event, picks::specs::Pick::pick))]
fn piece_event(e: Exercise, ran: bool, r: Reading, p: Piece) -> Option<Event>
    ensures { result ≡ piece_event e ran r p }
{
    if (r.index == e.index) & (r.sub == e.sub) {
        return reading_event(ran, r, p);
    }
    None
}

// What the answer to a request for the exercise's object says, where it is an abort.
fn denial_event(asked: bool, p: Piece) -> Option<Event>
    ensures { result ≡ denial_event asked p }
{
    match p {
        Piece::Abort(code) => asked.then_some(Event::Aborted(code)),
        _ => None,
    }
}

// The marks with a denial: the first one counts.
fn with_denial(m: Marks, d: Denial) -> Marks
    ensures { result ≡ denied m d }
{
    Marks {
        denial: m.denial.or(Some(d)),
        ..m
    }
}

// The marks with a piece, which counts where no reading came further.
#[tactic(auto, unfolding(crate::specs::Marks::further_of, picks::specs::Pick::pick))]
fn with_piece(m: Marks, sent: u32, total: u32) -> Marks
    ensures { result ≡ with_piece m sent total }
{
    let before = m.furthest.unwrap_or((0, 0));
    let furthest = if before.0 < sent {
        (sent, total)
    } else {
        before
    };
    Marks {
        furthest: Some(furthest),
        ended: None,
        ..m
    }
}

// The marks with a finish: the exercise is passed where it has the length that is asked. Of the other lengths the first counts.
// (The exercise stays beside the marks, here and below: a book is empty before any exercise is named.)
#[tactic(auto, unfolding(crate::specs::Marks::with_finish, picks::specs::Pick::pick))]
fn with_finish(m: Marks, e: Exercise, length: u32) -> Marks
    ensures { result ≡ with_finish m e length }
{
    if length == e.length {
        return Marks { passed: true, ..m };
    }
    Marks {
        other: m.other.or(Some(length)),
        ..m
    }
}

// The marks after an event. An abort without a code confirms the client's own.
// (A frame's code may be any number, and where an abort has none it reads as 0.)
fn after_event(m: Marks, e: Exercise, event: Event) -> Marks
    ensures { result ≡ event_marks e m event }
{
    match event {
        Event::Opened => Marks { opened: true, ..m },
        Event::Asked => Marks { asked: true, ..m },
        Event::Aborted(code) => with_denial(m, Denial::Code(code)),
        Event::Refused(number) => with_denial(m, Denial::Number(number)),
        Event::Sent(sent, total) => with_piece(m, sent, total),
        Event::Ended(code) => Marks {
            ended: (code != 0).then_some(code),
            ..m
        },
        Event::Finished(length) => with_finish(m, e, length),
    }
}

// The marks after what a call says.
fn after(m: Marks, e: Exercise, event: Option<Event>) -> Marks
    ensures { result ≡ marks_after e m event }
{
    event.map_or(m, |event| after_event(m, e, event))
}

// The marks after an answer: whether it opened a connection, whether the exercise's object was asked for, what the answer is, and what that says of a reading.
fn after_answered(
    m: Marks,
    e: Exercise,
    opened: bool,
    asked: bool,
    p: Piece,
    event: Option<Event>,
) -> Marks
    ensures { result ≡ answered_marks m e opened asked p event }
{
    let a = after(m, e, opened.then_some(Event::Opened));
    let b = after(a, e, asked.then_some(Event::Asked));
    let c = after(b, e, denial_event(asked, p));
    after(c, e, event)
}

// The marks after a refused request.
// (The number is whatever `refused` is given; `asked` is of the request, which has an event of its own where it asks.)
fn after_refused(m: Marks, e: Exercise, asked: bool, number: u8) -> Marks
    ensures { result ≡ refused_marks m e asked number }
{
    let a = after(m, e, asked.then_some(Event::Asked));
    after(a, e, asked.then_some(Event::Refused(number)))
}

// The marks before any event.
fn unmarked() -> Marks
    ensures { result ≡ unmarked_of }
{
    Marks {
        opened: false,
        asked: false,
        denial: None,
        furthest: None,
        ended: None,
        other: None,
        passed: false,
    }
}

// Why an object that was asked for was not sent.
fn denial_mark(d: Option<Denial>) -> Mark
    ensures { result ≡ denial_mark d }
{
    match d {
        None => Mark::NotAnswered,
        Some(Denial::Code(code)) => Mark::DeniedBy(code),
        Some(Denial::Number(number)) => Mark::RefusedWith(number),
    }
}

// The mark where no reading of the object finished: the first step that is missing.
#[tactic(auto, unfolding(crate::specs::Marks::unfinished_mark, picks::specs::Pick::pick))]
fn unfinished_mark(m: Marks) -> Mark
    ensures { result ≡ unfinished_mark m }
{
    if !m.opened {
        return Mark::NotOpened;
    }
    if !m.asked {
        return Mark::NotAsked;
    }
    match m.furthest {
        Some((sent, total)) => Mark::Stopped(sent, total),
        None => denial_mark(m.denial),
    }
}

// The mark.
#[tactic(auto, unfolding(crate::specs::Marks::mark_of, picks::specs::Pick::pick))]
pub fn mark_of(m: Marks) -> Mark
    ensures { result ≡ mark_of m }
{
    if m.passed {
        return Mark::Passed;
    }
    match m.other {
        Some(length) => Mark::OtherLength(length),
        None => unfinished_mark(m),
    }
}

// A book with nothing in it.
pub fn empty() -> Book
    ensures { result ≡ empty_book }
{
    Book {
        marks: unmarked(),
        readings: rows::none(),
    }
}

// The book with readings that begin anew.
pub fn anew(b: Book) -> Book
    ensures { result ≡ anew_book b }
{
    Book {
        readings: rows::none(),
        ..b
    }
}

// Whether an answer is under initialisation, which opens a connection.
fn opens(a: Frame) -> bool
    ensures { result ≡ opens_in a }
{
    match a {
        Frame::Short => false,
        Frame::Empty(h) | Frame::Unreadable(h) | Frame::Command(h, _) => {
            h.rcon == ReceiveConnState::Initialization && h.scon == SendConnState::Initialization
        }
    }
}

// The book after an answer to a client, with the request that it answers; a tick's answer has none.
#[tactic(auto, unfolding(crate::specs::Marks::noted_of))]
pub fn answered(b: Book, e: Exercise, client: SdoClientInfo, request: &[u8], answer: &[u8]) -> Noted
    ensures { result ≡ answered_book b e client request.now answer.now }
{
    let q = frame::read(request);
    let a = frame::read(answer);
    let piece = reading::piece_of(q.frame, a);
    let own = rows::own_place(b.readings, client);
    let was = rows::reading_at(b.readings, own);
    let reading = reading::next_reading(was, client, piece, q, a);
    let event = piece_event(e, was.running, reading, piece);
    let asked = asks(e, q);
    let place = rows::place_for(b.readings, own);
    Noted {
        piece,
        reading,
        event,
        book: Book {
            marks: after_answered(b.marks, e, opens(a.frame), asked, piece, event),
            readings: rows::with_reading(b.readings, place, reading),
        },
    }
}

// The book after a refused request.
// (A caller may give any number, so it is no Refusal.)
pub fn refused(b: Book, e: Exercise, request: &[u8], number: u8) -> Book
    ensures { result ≡ refused_book b e request.now number }
{
    let asked = asks(e, frame::read(request));
    Book {
        marks: after_refused(b.marks, e, asked, number),
        ..b
    }
}
