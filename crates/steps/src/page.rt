// The same words laid on a page, whatever it holds.
// (The texts stand here beside the impls that print them: these answer on every page and cannot fail, while a Formatter may.)
// (Each has the page and the place as parameters: a struct of both would be made anew and taken apart in every public function, which takes them so.)
ghost use Rattle.std.specs.Prelude.{◌≡◌};
ghost use Rattle.show.specs.Text.{page_at, laid};
ghost use Rattle.steps.specs.Steps.{named_text, written_text, write_text, looked_text, own_abort_text, acted_text, asked_text, request_text, range_text, piece_text, whole_text, aborted_text, answer_text};

use crate::{Acted, Answer, Sent, amount, empty_step, opening, other, words_of};
use protocol::{CommandId, ReceiveConnState, Segmentation};
use reading::frame::{Frame, Seen};
use reading::{Piece, Reading, frame};

// The object that a payload names, where it does.
#[tactic(auto, unfolding(show::specs::Text::letters, picks::specs::Pick::pick, crate::specs::Steps::named_text))]
pub(crate) fn put_named(page: &mut [u8], at: usize, payload: &[u8]) -> usize
    ensures { page_at result page.new ≡ laid (page_at at page.old) (named_text payload.now) }
{
    if payload.len() < 4 {
        return show::put(page, at, b"an object, without saying which");
    }
    let index = octets::number_at(payload, 0);
    wording::put_object(page, at, index, octets::byte_at(payload, 2))
}

// How many bytes a write has, and its object.
#[tactic(auto, unfolding(show::specs::Text::letters, crate::specs::Steps::written_text), using(show::proofs::Laid::laid_laid))]
fn put_written(page: &mut [u8], at: usize, sent: Sent<'_>) -> usize
    ensures { page_at result page.new ≡ laid (page_at at page.old) (written_text sent.entry.command sent.entry.payload.now) }
{
    let at = show::put_number(page, at, amount(sent.command));
    let at = show::put(page, at, b" bytes to ");
    put_named(page, at, sent.payload)
}

// A write.
#[tactic(auto, unfolding(picks::specs::Pick::pick, crate::specs::Steps::write_text), using(show::proofs::Laid::laid_laid, show::proofs::Laid::laid_none))]
fn put_write(page: &mut [u8], at: usize, sent: Sent<'_>) -> usize
    ensures { page_at result page.new ≡ laid (page_at at page.old) (write_text sent.entry.command sent.entry.payload.now) }
{
    let segmentation = sent.command.header.segmentation;
    let at = show::put(page, at, words_of(segmentation).as_bytes());
    match segmentation {
        Segmentation::Expedited | Segmentation::Initiate => put_written(page, at, sent),
        Segmentation::Segment | Segmentation::Complete => at,
    }
}

// A command that the controller looks at.
#[tactic(auto, unfolding(show::specs::Text::letters, picks::specs::Pick::pick, crate::specs::Steps::looked_text, crate::specs::Steps::read_text), using(show::proofs::Laid::laid_laid))]
fn put_looked(page: &mut [u8], at: usize, sent: Sent<'_>) -> usize
    ensures { page_at result page.new ≡ laid (page_at at page.old) (looked_text sent.entry.command sent.entry.payload.now) }
{
    match sent.command.header.id {
        CommandId::Nil => show::put(page, at, b"an empty command (Nil)"),
        CommandId::WriteByIndex => put_write(page, at, sent),
        CommandId::ReadByIndex => {
            let at = show::put(page, at, b"reads ");
            put_named(page, at, sent.payload)
        }
        CommandId::MaxSegmentSize => show::put(page, at, b"asks how long a piece may be"),
        _ => show::put(page, at, b"a command that this controller does not serve"),
    }
}

// The client's own abort, with its code where it has one.
#[tactic(auto, unfolding(show::specs::Text::letters, picks::specs::Pick::pick, crate::specs::Steps::own_abort_text, crate::specs::Steps::coded), using(show::proofs::Laid::laid_laid))]
pub(crate) fn put_own_abort(page: &mut [u8], at: usize, payload: &[u8]) -> usize
    ensures { page_at result page.new ≡ laid (page_at at page.old) (own_abort_text payload.now) }
{
    if payload.len() < 4 {
        return show::put(page, at, b"aborts");
    }
    let at = show::put(page, at, b"aborts with code ");
    wording::put_code(page, at, octets::number_at(payload, 0))
}

// A command behind a header: what it asks, or that it is the client's own abort.
#[tactic(auto, unfolding(picks::specs::Pick::pick, crate::specs::Steps::acted_text), using(show::proofs::Laid::laid_laid))]
fn put_acted(page: &mut [u8], at: usize, a: Acted<'_>) -> usize
    ensures { page_at result page.new ≡ laid (page_at at page.old) (acted_text a.entry.header a.entry.sent.command a.entry.sent.payload.now) }
{
    let at = show::put(page, at, opening(a.header).as_bytes());
    if a.sent.command.header.aborted {
        return put_own_abort(page, at, a.sent.payload);
    }
    put_looked(page, at, a.sent)
}

// A frame with a command.
#[tactic(auto, unfolding(show::specs::Text::letters, picks::specs::Pick::pick, crate::specs::Steps::asked_text))]
fn put_asked(page: &mut [u8], at: usize, a: Acted<'_>) -> usize
    ensures { page_at result page.new ≡ laid (page_at at page.old) (asked_text a.entry.header a.entry.sent.command a.entry.sent.payload.now) }
{
    if a.header.rcon == ReceiveConnState::ErrorResponse {
        let again = b"asks for the last piece again (error response); the command is not looked at";
        return show::put(page, at, again);
    }
    put_acted(page, at, a)
}

// What a request asks.
#[tactic(auto, unfolding(show::specs::Text::letters))]
pub fn put_request(page: &mut [u8], at: usize, f: Seen<'_>) -> usize
    ensures { page_at result page.new ≡ laid (page_at at page.old) (request_text f.entry.frame f.entry.bytes.now) }
{
    match f.frame {
        Frame::Short => show::put(page, at, b"a frame too short to be one"),
        Frame::Empty(header) => show::put(page, at, empty_step(header).as_bytes()),
        Frame::Unreadable(_) => show::put(page, at, b"a command that cannot be read"),
        Frame::Command(header, command) => {
            let payload = f.payload();
            let sent = Sent { command, payload };
            put_asked(page, at, Acted { header, sent })
        }
    }
}

// Which bytes of an object the last n of those sent are.
#[tactic(auto, unfolding(show::specs::Text::letters, picks::specs::Pick::pick, crate::specs::Steps::range_text), using(show::proofs::Laid::laid_none, crate::proofs::Templates::range_filled))]
fn put_range(page: &mut [u8], at: usize, r: Reading, n: usize) -> usize
    ensures { page_at result page.new ≡ laid (page_at at page.old) (range_text r n) }
{
    let last = r.sent as usize;
    if last < n {
        return at;
    }
    let numbers = [(last - n + 1) as u64, u64::from(r.sent), u64::from(r.total)];
    template::put(page, at, b": bytes # to # of #", &numbers)
}

// A piece of n bytes, once it is sent. Without a size its reading began where the recording does not show it.
// (A reading's total is a public number, and 0 is that of one whose beginning was not seen.)
#[tactic(auto, unfolding(show::specs::Text::letters, picks::specs::Pick::pick, crate::specs::Steps::piece_text), using(show::proofs::Laid::laid_laid))]
pub(crate) fn put_piece(page: &mut [u8], at: usize, what: &[u8], r: Reading, n: usize) -> usize
    ensures { page_at result page.new ≡ laid (page_at at page.old) (piece_text what.now r n) }
{
    let at = show::put(page, at, what);
    if r.total == 0 {
        let unknown = b"a reading whose beginning the recording does not show";
        return show::put(page, at, unknown);
    }
    let at = wording::put_object(page, at, r.index, r.sub);
    put_range(page, at, r, n)
}

// A value that is sent whole.
#[tactic(auto, unfolding(show::specs::Text::letters, crate::specs::Steps::whole_text), using(show::proofs::Laid::laid_laid))]
pub(crate) fn put_whole(page: &mut [u8], at: usize, r: Reading) -> usize
    ensures { page_at result page.new ≡ laid (page_at at page.old) (whole_text r) }
{
    let at = show::put(page, at, b"the whole value of ");
    let at = wording::put_object(page, at, r.index, r.sub);
    let at = show::put(page, at, b": ");
    let at = show::put_number(page, at, u64::from(r.sent));
    show::put(page, at, b" bytes")
}

// An abort as an answer: without a code it confirms the client's own.
// (A frame may hold any number as its code, so it stays a number.)
#[tactic(auto, unfolding(show::specs::Text::letters, picks::specs::Pick::pick, crate::specs::Steps::aborted_text), using(show::proofs::Laid::laid_laid))]
fn put_aborted(page: &mut [u8], at: usize, a: Frame, code: u32) -> usize
    ensures { page_at result page.new ≡ laid (page_at at page.old) (aborted_text a code) }
{
    if frame::size(a) < 4 {
        return show::put(page, at, b"confirms the abort");
    }
    let at = show::put(page, at, b"ABORT ");
    wording::put_abort(page, at, code)
}

// What an answer gives, and how much of the object is sent then.
#[tactic(auto, unfolding(show::specs::Text::letters))]
pub fn put_answer(page: &mut [u8], at: usize, a: Answer) -> usize
    ensures { page_at result page.new ≡ laid (page_at at page.old) (answer_text a.request a.frame a.piece a.reading) }
{
    let n = usize::from(frame::size(a.frame));
    let r = a.reading;
    match a.piece {
        Piece::Other => show::put(page, at, other(a.request, a.frame).as_bytes()),
        Piece::Whole => put_whole(page, at, r),
        Piece::First(_) => put_piece(page, at, b"the first piece of ", r, n),
        Piece::Next => put_piece(page, at, b"the next piece of ", r, n),
        Piece::Last => put_piece(page, at, b"the last piece of ", r, n),
        Piece::Again => put_piece(page, at, b"once more the last piece sent, of ", r, n),
        Piece::Abort(code) => put_aborted(page, at, a.frame, code),
    }
}
