// What a request asks and what an answer gives, of frames as numbers, of which each may be any, laid on a page in the same words.
// (`put_request` and `put_answer` of the crate are told what bytes decode to, and no other frame. Here a caller may put any number; what has no word for it is left out.)
ghost use Rattle.std.specs.Prelude.{◌≡◌};
ghost use Rattle.show.specs.Text.{page_at, laid, entry};
ghost use Rattle.steps.specs.Steps.{empty_text as marks_text, writes, taken_text};
ghost use Rattle.steps.specs.Numbers.{empty_text, amount_of, written_text, write_text, looked_text, opening_text, acted_text, asked_text, request_text, other_text, aborted_text, answer_text};

use crate::page;
use protocol::{CommandId, ReceiveConnState, Segmentation, SendConnState, SequenceLayerHeader};
use reading::numbers::{COMMAND, EMPTY, Frame, SHORT};
use reading::{Piece, Reading, numbers};

// The words of an empty frame with these marks.
fn marked(rcon: ReceiveConnState, scon: SendConnState) -> &'static str
    ensures { result.now ≡ marks_text (record { receive = 0; rcon = rcon; send = 0; scon = scon }) }
{
    crate::empty_step(SequenceLayerHeader {
        receive: 0,
        rcon,
        send: 0,
        scon,
    })
}

// A frame without a command: a send mark above 3 has no words.
#[tactic(auto, unfolding(picks::specs::Pick::pick, crate::specs::Steps::empty_text, crate::specs::Numbers::empty_text), using(wording::proofs::Marks::send_number, show::proofs::Texts::entry_past))]
fn empty_step(f: Frame) -> &'static str
    ensures { result.now ≡ empty_text f }
{
    if f.rcon == 3 {
        return marked(ReceiveConnState::ErrorResponse, SendConnState::NoConnection);
    }
    if 3 < f.scon {
        return "";
    }
    marked(ReceiveConnState::NoConnection, SendConnState::from(f.scon))
}

// The bytes of a write that names an object: all of an Initiate's, or those behind the object's name.
#[tactic(auto, unfolding(picks::specs::Pick::pick, crate::specs::Numbers::amount_of))]
fn amount(f: Frame) -> u64
    ensures { result ≡ amount_of f }
{
    if f.segmentation == 1 {
        return u64::from(f.total);
    }
    f.size.saturating_sub(4) as u64
}

// How many bytes a write has, and its object.
#[tactic(auto, unfolding(show::specs::Text::letters, crate::specs::Numbers::written_text), using(show::proofs::Laid::laid_laid))]
fn put_written(page: &mut [u8], at: usize, f: Frame, payload: &[u8]) -> usize
    ensures { page_at result page.new ≡ laid (page_at at page.old) (written_text f payload.now) }
{
    let at = show::put_number(page, at, amount(f));
    let at = show::put(page, at, b" bytes to ");
    page::put_named(page, at, payload)
}

// The words of a write, by its segmentation: one above 3 has none.
#[tactic(auto, using(protocol::proofs::Flags::segmentation_number_lem, show::proofs::Texts::entry_past))]
fn words_of(segmentation: u8) -> &'static str
    ensures { result.now ≡ entry segmentation writes }
{
    if 3 < segmentation {
        return "";
    }
    crate::words_of(Segmentation::from(segmentation))
}

// A write.
#[tactic(auto, unfolding(picks::specs::Pick::pick, crate::specs::Numbers::write_text), using(show::proofs::Laid::laid_laid, show::proofs::Laid::laid_none))]
fn put_write(page: &mut [u8], at: usize, f: Frame, payload: &[u8]) -> usize
    ensures { page_at result page.new ≡ laid (page_at at page.old) (write_text f payload.now) }
{
    let at = show::put(page, at, words_of(f.segmentation).as_bytes());
    if f.segmentation < 2 {
        return put_written(page, at, f, payload);
    }
    at
}

// A command that the controller looks at.
#[tactic(auto, unfolding(show::specs::Text::letters, picks::specs::Pick::pick, crate::specs::Numbers::looked_text, crate::specs::Steps::read_text), using(show::proofs::Laid::laid_laid))]
fn put_looked(page: &mut [u8], at: usize, f: Frame, payload: &[u8]) -> usize
    ensures { page_at result page.new ≡ laid (page_at at page.old) (looked_text f payload.now) }
{
    match f.id {
        0 => show::put(page, at, b"an empty command (Nil)"),
        1 => put_write(page, at, f, payload),
        2 => {
            let at = show::put(page, at, b"reads ");
            page::put_named(page, at, payload)
        }
        112 => show::put(page, at, b"asks how long a piece may be"),
        _ => show::put(page, at, b"a command that this controller does not serve"),
    }
}

// Where a command comes with the opening.
#[tactic(auto, unfolding(show::specs::Text::letters, picks::specs::Pick::pick, crate::specs::Numbers::opening_text))]
fn opening(f: Frame) -> &'static str
    ensures { result.now ≡ opening_text f }
{
    if f.scon == 1 {
        return "opens the connection (initialisation) and ";
    }
    ""
}

// A command behind a header: what it asks, or that it is the client's own abort.
#[tactic(auto, unfolding(picks::specs::Pick::pick, crate::specs::Numbers::acted_text), using(show::proofs::Laid::laid_laid))]
fn put_acted(page: &mut [u8], at: usize, f: Frame, payload: &[u8]) -> usize
    ensures { page_at result page.new ≡ laid (page_at at page.old) (acted_text f payload.now) }
{
    let at = show::put(page, at, opening(f).as_bytes());
    if f.aborted {
        return page::put_own_abort(page, at, payload);
    }
    put_looked(page, at, f, payload)
}

// A frame with a command.
#[tactic(auto, unfolding(show::specs::Text::letters, picks::specs::Pick::pick, crate::specs::Numbers::asked_text))]
fn put_asked(page: &mut [u8], at: usize, f: Frame, payload: &[u8]) -> usize
    ensures { page_at result page.new ≡ laid (page_at at page.old) (asked_text f payload.now) }
{
    if f.rcon == 3 {
        let again = b"asks for the last piece again (error response); the command is not looked at";
        return show::put(page, at, again);
    }
    put_acted(page, at, f, payload)
}

// What a request asks.
#[tactic(auto, unfolding(show::specs::Text::letters, picks::specs::Pick::pick, crate::specs::Numbers::request_text))]
pub fn put_request(page: &mut [u8], at: usize, f: Frame, bytes: &[u8]) -> usize
    ensures { page_at result page.new ≡ laid (page_at at page.old) (request_text f bytes.now) }
{
    match f.kind {
        SHORT => show::put(page, at, b"a frame too short to be one"),
        EMPTY => show::put(page, at, empty_step(f).as_bytes()),
        COMMAND => put_asked(page, at, f, numbers::payload(f, bytes)),
        _ => show::put(page, at, b"a command that cannot be read"),
    }
}

// An answer that is no piece of an upload and no abort, to a command.
#[tactic(auto, unfolding(picks::specs::Pick::pick, crate::specs::Steps::taken_text))]
fn taken(id: u8) -> &'static str
    ensures { result.now ≡ taken_text id }
{
    match id {
        1 => crate::taken(CommandId::WriteByIndex),
        112 => crate::taken(CommandId::MaxSegmentSize),
        _ => crate::taken(CommandId::Nil),
    }
}

// An answer that is no piece of an upload and no abort.
// (Two frames, each with bytes of its own: a tick's answer has no request.)
#[tactic(auto, unfolding(show::specs::Text::letters, picks::specs::Pick::pick, crate::specs::Numbers::other_text))]
fn other(q: Frame, a: Frame) -> &'static str
    ensures { result.now ≡ other_text q a }
{
    if !a.response {
        return "takes note, and has no piece to send again";
    }
    if a.scon == 1 {
        return "accepts the opening";
    }
    if q.kind == EMPTY {
        return "takes note; there is nothing to send";
    }
    taken(q.id)
}

// An abort as an answer: without a code it confirms the client's own.
// (A frame may hold any number as its code, so it stays a number.)
#[tactic(auto, unfolding(show::specs::Text::letters, picks::specs::Pick::pick, crate::specs::Numbers::aborted_text), using(show::proofs::Laid::laid_laid))]
fn put_aborted(page: &mut [u8], at: usize, a: Frame, code: u32) -> usize
    ensures { page_at result page.new ≡ laid (page_at at page.old) (aborted_text a code) }
{
    if a.size < 4 {
        return show::put(page, at, b"confirms the abort");
    }
    let at = show::put(page, at, b"ABORT ");
    wording::put_abort(page, at, code)
}

// What an answer gives, and how much of the object is sent then.
#[tactic(auto, unfolding(show::specs::Text::letters))]
pub fn put_answer(page: &mut [u8], at: usize, q: Frame, a: Frame, p: Piece, r: Reading) -> usize
    ensures { page_at result page.new ≡ laid (page_at at page.old) (answer_text q a p r) }
{
    let n = a.size;
    match p {
        Piece::Other => show::put(page, at, other(q, a).as_bytes()),
        Piece::Whole => page::put_whole(page, at, r),
        Piece::First(_) => page::put_piece(page, at, b"the first piece of ", r, n),
        Piece::Next => page::put_piece(page, at, b"the next piece of ", r, n),
        Piece::Last => page::put_piece(page, at, b"the last piece of ", r, n),
        Piece::Again => page::put_piece(page, at, b"once more the last piece sent, of ", r, n),
        Piece::Abort(code) => put_aborted(page, at, a, code),
    }
}
