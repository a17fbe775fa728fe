// A frame as numbers, of which each may be any, laid on a page in the same words: a mark or a segmentation above 3 has no word, and an id that is none is Nil.
// (`put_frame` of the crate is told what bytes decode to, and no other frame. Here a caller may put any number; the words are the crate's.)
ghost use Rattle.std.specs.Prelude.{◌≡◌};
ghost use Rattle.show.specs.Text.{page_at, laid, entry};
ghost use Rattle.wording.specs.Words.{id_text, receive_marks, send_marks, segmentations};
ghost use Rattle.wording.specs.Numbers.{header_text, kind_text, total_text, command_text, decoded_text, frame_text};

use crate::flagged;
use protocol::{CommandId, ReceiveConnState, Segmentation, SendConnState};
use reading::numbers::{COMMAND, Frame, SHORT};

// The word of a receive mark.
// (Three enums again, whose words stand in the crate's functions of these names.)
#[tactic(auto, using(crate::proofs::Marks::receive_number, show::proofs::Texts::entry_past))]
fn received(mark: u8) -> &'static str
    ensures { result.now ≡ entry mark receive_marks }
{
    if 3 < mark {
        return "";
    }
    crate::received(ReceiveConnState::from(mark))
}

// The word of a send mark.
#[tactic(auto, using(crate::proofs::Marks::send_number, show::proofs::Texts::entry_past))]
fn sent(mark: u8) -> &'static str
    ensures { result.now ≡ entry mark send_marks }
{
    if 3 < mark {
        return "";
    }
    crate::sent(SendConnState::from(mark))
}

// The word of a segmentation.
#[tactic(auto, using(protocol::proofs::Flags::segmentation_number_lem, show::proofs::Texts::entry_past))]
fn segmentation_of(segmentation: u8) -> &'static str
    ensures { result.now ≡ entry segmentation segmentations }
{
    if 3 < segmentation {
        return "";
    }
    crate::segmentation_of(Segmentation::from(segmentation))
}

// The name of an id.
#[tactic(auto, unfolding(show::specs::Text::letters), using(crate::proofs::Marks::known_name, crate::proofs::Marks::unknown_name))]
fn name_of(id: u8) -> &'static str
    ensures { result.now ≡ id_text id }
{
    match CommandId::try_from(id) {
        Ok(id) => crate::name_of(id),
        Err(_) => "Nil",
    }
}

// The sequence header's numbers and marks.
#[tactic(auto, unfolding(show::specs::Text::letters, crate::specs::Numbers::header_text), using(show::proofs::Laid::laid_laid))]
fn put_header(page: &mut [u8], at: usize, f: Frame) -> usize
    ensures { page_at result page.new ≡ laid (page_at at page.old) (header_text f) }
{
    let at = show::put(page, at, b"\n    header:  receive ");
    let at = show::put_number(page, at, u64::from(f.receive));
    let at = show::put(page, at, received(f.rcon).as_bytes());
    let at = show::put(page, at, b", send ");
    let at = show::put_number(page, at, u64::from(f.send));
    show::put(page, at, sent(f.scon).as_bytes())
}

// The command's kind: its name, its segmentation and its flags.
#[tactic(auto, unfolding(show::specs::Text::letters, crate::specs::Numbers::kind_text), using(show::proofs::Laid::laid_laid))]
fn put_kind(page: &mut [u8], at: usize, f: Frame) -> usize
    ensures { page_at result page.new ≡ laid (page_at at page.old) (kind_text f) }
{
    let at = show::put(page, at, b"\n    command: ");
    let at = show::put(page, at, name_of(f.id).as_bytes());
    let at = show::put(page, at, segmentation_of(f.segmentation).as_bytes());
    let at = show::put(page, at, flagged(f.response, ", response").as_bytes());
    show::put(page, at, flagged(f.aborted, ", aborted").as_bytes())
}

// The size that an Initiate carries.
#[tactic(auto, unfolding(show::specs::Text::letters, template::specs::Filled::filled, template::specs::Filled::letter_text, template::specs::Filled::taken, picks::specs::Pick::pick, crate::specs::Numbers::total_text), using(show::proofs::Laid::laid_none))]
fn put_total(page: &mut [u8], at: usize, f: Frame) -> usize
    ensures { page_at result page.new ≡ laid (page_at at page.old) (total_text f) }
{
    if f.segmentation != 1 {
        return at;
    }
    template::put(page, at, b", # bytes in all", &[u64::from(f.total)])
}

// The command's header.
#[tactic(auto, unfolding(show::specs::Text::letters, template::specs::Filled::filled, template::specs::Filled::letter_text, template::specs::Filled::taken, picks::specs::Pick::pick, crate::specs::Numbers::command_text), using(show::proofs::Laid::laid_laid))]
fn put_command(page: &mut [u8], at: usize, f: Frame) -> usize
    ensures { page_at result page.new ≡ laid (page_at at page.old) (command_text f) }
{
    let at = put_kind(page, at, f);
    let at = template::put(page, at, b", transaction #", &[u64::from(f.transaction)]);
    let at = put_total(page, at, f);
    template::put(page, at, b", # bytes of data", &[f.size as u64])
}

// What a frame has: a header unless it is too short, a command or none.
#[tactic(auto, unfolding(picks::specs::Pick::pick, crate::specs::Numbers::decoded_text), using(show::proofs::Laid::laid_laid, show::proofs::Laid::laid_none))]
fn put_decoded(page: &mut [u8], at: usize, f: Frame) -> usize
    ensures { page_at result page.new ≡ laid (page_at at page.old) (decoded_text f) }
{
    if f.kind == SHORT {
        return at;
    }
    let at = put_header(page, at, f);
    if f.kind == COMMAND {
        return put_command(page, at, f);
    }
    at
}

// A frame decoded, and its first bytes.
#[tactic(auto, unfolding(show::specs::Text::letters, crate::specs::Numbers::frame_text), using(show::proofs::Laid::laid_laid))]
pub fn put_frame(page: &mut [u8], at: usize, f: Frame, bytes: &[u8]) -> usize
    ensures { page_at result page.new ≡ laid (page_at at page.old) (frame_text f bytes.now) }
{
    let at = put_decoded(page, at, f);
    let at = show::put(page, at, b"\n    bytes:  ");
    let at = show::put_start(page, at, bytes, 24);
    show::put(page, at, b"\n")
}
