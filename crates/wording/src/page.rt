// The same words laid on a page, whatever it holds.
// (The texts stand here beside the impls that print them: these answer on every page and cannot fail, while a Formatter may.)
// (Each has the page and the place as parameters: a struct of both would be made anew and taken apart in every public function, which takes them so.)
ghost use Rattle.std.specs.Prelude.{◌≡◌, ◌++◌};
ghost use Rattle.show.specs.Text.{page_at, laid, decimal_text};
ghost use Rattle.wording.specs.Words.{clock_text, mac_text, node_text, port_text, client_text, code_text, object_text, abort_text, refusal_text, header_text, kind_text, total_text, command_text, decoded_text, frame_text};

use crate::{flagged, meaning_of, name_of, received, refusal_of, segmentation_of, sent};
use protocol::{CommandLayerHeader, SdoClientInfo, SdoCommand, Segmentation, SequenceLayerHeader};
use reading::frame::{Frame, Seen};

// A clock of microseconds, in seconds.
#[tactic(auto, unfolding(show::specs::Text::letters, template::specs::Filled::filled, template::specs::Filled::letter_text, template::specs::Filled::taken, picks::specs::Pick::pick, crate::specs::Words::clock_text))]
pub fn put_clock(page: &mut [u8], at: usize, clock: u64) -> usize
    ensures { page_at result page.new ≡ laid (page_at at page.old) (clock_text clock) }
{
    template::put(page, at, b"#.^ s", &[clock / 1000000, clock])
}

// The six bytes of a MAC address.
#[tactic(auto, unfolding(show::specs::Text::letters), using(crate::proofs::Templates::mac_filled))]
fn put_mac(page: &mut [u8], at: usize, mac: u64) -> usize
    ensures { page_at result page.new ≡ laid (page_at at page.old) (mac_text mac) }
{
    let [_, _, a, b, c, d, e, f] = mac.to_be_bytes().map(u64::from);
    template::put(page, at, b"@-@-@-@-@-@", &[a, b, c, d, e, f])
}

// A client on the raw network.
#[tactic(auto, unfolding(show::specs::Text::letters, crate::specs::Words::node_text), using(show::proofs::Laid::laid_laid))]
fn put_node(page: &mut [u8], at: usize, node: u8, mac: u64) -> usize
    ensures { page_at result page.new ≡ laid (page_at at page.old) (node_text node mac) }
{
    let at = show::put(page, at, b"node ");
    let at = show::put_number(page, at, u64::from(node));
    let at = show::put(page, at, b" (MAC ");
    let at = put_mac(page, at, mac);
    show::put(page, at, b")")
}

// A client over UDP.
#[tactic(auto, unfolding(show::specs::Text::letters, template::specs::Filled::filled, template::specs::Filled::letter_text, template::specs::Filled::taken, picks::specs::Pick::pick, crate::specs::Words::port_text, crate::specs::Words::address_text, crate::specs::Words::dotted))]
fn put_port(page: &mut [u8], at: usize, ip: u32, port: u16) -> usize
    ensures { page_at result page.new ≡ laid (page_at at page.old) (port_text ip port) }
{
    let [a, b, c, d] = ip.to_be_bytes().map(u64::from);
    template::put(page, at, b"#.#.#.# port #", &[a, b, c, d, u64::from(port)])
}

// A client: on the raw network, or over UDP.
pub fn put_client(page: &mut [u8], at: usize, client: SdoClientInfo) -> usize
    ensures { page_at result page.new ≡ laid (page_at at page.old) (client_text client) }
{
    match client {
        SdoClientInfo::Asnd { node, mac } => put_node(page, at, node, mac),
        SdoClientInfo::Udp { ip, port } => put_port(page, at, ip, port),
    }
}

// An object.
#[tactic(auto, unfolding(show::specs::Text::letters, template::specs::Filled::filled, template::specs::Filled::letter_text, template::specs::Filled::taken, picks::specs::Pick::pick, crate::specs::Words::object_text))]
pub fn put_object(page: &mut [u8], at: usize, index: u16, sub: u8) -> usize
    ensures { page_at result page.new ≡ laid (page_at at page.old) (object_text index sub) }
{
    template::put(
        page,
        at,
        b"object & hex, sub-index #",
        &[u64::from(index), u64::from(sub)],
    )
}

// A number in eight hex digits.
// (A frame may hold any number here and in put_abort, so it stays a number.)
#[tactic(auto, unfolding(show::specs::Text::letters, template::specs::Filled::filled, template::specs::Filled::letter_text, template::specs::Filled::taken, picks::specs::Pick::pick))]
pub fn put_code(page: &mut [u8], at: usize, code: u32) -> usize
    ensures { page_at result page.new ≡ laid (page_at at page.old) (code_text code) }
{
    template::put(page, at, b"*", &[u64::from(code)])
}

// An abort's code and its meaning.
#[tactic(auto, unfolding(show::specs::Text::letters, crate::specs::Words::abort_text), using(show::proofs::Laid::laid_laid))]
pub fn put_abort(page: &mut [u8], at: usize, code: u32) -> usize
    ensures { page_at result page.new ≡ laid (page_at at page.old) (abort_text code) }
{
    let at = put_code(page, at, code);
    let at = show::put(page, at, b": ");
    show::put(page, at, meaning_of(code).as_bytes())
}

// A refusal's number and its meaning.
// (A caller may give any number, so it stays a number.)
#[tactic(auto, unfolding(show::specs::Text::letters, template::specs::Filled::filled, template::specs::Filled::letter_text, template::specs::Filled::taken, picks::specs::Pick::pick, crate::specs::Words::refusal_text), using(show::proofs::Laid::laid_laid))]
pub fn put_refusal(page: &mut [u8], at: usize, number: u8) -> usize
    ensures { page_at result page.new ≡ laid (page_at at page.old) (refusal_text number) }
{
    let at = template::put(page, at, b"#: ", &[u64::from(number)]);
    show::put(page, at, refusal_of(number).as_bytes())
}

// A number behind words, and the word of its mark.
#[tactic(auto, using(show::proofs::Laid::laid_laid))]
fn put_marked(page: &mut [u8], at: usize, words: &[u8], n: u8, mark: &str) -> usize
    ensures { page_at result page.new ≡ laid (page_at at page.old) (words.now ++ decimal_text n ++ mark.now) }
{
    let at = show::put(page, at, words);
    let at = show::put_number(page, at, u64::from(n));
    show::put(page, at, mark.as_bytes())
}

// The sequence header's numbers and marks.
#[tactic(auto, unfolding(show::specs::Text::letters, crate::specs::Words::header_text), using(show::proofs::Laid::laid_laid))]
fn put_header(page: &mut [u8], at: usize, h: SequenceLayerHeader) -> usize
    ensures { page_at result page.new ≡ laid (page_at at page.old) (header_text h) }
{
    let receive = b"\n    header:  receive ";
    let at = put_marked(page, at, receive, h.receive, received(h.rcon));
    put_marked(page, at, b", send ", h.send, sent(h.scon))
}

// The command's kind: its name, its segmentation and its flags.
#[tactic(auto, unfolding(show::specs::Text::letters, crate::specs::Words::kind_text), using(show::proofs::Laid::laid_laid))]
fn put_kind(page: &mut [u8], at: usize, h: CommandLayerHeader) -> usize
    ensures { page_at result page.new ≡ laid (page_at at page.old) (kind_text h) }
{
    let at = show::put(page, at, b"\n    command: ");
    let at = show::put(page, at, name_of(h.id).as_bytes());
    let at = show::put(page, at, segmentation_of(h.segmentation).as_bytes());
    let at = show::put(page, at, flagged(h.response, ", response").as_bytes());
    show::put(page, at, flagged(h.aborted, ", aborted").as_bytes())
}

// The size that an Initiate carries.
#[tactic(auto, unfolding(show::specs::Text::letters, template::specs::Filled::filled, template::specs::Filled::letter_text, template::specs::Filled::taken, picks::specs::Pick::pick, crate::specs::Words::total_text), using(show::proofs::Laid::laid_none))]
fn put_total(page: &mut [u8], at: usize, c: SdoCommand) -> usize
    ensures { page_at result page.new ≡ laid (page_at at page.old) (total_text c) }
{
    if c.header.segmentation != Segmentation::Initiate {
        return at;
    }
    let total = c.total.unwrap_or(0);
    template::put(page, at, b", # bytes in all", &[u64::from(total)])
}

// The command's header.
#[tactic(auto, unfolding(show::specs::Text::letters, template::specs::Filled::filled, template::specs::Filled::letter_text, template::specs::Filled::taken, picks::specs::Pick::pick, crate::specs::Words::command_text), using(show::proofs::Laid::laid_laid))]
fn put_command(page: &mut [u8], at: usize, c: SdoCommand) -> usize
    ensures { page_at result page.new ≡ laid (page_at at page.old) (command_text c) }
{
    let at = put_kind(page, at, c.header);
    let at = template::put(
        page,
        at,
        b", transaction #",
        &[u64::from(c.header.transaction)],
    );
    let at = put_total(page, at, c);
    template::put(page, at, b", # bytes of data", &[u64::from(c.header.size)])
}

// What a frame has: a header unless it is too short, a command or none.
#[tactic(auto, using(show::proofs::Laid::laid_laid, show::proofs::Laid::laid_none))]
fn put_parts(page: &mut [u8], at: usize, f: Frame) -> usize
    ensures { page_at result page.new ≡ laid (page_at at page.old) (decoded_text f) }
{
    match f {
        Frame::Short => at,
        Frame::Empty(header) | Frame::Unreadable(header) => put_header(page, at, header),
        Frame::Command(header, command) => {
            let at = put_header(page, at, header);
            put_command(page, at, command)
        }
    }
}

// A frame decoded, and its first bytes.
#[tactic(auto, unfolding(show::specs::Text::letters, crate::specs::Words::frame_text), using(show::proofs::Laid::laid_laid))]
pub fn put_frame(page: &mut [u8], at: usize, f: Seen<'_>) -> usize
    ensures { page_at result page.new ≡ laid (page_at at page.old) (frame_text f.entry.frame f.entry.bytes.now) }
{
    let at = put_parts(page, at, f.frame);
    let at = show::put(page, at, b"\n    bytes:  ");
    let at = show::put_start(page, at, f.bytes, 24);
    show::put(page, at, b"\n")
}
