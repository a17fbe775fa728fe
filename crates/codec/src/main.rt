// Plays the codec items of standard input on the codecs and writes what they answer as a transcript: oracle/README.md has both formats.
#![tactic(auto)]

ghost use Rattle.std.specs.Prelude.{◌≤◌, ◌+◌, length, IfSome, IfOk};
ghost use Rattle.input.specs.Runs.{Within};
ghost use Rattle.output.specs.Output.{waits};

use input::{Player, Window};
use output::Output;
use protocol::{
    BufferTooShort, CommandError, CommandId, CommandLayerHeader, ReceiveConnState, SdoCommand,
    Segmentation, SendConnState, SequenceLayerHeader,
};
use std::io;
use std::io::Write;

// What every byte of a lent buffer is before a call.
const FILL: u8 = 0xA5;

// A buffer before a call.
const FRESH: [u8; 4096] = [FILL; 4096];

// The limits of an item's lengths.
const MAX_COMMAND: u16 = 4096;

const MAX_PAYLOAD: u16 = 2048;

const MAX_BUFFER: u16 = 4096;

// The input's buffer, in which every item fits.
const INPUT: usize = 65536;

// The most bytes that an item adds to the transcript: a decoded command's.
const ROOM: usize = 4111;

// What an item asks for.
#[derive(Clone, Copy)]
enum Item {
    HeaderDecode,
    HeaderEncode,
    CommandDecode,
    CommandEncode,
    NextNumber,
}

// A number that no item has.
#[derive(Clone, Copy)]
struct UnknownItem;

impl TryFrom<u8> for Item {
    type Error = UnknownItem;

    // (Here the format's numbers become items.)
    fn try_from(number: u8) -> Result<Self, UnknownItem> {
        match number {
            1 => Ok(Item::HeaderDecode),
            2 => Ok(Item::HeaderEncode),
            3 => Ok(Item::CommandDecode),
            4 => Ok(Item::CommandEncode),
            5 => Ok(Item::NextNumber),
            _ => Err(UnknownItem),
        }
    }
}

// A length in an item. One above its limit counts as 0: no payload is waited for, and the item is refused.
// (0 and no None: how long an item is is a number for every item.)
// (`items::image_length` asks the same of one number of another format: a function of both would be a public one, with a contract and an edit of its own, to save this one line.)
fn limited(n: u16, limit: u16) -> usize
    ensures { result ≤ limit }
{
    if n <= limit { n as usize } else { 0 }
}

// How long the item at the start of these bytes is. Where they end before the bytes that tell it, the answer is still more than they are.
// (No twin of items::length_of: the items of another format, which has other numbers, lengths and limits.)
fn length_of(s: &[u8]) -> usize
    ensures { result ≤ 4099 }
{
    match Item::try_from(octets::byte_at(s, 0)) {
        Ok(Item::HeaderDecode) => 2 + usize::from(octets::byte_at(s, 1)),
        Ok(Item::HeaderEncode) => 6,
        Ok(Item::CommandDecode) => 3 + limited(octets::number_at(s, 1), MAX_COMMAND),
        Ok(Item::CommandEncode) => 17 + limited(octets::number_at(s, 13), MAX_PAYLOAD),
        Ok(Item::NextNumber) => 2,
        Err(UnknownItem) => 1,
    }
}

// A flag of an item.
fn flag(byte: u8) -> Option<bool> {
    (byte < 2).then_some(byte == 1)
}

// A mark or a segmentation of an item: a number of two bits.
fn two_bits(byte: u8) -> Option<u8> {
    (byte < 4).then_some(byte)
}

// Item 1: a sequence header is decoded.
// (The first byte of each answer is the transcript's number for what came.)
fn header_decode(item: &[u8], out: &mut Output<impl Write>) -> io::Result<()>
    ensures { waits out.new ≤ waits out.old + 4111 }
{
    match sequence::deserialize(octets::rest(item, 2)) {
        Ok(h) => out.write_all(&[0, h.receive, u8::from(h.rcon), h.send, u8::from(h.scon)]),
        Err(BufferTooShort) => out.write_all(&[5]),
    }
}

// The lowest bytes of a count.
fn put_count(count: usize, width: usize, out: &mut Output<impl Write>) -> io::Result<()>
    ensures { waits out.new ≤ waits out.old + width }
{
    out.write_all(octets::part(&(count as u64).to_le_bytes(), 0, width))
}

// What an encoding into a buffer answered: the count of written bytes, in width bytes, and the buffer; or that it is short, and whether it is as it was.
fn encoding(
    written: Result<usize, BufferTooShort>,
    width: usize,
    buffer: &[u8],
    out: &mut Output<impl Write>,
) -> io::Result<()>
    requires { (width ≤ 2) × (length buffer.now ≤ 4096) }
    ensures { waits out.new ≤ waits out.old + 4111 }
{
    match written {
        Ok(count) => {
            out.write_all(&[0])?;
            put_count(count, width, out)?;
            out.write_all(buffer)
        }
        Err(BufferTooShort) => {
            // (As slices: byte by byte it takes twice the time.)
            let same = buffer == octets::part(&FRESH, 0, buffer.len());
            out.write_all(&[1, u8::from(same)])
        }
    }
}

// The header of item 2, where its marks are in their limits.
fn header_of(item: &[u8]) -> Option<SequenceLayerHeader> {
    Some(SequenceLayerHeader {
        receive: octets::byte_at(item, 1),
        rcon: ReceiveConnState::from(two_bits(octets::byte_at(item, 2))?),
        send: octets::byte_at(item, 3),
        scon: SendConnState::from(two_bits(octets::byte_at(item, 4))?),
    })
}

// Item 2: a sequence header is encoded into a buffer of n bytes.
// (Without a heap no buffer is made of the item's length, here and below: it is the front of an array.)
fn header_encode(h: SequenceLayerHeader, n: u8, out: &mut Output<impl Write>) -> io::Result<()>
    ensures { waits out.new ≤ waits out.old + 4111 }
{
    let mut space = [FILL; 255];
    let buffer = &mut space[..usize::from(n)];
    let written = sequence::serialize(h, buffer);
    encoding(written, 1, buffer, out)
}

// Item 3, decoded: the command's fields, its total (0 without one), and its payload.
// (The transcript's bytes: the card's row of the same fields has no length, no flag for the total, and another place for it.)
fn command_decoded(c: SdoCommand, bytes: &[u8], out: &mut Output<impl Write>) -> io::Result<()>
    requires { length bytes.now ≤ 4096 }
    ensures { waits out.new ≤ waits out.old + 4111 }
{
    let h = c.header;
    let payload = command::payload(h, bytes);
    let [size, size_high] = h.size.to_le_bytes();
    let [t0, t1, t2, t3] = c.total.unwrap_or(0).to_le_bytes();
    let [count, count_high, ..] = (payload.len() as u64).to_le_bytes();
    // (In one array: written field by field they take twice the time.)
    out.write_all(&[
        0,
        h.transaction,
        u8::from(h.response),
        u8::from(h.aborted),
        u8::from(h.segmentation),
        u8::from(h.id),
        size,
        size_high,
        u8::from(c.total.is_some()),
        t0,
        t1,
        t2,
        t3,
        count,
        count_high,
    ])?;
    out.write_all(payload)
}

// Item 3: a command is decoded.
fn command_decode(bytes: &[u8], out: &mut Output<impl Write>) -> io::Result<()>
    requires { length bytes.now ≤ 4096 }
    ensures { waits out.new ≤ waits out.old + 4111 }
{
    let transaction = fields::undecodable_transaction(bytes);
    match command::deserialize(bytes) {
        Ok(c) => command_decoded(c, bytes, out),
        Err(CommandError::BufferTooShort) => out.write_all(&[5, transaction]),
        Err(CommandError::Undecodable) => out.write_all(&[254, transaction]),
    }
}

// The command of item 4, where its flags, its segmentation and its id are in their limits.
fn command_of(item: &[u8]) -> Option<SdoCommand> {
    let header = CommandLayerHeader {
        transaction: octets::byte_at(item, 1),
        response: flag(octets::byte_at(item, 2))?,
        aborted: flag(octets::byte_at(item, 3))?,
        segmentation: Segmentation::from(two_bits(octets::byte_at(item, 4))?),
        id: CommandId::try_from(octets::byte_at(item, 5)).ok()?,
        size: octets::number_at(item, 6),
    };
    let total = flag(octets::byte_at(item, 8))?.then_some(octets::number_at(item, 9));
    Some(SdoCommand { header, total })
}

// Item 4: a command is encoded into a buffer of n bytes.
// (The front of an array, as in item 2.)
fn command_encode(
    c: SdoCommand,
    payload: &[u8],
    n: u16,
    out: &mut Output<impl Write>,
) -> io::Result<()>
    ensures { waits out.new ≤ waits out.old + 4111 }
{
    let mut space = [FILL; 4096];
    let buffer = &mut space[..usize::from(n.min(MAX_BUFFER))];
    let written = command::serialize(c, payload, buffer);
    encoding(written, 2, buffer, out)
}

// The bytes of item 3, where their number is in its limit.
fn command_bytes(item: &[u8]) -> Option<&[u8]>
    ensures { IfSome result (λ bytes. length bytes.now ≤ 4096) }
{
    let n: u16 = octets::number_at(item, 1);
    (n <= MAX_COMMAND).then_some(octets::part(item, 3, usize::from(n)))
}

// The payload and the buffer's length of item 4, where both are in their limits.
fn encoding_of(item: &[u8]) -> Option<(&[u8], u16)> {
    let length: u16 = octets::number_at(item, 13);
    let n: u16 = octets::number_at(item, 15 + usize::from(length));
    let fit = length <= MAX_PAYLOAD && n <= MAX_BUFFER;
    fit.then_some((octets::part(item, 15, usize::from(length)), n))
}

// Plays an item, and answers whether it is one that is known.
fn play(item: &[u8], out: &mut Output<impl Write>) -> io::Result<bool>
    ensures { waits out.new ≤ waits out.old + 4111 }
{
    let Ok(kind) = Item::try_from(octets::byte_at(item, 0)) else {
        return Ok(false);
    };
    match kind {
        Item::HeaderDecode => header_decode(item, out)?,
        Item::HeaderEncode => match header_of(item) {
            Some(h) => header_encode(h, octets::byte_at(item, 5), out)?,
            None => return Ok(false),
        },
        Item::CommandDecode => match command_bytes(item) {
            Some(bytes) => command_decode(bytes, out)?,
            None => return Ok(false),
        },
        Item::CommandEncode => match (command_of(item), encoding_of(item)) {
            (Some(c), Some((payload, n))) => command_encode(c, payload, n, out)?,
            _ => return Ok(false),
        },
        Item::NextNumber => out.write_all(&[sequence::next_number(octets::byte_at(item, 1))])?,
    }
    Ok(true)
}

// The codecs' player, with where it writes.
#[derive(Drop)]
struct Codec<W> {
    out: Output<W>,
}

impl<W: Write> Player for Codec<W> {
    fn length_of(&self, bytes: &[u8]) -> usize {
        length_of(bytes)
    }

    fn play(&mut self, item: &[u8]) -> io::Result<bool> {
        let known = play(item, &mut self.out)?;
        self.out.reserve(ROOM)?;
        Ok(known)
    }
}

// Plays the input as far as it goes, and answers where it ended.
// (`replay`'s player has buffers more, and an input of another size.)
fn played(rt: &(impl Input + Print)) -> io::Result<Window>
    ensures { IfOk result (λ w. Within w 65536) }
{
    let mut input = [0; INPUT];
    let mut reader = rt.reader();
    let mut codec = Codec {
        out: Output::new(io::writer(rt)),
    };
    let window = input::played(&mut reader, &mut input, &mut codec)?;
    codec.out.flush()?;
    Ok(window)
}

// The program. What is not played in the end begins with an item that is cut short or unknown.
// (`replay` ends alike: a shared end would be a public function of which no contract can say what it writes to standard error.)
fn main(rt: HostRuntime) -> io::Result<()> {
    let Ok(window) = played(&rt) else {
        let _ = eprintln!(rt; "codec: the transcript cannot be written");
        return Ok(());
    };
    if window.start < window.end {
        let at = window.at;
        eprintln!(rt; "codec: item at byte {at} is cut short or unknown")?;
    }
    Ok(())
}
