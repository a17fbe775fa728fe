// The answers to commands, reads by index, and the segment size (handlers.rs). The client's own share of the area is lent to the copy at an upload's start.
#![tactic(auto)]

ghost use Rattle.std.specs.Prelude.{◌≡◌, List, [], ℕ, length, take, ltb};
ghost use Rattle.picks.specs.Pick.{pick};
ghost use Rattle.octets.specs.Octets.{le};
ghost use Rattle.protocol.specs.Constants.{abort_number};
ghost use Rattle.protocol.specs.DictionaryImage.{value_of};
ghost use Rattle.protocol.specs.TransferRecord.{body_bytes, body_part, told_action, aborts, replies, read_value, read_by_index, max_segment_size};

use protocol::{
    AbortCode, Action, Body, CommandId, CommandLayerHeader, Connection, Entry,
    MAX_EXPEDITED_PAYLOAD, SdoCommand, SdoServerState, SdoTransferState, Segmentation,
};

// The header of an empty Nil response: a header under that id says only what differs.
pub const NIL: CommandLayerHeader = CommandLayerHeader {
    transaction: 0,
    response: true,
    aborted: false,
    segmentation: Segmentation::Expedited,
    id: CommandId::Nil,
    size: 0,
};

// An abort: the record is closed and its numbers are reset.
// (The code stays a number: an enum would ask more of callers.)
// (Its header is by update, as those of other answers: each names what differs.)
pub fn abort(c: Connection, transaction: u8, code: u32) -> Action
    ensures { (share image : List ℕ) → told_action result share image ≡ aborts c share image transaction code }
{
    let header = CommandLayerHeader {
        transaction,
        aborted: true,
        size: 4,
        ..NIL
    };
    Action {
        connection: state::moved(c, 0, 63, SdoServerState::Closed),
        command: SdoCommand {
            header,
            total: None,
        },
        body: Body::Code(code),
    }
}

// Where an answer goes: the client's record, and the transaction that the answer names.
#[derive(Clone, Copy)]
pub struct Asked {
    pub connection: Connection,
    pub transaction: u8,
}

impl Asked {
    // Its abort, by one of our codes.
    pub fn abort(self, code: AbortCode) -> Action
        ensures { (share image : List ℕ) → told_action result share image ≡ aborts self.connection share image self.transaction (abort_number code) }
    {
        abort(self.connection, self.transaction, u32::from(code))
    }

    // An Expedited answer under id Nil, whose payload of this size stands in a body.
    fn reply(self, size: u16, body: Body) -> Action
        ensures { (share image : List ℕ) → length (body_bytes share image body) ≡ size → told_action result share image ≡ replies self.connection share image self.transaction (body_bytes share image body) }
    {
        let header = CommandLayerHeader {
            transaction: self.transaction,
            size,
            ..NIL
        };
        Action {
            connection: self.connection,
            command: SdoCommand {
                header,
                total: None,
            },
            body,
        }
    }

    // The empty answer to a Nil and to every write.
    pub fn acknowledge(self) -> Action
        ensures { (share image : List ℕ) → told_action result share image ≡ replies self.connection share image self.transaction [] }
    {
        self.reply(0, Body::Nothing)
    }
}

// A read of an entry: its value as a part of the image, or copied into the share and sent in pieces.
// (Share, image and clock stay parameters: as a struct by `&mut` its maker does not prove, by value each function takes it apart and makes it anew.)
// (Index and sub stay two, as the lookup takes them and the transfer keeps them.)
#[tactic(auto, unfolding(protocol::specs::TransferRecord::read_value, protocol::specs::Constants::PIECE, picks::specs::Pick::pick))]
fn read_entry(
    asked: Asked,
    share: &mut [u8],
    image: &[u8],
    clock: u64,
    index: u16,
    sub: u8,
    e: Entry,
) -> Action
    ensures { told_action result share.new image.now ≡ read_value asked.connection share.old image.now clock asked.transaction index sub (value_of image.now e) }
{
    let value = entries::value(image, e);
    let total = value.len() as u32;
    if total <= MAX_EXPEDITED_PAYLOAD {
        return asked.reply(total as u16, Body::Image(e.body, e.length));
    }
    octets::copy_at(share, 0, value);
    let t = SdoTransferState {
        transaction: asked.transaction,
        total,
        offset: 0,
        index,
        sub,
        deadline: None,
        retries: 0,
        stored: false,
    };
    state::advance(asked.connection, image, clock, t)
}

// ReadByIndex.
// (What is asked and the payload stay two, here and below: an answer goes to the one, and the other is read once.)
#[tactic(auto, unfolding(protocol::specs::TransferRecord::read_by_index, protocol::specs::TransferRecord::read_entry, picks::specs::Pick::pick))]
pub fn read_by_index(
    asked: Asked,
    share: &mut [u8],
    image: &[u8],
    clock: u64,
    payload: &[u8],
) -> Action
    ensures { told_action result share.new image.now ≡ read_by_index asked.connection share.old image.now clock asked.transaction payload.now }
{
    if payload.len() < 4 {
        return asked.abort(AbortCode::InvalidCommand);
    }
    let index: u16 = octets::number_at(payload, 0);
    let sub = octets::byte_at(payload, 2);
    match entries::readable(dictionary::lookup(image, index, sub)) {
        Err(code) => asked.abort(code),
        Ok(e) => read_entry(asked, share, image, clock, index, sub, e),
    }
}

// The client's own segment size, 0 if absent.
// (0 and no None: the answer holds the number 0 for a size that is absent.)
#[tactic(auto, unfolding(picks::specs::Pick::pick))]
fn client_size(payload: &[u8]) -> u16
    ensures { result ≡ pick (ltb (length payload.now) 2) 0 (le (take 2 payload.now)) }
{
    if payload.len() < 2 {
        return 0;
    }
    octets::number_at(payload, 0)
}

// MaxSegmentSize: the client's size, then ours.
#[tactic(auto, unfolding(protocol::specs::TransferRecord::max_segment_size, protocol::specs::Constants::PIECE, octets::specs::Octets::le_bytes))]
pub fn max_segment_size(asked: Asked, payload: &[u8]) -> Action
    ensures { (share image : List ℕ) → told_action result share image ≡ max_segment_size asked.connection share image asked.transaction payload.now }
{
    let ours = MAX_EXPEDITED_PAYLOAD as u16;
    asked.reply(4, Body::Sizes(client_size(payload), ours))
}

// An answer's payload as a part of the image for an Expedited answer, and as a part of the client's share for a piece; one made of numbers stands in neither.
#[tactic(auto, unfolding(picks::specs::Pick::pick))]
pub fn payload<'a>(share: &'a [u8], image: &'a [u8], body: Body) -> &'a [u8]
    ensures { result.now ≡ body_part share.now image.now body }
{
    match body {
        Body::Image(at, n) => octets::part(image, at as usize, n as usize),
        Body::Share(at, n) => octets::part(share, at as usize, n as usize),
        Body::Nothing | Body::Code(_) | Body::Sizes(_, _) => &[],
    }
}
