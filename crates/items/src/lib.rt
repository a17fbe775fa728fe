// The items of a call script: oracle/REPLAY.md has the format. How long one is, and a call's client, clock and request.
#![tactic(auto)]

ghost use Rattle.std.specs.Prelude.{◌≡◌, ◌≤◌};
ghost use Rattle.picks.specs.Pick.{pick};
ghost use Rattle.format.specs.Format.{number_at};
ghost use Rattle.items.specs.Items.{client_in, clock_in, request_in, is_image, length_of};
ghost use Rattle.items.specs.Kinds.{item_of};

use protocol::SdoClientInfo;

// What an item is: a call, or something that is lent.
#[derive(Clone, Copy, Debug, PartialEq, Eq)]
pub enum Item {
    Request,
    Tick,
    Query,
    Image,
    Table,
    Area,
    Lengths,
}

// A number that no item has.
#[derive(Clone, Copy, Debug, PartialEq, Eq)]
pub struct UnknownItem(pub u8);

impl TryFrom<u8> for Item {
    type Error = UnknownItem;

    ghost try_from_gives = { λ number result. result ≡ item_of number };

    // (Here the format's numbers become items.)
    #[tactic(auto, unfolding(crate::specs::Kinds::item_of, crate::specs::Items::by_kind, picks::specs::Pick::pick))]
    fn try_from(number: u8) -> Result<Self, UnknownItem> {
        match number {
            1 => Ok(Item::Request),
            2 => Ok(Item::Tick),
            3 => Ok(Item::Query),
            4 => Ok(Item::Image),
            5 => Ok(Item::Table),
            6 => Ok(Item::Area),
            7 => Ok(Item::Lengths),
            _ => Err(UnknownItem(number)),
        }
    }
}

// The image's length in item 4. One above its limit counts as 0: no image is waited for, and the item is unknown.
// (0 and no None: how long an item is is a number for every item.)
#[tactic(auto, unfolding(picks::specs::Pick::pick))]
fn image_length(item: &[u8]) -> usize
    ensures value { result ≡ pick (is_image item.now) (number_at 4 1 item.now) 0 }
    ensures upper_bound { result ≤ 131072 }
{
    let n: u32 = octets::number_at(item, 1);
    if n <= 131072 {
        return n as usize;
    }
    0
}

// How long the item at the start of these bytes is. Where they end before the bytes that tell it, the answer is still more than they are.
// (The format says how long each item is, and the codecs' items have other lengths.)
#[tactic(auto, unfolding(crate::specs::Items::length_of, crate::specs::Items::by_kind, crate::specs::Kinds::item_of, picks::specs::Pick::pick))]
pub fn length_of(s: &[u8]) -> usize
    ensures { result ≡ length_of s.now }
{
    match Item::try_from(octets::byte_at(s, 0)) {
        Ok(Item::Request) => 19 + (octets::number_at::<u16, _>(s, 17) as usize),
        Ok(Item::Tick) => 9,
        Ok(Item::Query) => 1,
        Ok(Item::Image) => 5 + image_length(s),
        Ok(Item::Table) => 321,
        Ok(Item::Area) => 2,
        Ok(Item::Lengths) => 10,
        Err(UnknownItem(_)) => 1,
    }
}

// The client of item 1.
// (`record::client_of` is this call too: each says where a client stands in its format.)
pub fn client_of(item: &[u8]) -> SdoClientInfo
    ensures { result ≡ client_in item.now }
{
    clients::client_of(octets::rest(item, 1))
}

// The request of item 1.
pub fn request_of(item: &[u8]) -> &[u8]
    ensures { result.now ≡ request_in item.now }
{
    octets::part(item, 19, octets::number_at::<u16, _>(item, 17) as usize)
}

// The clock of item 1 or 2.
#[tactic(auto, unfolding(crate::specs::Items::by_kind, crate::specs::Kinds::item_of, picks::specs::Pick::pick))]
pub fn clock_of(item: &[u8]) -> u64
    ensures { result ≡ clock_in item.now }
{
    match Item::try_from(octets::byte_at(item, 0)) {
        Ok(Item::Request) => octets::number_at(item, 9),
        _ => octets::number_at(item, 1),
    }
}
