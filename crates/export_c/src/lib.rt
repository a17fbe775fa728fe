// The three calls for C: each is the call of the same name of crate `export`, with the same contract, as a function of the archive.
#![tactic(auto)]

ghost use Rattle.std.specs.Prelude.{◌≡◌};
ghost use Rattle.export.specs.Exported.{left, request_bytes, tick_bytes, query_bytes};

use outcomes::{SdoAnswer, SdoDeadline};

// A request from a client.
#[unsafe(no_mangle)]
pub extern "C" fn sdo_handle_request(
    table: &mut [u8],
    area: &mut [u8],
    image: &mut [u8],
    answer: &mut [u8],
    client: u64,
    clock: u64,
    request: &[u8],
) -> SdoAnswer
    ensures { left result table.new area.new image.new answer.new ≡ request_bytes client clock request.now image.old answer.old table.old area.old }
{
    export::sdo_handle_request(table, area, image, answer, client, clock, request)
}

// A tick of the clock.
#[unsafe(no_mangle)]
pub extern "C" fn sdo_tick<'a>(
    table: &mut [u8],
    area: &'a [u8],
    image: &'a [u8],
    answer: &mut [u8],
    clock: u64,
) -> SdoAnswer
    ensures { left result table.new area.now image.now answer.new ≡ tick_bytes clock image.now answer.old table.old area.now }
{
    export::sdo_tick(table, area, image, answer, clock)
}

// The earliest deadline.
#[unsafe(no_mangle)]
pub extern "C" fn sdo_next_action_time(table: &[u8]) -> SdoDeadline
    ensures { result ≡ query_bytes table.now }
{
    export::sdo_next_action_time(table)
}
