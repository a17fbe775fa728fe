// Calls the server many times, with its row by value or lent, for measuring: tools/lent-cost runs it. Standard input's first byte says which call: r, t or q by value, R, T or Q lent. It prints how often it called, and whether a client has a record then.
#![tactic(auto)]

use protocol::{ANSWER_MIN, AREA, Connection, Refusal, SdoClientInfo};
use std::io;
use std::io::Read;

// The length of an image with no entry.
const IMAGE: usize = 2;

// How often it is called.
const CALLS: u64 = 200000;

// Which call is made: with the row by value, or lent.
#[derive(Clone, Copy)]
enum Call {
    Request,
    Tick,
    Query,
    LentRequest,
    LentTick,
    LentQuery,
}

// The call of a letter: where no other has it, a query, which is lent if the letter is a capital.
// (Any letter is a call, so From and no TryFrom.)
impl From<u8> for Call {
    fn from(letter: u8) -> Self {
        match letter {
            b'r' => Call::Request,
            b't' => Call::Tick,
            b'R' => Call::LentRequest,
            b'T' => Call::LentTick,
            _ if letter < b'a' => Call::LentQuery,
            _ => Call::Query,
        }
    }
}

// The row after a query: as it was, where it has no deadline.
fn asked(row: [Connection; 8], told: Result<Option<u64>, Refusal>) -> [Connection; 8] {
    match told {
        Ok(None) => row,
        _ => record::empty_table(),
    }
}

// A call of the kind that was asked for, and the row after it.
fn turn(
    call: Call,
    row: [Connection; 8],
    area: &mut [u8; AREA],
    image: &mut [u8; IMAGE],
    answer: &mut [u8; ANSWER_MIN],
) -> [Connection; 8] {
    let client = SdoClientInfo::Asnd { node: 1, mac: 1 };
    let request = [1, 1, 0, 0];
    match call {
        Call::Request => {
            server::handle_request(row, area, image, answer, client, 0, &request).table
        }
        Call::Tick => server::tick(row, area, image, answer, 0).table,
        Call::Query => asked(row, server::next_action_time(row)),
        Call::LentRequest => {
            owned::handle_request(row, area, image, answer, client, 0, &request).table
        }
        Call::LentTick => owned::tick(row, area, image, answer, 0).table,
        Call::LentQuery => asked(row, owned::next_action_time(row)),
    }
}

fn main(rt: HostRuntime) -> io::Result<()> {
    let mut area = [0u8; AREA];
    let mut image = [0u8; IMAGE];
    let mut answer = [0u8; ANSWER_MIN];
    let mut letter = [0u8; 1];
    rt.reader().read(&mut letter)?;
    let call = Call::from(letter[0]);
    let mut row = record::empty_table();
    for _ in 0..CALLS {
        row = turn(call, row, &mut area, &mut image, &mut answer);
    }
    let clients = if row[0].used {
        "one client"
    } else {
        "no client"
    };
    println!(rt; "{CALLS} calls, {clients}")
}
