// One connection record, by value: what it says of itself, and how it is made.
#![tactic(auto)]

ghost use Rattle.std.specs.Prelude.{◌≡◌};
ghost use Rattle.protocol.specs.ConnectionTable.{is_closed, is_fresh, fresh, joining};
ghost use Rattle.connection.specs.Among.{is_gone};

use protocol::{Connection, SdoClientInfo, SdoServerState};

// Whether a connection is closed.
// (Which variant a state is, is one matches! for each crate that asks: a function for all of them would take the variant, and be that macro.)
pub fn is_closed(s: SdoServerState) -> bool
    ensures { result ≡ is_closed s }
{
    matches!(s, SdoServerState::Closed)
}

// Whether a record is unused and fresh, but for its area number.
pub fn is_fresh(c: Connection) -> bool
    ensures { result ≡ is_fresh c }
{
    let zeros = SdoClientInfo::Asnd { node: 0, mac: 0 };
    !c.used & (c.client == zeros) & (c.send == 0) & (c.receive == 63) & is_closed(c.state)
}

// An unused record.
pub fn fresh(area: u8) -> Connection
    ensures { result ≡ fresh area }
{
    Connection {
        used: false,
        client: SdoClientInfo::Asnd { node: 0, mac: 0 },
        area,
        send: 0,
        receive: 63,
        state: SdoServerState::Closed,
    }
}

// A joining client's record.
// (A fresh record, but for the two fields that say whose it is.)
pub fn joining(client: SdoClientInfo, area: u8) -> Connection
    ensures { result ≡ joining client area }
{
    Connection {
        used: true,
        client,
        ..fresh(area)
    }
}

// Whether a record is used and closed.
pub fn is_gone(c: Connection) -> bool
    ensures { result ≡ is_gone c }
{
    c.used & is_closed(c.state)
}
