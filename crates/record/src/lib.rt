// Records and tables as bytes: oracle/REPLAY.md has the format. A byte past the end reads as 0.
#![tactic(auto)]

ghost use Rattle.std.specs.Prelude.{◌≡◌, ◌+◌, ◌*◌, ◌<◌, ◌≤◌, length, drop, eqb};
ghost use Rattle.picks.specs.Pick.{pick};
ghost use Rattle.octets.specs.Octets.{splice};
ghost use Rattle.protocol.specs.ConnectionTable.{empty_table};
ghost use Rattle.format.specs.Format.{state_number, rows, client_of, transfer_bytes, state_bytes, record_bytes, deadline_of, transfer_of, state_of, record_of, is_record, table_bytes, table_of, is_table};

use protocol::{Connection, SdoClientInfo, SdoServerState, SdoTransferState};

// The deadline of a record's bytes.
// (A part of the transfer that stands alone: who asks when a record is due makes no transfer of its bytes.)
pub fn deadline_of(s: &[u8; 40]) -> Option<u64>
    ensures { result ≡ deadline_of s.now }
{
    if s[25] == 1 {
        Some(octets::number_at::<u64, _>(s, 26))
    } else {
        None
    }
}

// The transfer of a record's bytes.
#[tactic(auto, unfolding(format::specs::Format::transfer_of))]
pub fn transfer_of(s: &[u8; 40]) -> SdoTransferState
    ensures { result ≡ transfer_of s.now }
{
    SdoTransferState {
        transaction: s[13],
        total: octets::number_at(s, 14),
        offset: octets::number_at(s, 18),
        index: octets::number_at(s, 22),
        sub: s[24],
        deadline: deadline_of(s),
        retries: octets::number_at(s, 34),
        stored: s[38] == 1,
    }
}

// The state of a record's bytes.
// (Here the format's numbers become states: each number above 3 is read as a download.)
fn state_of(s: &[u8; 40]) -> SdoServerState
    ensures { result ≡ state_of s.now }
{
    match s[12] {
        0 => SdoServerState::Closed,
        1 => SdoServerState::Opening,
        2 => SdoServerState::Established,
        3 => SdoServerState::SegmentedUpload(transfer_of(s)),
        _ => SdoServerState::SegmentedDownload(transfer_of(s)),
    }
}

// The client of a record's bytes.
pub fn client_of(s: &[u8; 40]) -> SdoClientInfo
    ensures { result ≡ client_of (drop 1 s.now) }
{
    clients::client_of(octets::rest(s, 1))
}

// The record in its bytes.
#[tactic(auto, unfolding(format::specs::Format::record_of))]
pub fn record_of(s: &[u8; 40]) -> Connection
    ensures { result ≡ record_of s.now }
{
    Connection {
        used: s[0] == 1,
        client: client_of(s),
        area: s[9],
        send: s[10],
        receive: s[11],
        state: state_of(s),
    }
}

// The eight records in a table's bytes, 40 bytes each.
pub fn rows(t: &[u8; 320]) -> &[[u8; 40]; 8]
    ensures { result.now ≡ rows 8 0 t.now }
{
    let (rows, _) = t.as_chunks();
    rows.as_array().unwrap()
}

// The table in these bytes.
pub fn table_of(s: &[u8]) -> [Connection; 8]
    ensures { result ≡ table_of s.now }
{
    let bytes = octets::bytes_at(s, 0);
    let rows = rows(&bytes);
    std::array::from_fn(|i| record_of(&rows[i]))
}

// Whether a record's kind, flags and state are in their limits. Without a transfer its bytes are not looked at.
// (Any byte may stand there, so each is compared with a number.)
fn is_record(s: &[u8; 40]) -> bool
    ensures { result ≡ is_record s.now }
{
    let head = (s[0] < 2) & (s[1] < 2);
    if s[12] < 3 {
        head
    } else {
        head & ((s[12] < 5) & ((s[25] < 2) & (s[38] < 2)))
    }
}

// Whether these bytes are those of eight records in their limits.
pub fn is_table(s: &[u8]) -> bool
    ensures { result ≡ is_table s.now }
{
    match s.as_array() {
        Some(t) => rows(t).iter().all(|r| is_record(r)),
        None => false,
    }
}

// A state's number.
// (Two of the states carry a transfer, so no cast gives the format's numbers.)
fn state_number(s: SdoServerState) -> u8
    ensures { result ≡ state_number s }
{
    match s {
        SdoServerState::Closed => 0,
        SdoServerState::Opening => 1,
        SdoServerState::Established => 2,
        SdoServerState::SegmentedUpload(_) => 3,
        SdoServerState::SegmentedDownload(_) => 4,
    }
}

// A transfer's bytes.
fn transfer_bytes(t: SdoTransferState) -> [u8; 26]
    ensures { result ≡ transfer_bytes t }
{
    let deadline = t.deadline;
    let mut b = [0; 26];
    b[0] = t.transaction;
    octets::store(&mut b, 1, t.total);
    octets::store(&mut b, 5, t.offset);
    octets::store(&mut b, 9, t.index);
    octets::copy_at(&mut b, 11, &[t.sub, deadline.is_some() as u8]);
    octets::store(&mut b, 13, deadline.unwrap_or(0));
    octets::store(&mut b, 21, t.retries);
    b[25] = t.stored as u8;
    b
}

// The bytes of a state's transfer, 0 where it has none.
fn state_bytes(s: SdoServerState) -> [u8; 26]
    ensures { result ≡ state_bytes s }
{
    match s {
        SdoServerState::SegmentedUpload(t) | SdoServerState::SegmentedDownload(t) => {
            transfer_bytes(t)
        }
        _ => [0; 26],
    }
}

// A record's bytes take the place of 40.
fn lay_record(out: &mut [u8], c: Connection)
    requires { length out.old ≡ 40 }
    ensures { out.new ≡ record_bytes c }
{
    let client = c.client;
    let state = c.state;
    out[0] = c.used as u8;
    octets::copy_at(out, 1, &clients::client_bytes(client));
    octets::copy_at(out, 9, &[c.area, c.send, c.receive, state_number(state)]);
    octets::copy_at(out, 13, &state_bytes(state));
    octets::store_at(out, 39, 0);
}

// A record's bytes go to a place.
// (`as_chunks_mut` would name the records, but its contract says nothing of what the bytes are after it.)
fn put_record(out: &mut [u8], at: usize, c: Connection)
    requires { at + 40 ≤ length out.old }
    ensures { out.new ≡ splice at (record_bytes c) out.old }
{
    let end = at + 40;
    lay_record(&mut out[at..end], c);
}

// A record is stored at a place of a table's bytes; past the end none is.
// (A test that the place is one of the table's: no number stands for none.)
pub fn store_record(t: &mut [u8; 320], i: usize, c: Connection)
    ensures { t.new ≡ splice (40 * i) (record_bytes c) t.old }
{
    if i < 8 {
        put_record(t, 40 * i, c);
    }
}

// A table's bytes take the place of 320.
fn lay_table(out: &mut [u8], row: [Connection; 8])
    requires { length out.old ≡ 320 }
    ensures { out.new ≡ table_bytes row }
{
    for (i, c) in row.iter().enumerate() {
        put_record(out, 40 * i, *c);
    }
}

// A table's bytes.
pub fn table_bytes(row: [Connection; 8]) -> [u8; 320]
    ensures { result ≡ table_bytes row }
{
    let mut bytes = [0; 320];
    lay_table(&mut bytes, row);
    bytes
}

// A table's bytes are stored where 320 are lent; any other length stays as it is.
pub fn put_table(out: &mut [u8], row: [Connection; 8])
    ensures { out.new ≡ pick (eqb (length out.old) 320) (table_bytes row) out.old }
{
    if out.len() == 320 {
        lay_table(out, row);
    }
}

// The empty table.
pub fn empty_table() -> [Connection; 8]
    ensures { result ≡ empty_table }
{
    std::array::from_fn(|i| connection::fresh(i as u8))
}
