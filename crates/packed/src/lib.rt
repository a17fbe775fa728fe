// The table in its 320 bytes (oracle/REPLAY.md): whether they are a sound table's, and whether a tick finds nothing to do.
#![tactic(auto)]

ghost use Rattle.std.specs.Prelude.{◌≡◌, ◌&&◌};
ghost use Rattle.picks.specs.Pick.{every};
ghost use Rattle.protocol.specs.ConnectionTable.{sound_table};
ghost use Rattle.format.specs.Format.{record_of, is_table, table_of};
ghost use Rattle.packed.specs.Packed.{is_quiet};

use records::Record;

// Whether the bytes are those of a table, and the table is sound.
#[tactic(auto, unfolding(format::specs::Format::table_of))]
pub fn is_sound(t: &[u8; 320]) -> bool
    ensures { result ≡ (is_table t.now && sound_table (table_of t.now)) }
{
    record::is_table(t) && records::is_sound(record::rows(t))
}

// Whether a tick finds nothing to do for a record: it is not due, and is not a closed one that is used.
// (The state's byte is compared with Closed's number: no state is made of a record that nobody serves.)
fn is_quiet_record(r: &[u8; 40], clock: u64) -> bool
    ensures { result ≡ is_quiet clock (record_of r.now) }
{
    if r.is_used() {
        let gone = r[12] == 0;
        !transfers::is_past(r.deadline(), clock) & !gone
    } else {
        true
    }
}

// Whether a tick finds nothing to do.
// (One line, of another test than the searches': a function of the test would be `all` itself.)
pub fn is_quiet(t: &[u8; 320], clock: u64) -> bool
    ensures { result ≡ every (is_quiet clock) (table_of t.now) }
{
    record::rows(t).iter().all(|r| is_quiet_record(r, clock))
}
