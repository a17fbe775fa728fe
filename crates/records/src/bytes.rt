// A record in its 40 bytes: each question is asked of the bytes where they are, and no record is made of them.
ghost use Rattle.std.specs.Prelude.{◌≡◌, refl, map};
ghost use Rattle.protocol.specs.declared.SdoClientInfo.TheVariants.{Asnd};
ghost use Rattle.protocol.specs.ConnectionTable.{same_client, sound_state};
ghost use Rattle.format.specs.Format.{record_of};

use crate::Record;
use protocol::{Connection, SdoClientInfo};

// Whether a record's client is ASnd with zeros: its eight bytes are 0.
fn is_nobody(r: &[u8; 40]) -> bool
    ensures { result ≡ same_client (record_of r.now).client (Asnd 0 0) }
{
    octets::number_at::<u64, _>(r, 1) == 0
}

// Whether a record's transfer, if it has one, is sound.
// (Any byte may stand for the state, so it is compared as a number; a transfer is made only where the state has one.)
#[tactic(auto, unfolding(picks::specs::Pick::pick, format::specs::Format::record_of), using(crate::proofs::Fields::sound_is))]
fn sound_state(r: &[u8; 40]) -> bool
    ensures { result ≡ sound_state (record_of r.now).state }
{
    match r[12] {
        0..=2 => true,
        3 => transfers::sound_upload(record::transfer_of(r)),
        _ => transfers::sound_download(record::transfer_of(r)),
    }
}

// (With a record made of the bytes to ask whether it follows another, a deadline query of no client takes four times the instructions, and to ask whether it is a client's, a handshake 24 % more.)
impl Record for [u8; 40] {
    ghost value = { record_of };

    ghost values = { map record_of };

    ghost laws = { λ rows. refl };

    #[tactic(auto, unfolding(format::specs::Format::record_of))]
    fn is_used(&self) -> bool {
        self[0] == 1
    }

    #[tactic(auto, unfolding(format::specs::Format::record_of))]
    fn client(&self) -> SdoClientInfo {
        record::client_of(self)
    }

    #[tactic(auto, unfolding(format::specs::Format::record_of))]
    fn area(&self) -> u8 {
        self[9]
    }

    // (Asked of a record made of the bytes, as `connection` asks it, a tick of no client takes 34 % more instructions.)
    // (The state's byte is compared with its number, here and below: any byte may stand there, and no state is made of it.)
    #[tactic(auto, unfolding(format::specs::Format::record_of), using(crate::proofs::Fields::closed_is))]
    fn is_fresh(&self) -> bool {
        !self.is_used() & is_nobody(self) & (self[10] == 0) & (self[11] == 63) & (self[12] == 0)
    }

    // (Asked of a record made of the bytes, as `transfers` asks it, a deadline query of eight clients takes 87 % more instructions.)
    #[tactic(auto, unfolding(format::specs::Format::record_of, protocol::specs::ConnectionTable::sound_record))]
    fn is_sound(&self) -> bool {
        (self[10] <= 63) & (self[11] <= 63) & sound_state(self)
    }

    // (Asked of a record made of the bytes, as `transfers` asks it, a deadline query of eight clients takes 92 % more instructions.)
    #[tactic(auto, unfolding(picks::specs::Pick::pick), using(crate::proofs::Fields::due_is))]
    fn deadline(&self) -> Option<u64> {
        if !self.is_used() | (self[12] < 3) {
            None
        } else {
            record::deadline_of(self)
        }
    }

    fn record(&self) -> Connection {
        record::record_of(self)
    }
}
