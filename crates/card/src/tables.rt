// The layouts of the DS 301 tables that the Rust's comments cite, as far as the Rust follows them: the flags of Table 54 stand where document 01 has them.
use crate::bench;
use crate::bench::Bench;
use crate::calls::OBJECT;
use crate::rows::Card;
use protocol::SdoServerState;
use std::io;

// Tables 48 and 52 to 54.
pub const LAYOUTS: &str = "Tables 52 and 53, sequence header: numbers and marks; two reserved octets
H header numbers 1, 2, marks 0, 0| 01 02 00 00| 04 08 00 00
H header numbers 1, 2, marks 1, 1| 01 02 01 01| 05 09 00 00
H header numbers 1, 2, marks 2, 2| 01 02 02 02| 06 0A 00 00
H header numbers 1, 2, marks 3, 3| 01 02 03 03| 07 0B 00 00
R header| FF FA 12 34| 3F 3E 03 02
Table 54, command: Expedited, Initiate with data size, Segment, Complete, abort
C command| 00 07 10 00 02 00 00 00 34 12| 07 01 00 00 00 02 00 34 12
C command| 00 07 50 02 01 00 00 00 AD 05 00 00 34| 07 01 00 01 02 01 00 AD 05 00 00 34
C command| 00 07 90 02 01 00 00 00 34| 07 01 00 02 02 01 00 34
C command| 00 07 D0 02 01 00 00 00 34| 07 01 00 03 02 01 00 34
C command| 00 07 30 00 04 00 00 00 00 00 02 06| 07 01 01 00 00 04 00 00 00 02 06
Table 48, command ids: read and written again; FF stands for an unknown one
I id 00 Nil| 00| 00
I id 01 WriteByIndex| 01| 01
I id 02 ReadByIndex| 02| 02
I id 03 WriteAllByIndex| 03| 03
I id 04 ReadAllByIndex| 04| 04
I id 05 WriteByName| 05| 05
I id 06 ReadByName| 06| 06
I id 20 FileWrite| 20| 20
I id 21 FileRead| 21| 21
I id 31 WriteMultipleParamByIndex| 31| 31
I id 32 ReadMultipleParamByIndex| 32| 32
I id 40 Abort| 40| 40
I id 70 MaxSegmentSize| 70| 70
I id 07, not in the table| 07| FF";

// Table 61: a read's payload is index, sub-index and a reserved byte.
const READS: &str =
    "a new client| 00 01 00 00| 01 01 00 00 00 00 10 00 00 00 00 00| 00 00 00 00|Opening
Table 61, ReadByIndex: 2001, sub-index 1, a reserved byte of FF| 02 06 00 00 00 07 00 02 04 00 00 00 01 20 01 FF| 06 06 00 00 00 07 10 00 02 00 00 00 34 12| 00 00 00 00|dropped
a new client| 00 01 00 00| 01 01 00 00 00 00 10 00 00 00 00 00| 00 00 00 00|Opening
the same without the reserved byte| 02 06 00 00 00 07 00 02 03 00 00 00 01 20 01| FE 04 00 00 00 07 30 00 04 00 00 00 01 00 04 05| 00 00 00 00|dropped";

// Table 59: a write's payload is the same, and then the data.
const WRITE: &str =
    "Table 59, WriteByIndex: 2001, sub-index 1, reserved FF, then 34 12| 02 06 00 00 00 07 00 01 06 00 00 00 01 20 01 FF 34 12| 06 06 00 00 00 07 10 00 00 00 00 00| 00 00 00 00|dropped";

impl<P: Print> Card<'_, P> {
    // Tables 61 and 59.
    pub fn payload_rows(&mut self) -> io::Result<()> {
        Bench::new(record::empty_table(), OBJECT, &OBJECT).script(self, READS)?;
        let mut image = OBJECT;
        octets::copy_at(&mut image, 14, &[0, 0]);
        let t = bench::in_state(0, 0, SdoServerState::Opening);
        Bench::new(t, image, &OBJECT).script(self, WRITE)
    }
}
