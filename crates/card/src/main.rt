// Plays every row of document 01's bench card on the proved code, and the layouts of the DS 301 tables that the Rust cites, and prints what came out of each.
#![tactic(auto)]

mod bench;
mod calls;
mod codecs;
mod rows;
mod tables;

use crate::rows::Card;
use std::io;

const CODEC_ROWS: &str = "Bench card: the rows that the codec decides, bytes in hex. A header is
read to numbers and marks, a command to transaction, response, aborted,
segmentation, id, size and payload, an undecodable one to its transaction.
H header numbers 5, 0, marks 2, 2| 05 00 02 02| 16 02 00 00
N after 63| 3F| 00
R header| 00 01 00 00| 00 00 00 01
H header numbers 0, 0, marks 1, 1| 00 00 01 01| 01 01 00 00
A answer, id and data| 00| 00 00 10 00 00 00 00 00
R header| 02 06 00 00| 00 01 02 02
C command| 00 07 00 02 04 00 00 00 01 20 01 00| 07 00 00 00 02 04 00 01 20 01 00
H header numbers 1, 1, marks 2, 2| 01 01 02 02| 06 06 00 00
A answer, id and data| 07 34 12| 00 07 10 00 02 00 00 00 34 12
H header numbers 63, 1, marks 2, 0| 3F 01 02 00| FE 04 00 00
X abort, id and code| 07 00 00 02 06| 00 07 30 00 04 00 00 00 00 00 02 06
C undecodable| 05 07 00| 05
H header numbers 63, 0, marks 2, 0| 3F 00 02 00| FE 00 00 00";

// The bytes of a page: no text of the card has as many.
const PAGE: usize = 2048;

// Prints bytes in hex: a function of `show` that cannot fail lays them on a page, and the page is printed as far as it was laid.
// (Not by Display, as in `mark`.)
fn print_laid<F: FnOnce(&mut [u8]) -> usize>(rt: &impl Print, lay: F) -> io::Result<()>
    requires { F.IsAlwaysCallable lay }
{
    let mut page = [0; PAGE];
    let end = lay(&mut page);
    rt.write_all(octets::part(&page, 0, end))
}

impl<P: Print> Card<'_, P> {
    // The rows that are calls.
    fn call_rows(&mut self) -> io::Result<()> {
        println!(self.rt;
            "Bench card: the rows that are calls. The whole answer buffer is compared,"
        )?;
        println!(self.rt;
            "with the records in use and the image; long frames are printed in part."
        )?;
        self.reading_rows()?;
        self.transfer_rows()?;
        self.length_rows()
    }

    // The rows of the DS 301 tables.
    fn table_rows(&mut self) -> io::Result<()> {
        println!(self.rt; "DS 301: the tables that the Rust cites, as far as it follows them.")?;
        self.codec_rows(tables::LAYOUTS)?;
        self.payload_rows()
    }
}

fn main(rt: HostRuntime) -> io::Result<()> {
    let mut card = Card::new(&rt);
    card.codec_rows(CODEC_ROWS)?;
    card.call_rows()?;
    card.table_rows()?;
    card.close()
}
