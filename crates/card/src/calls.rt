// The rows of the bench card that are calls.
ghost use Rattle.std.specs.Prelude.{◌≤◌};

use crate::bench;
use crate::bench::{Bench, Call, Due, Left};
use crate::rows::Card;
use protocol::{Refusal, SdoServerState, SdoTransferState};
use std::io;

// Byte i of an image becomes i times 31 plus i / 251, modulo 256.
fn fill(image: &mut [u8]) {
    for (i, byte) in image.iter_mut().enumerate() {
        *byte = ((i % 256 * 31 + i / 251 % 256) % 256) as u8;
    }
}

// Makes an image that of one object, 2001/1, whose value goes to its end.
fn put_object(image: &mut [u8]) {
    fill(image);
    octets::copy_at(image, 0, &[1, 0, 0x01, 0x20, 1, 0, 14, 0, 0, 0]);
    let n = (image.len().saturating_sub(14) % 65536) as u16;
    octets::store(image, 10, n);
    octets::store(image, 12, n);
}

// An image of one object of two bytes, 2001/1, which holds 34 12.
pub const OBJECT: [u8; 16] = [1, 0, 0x01, 0x20, 1, 0, 14, 0, 0, 0, 2, 0, 2, 0, 0x34, 0x12];

const HELD: &str =
    "a new client| 00 01 00 00| 01 01 00 00 00 00 10 00 00 00 00 00| 00 00 00 00|Opening
then a read of 2001/1, which holds 34 12| 02 06 00 00 00 07 00 02 04 00 00 00 01 20 01 00| 06 06 00 00 00 07 10 00 02 00 00 00 34 12| 00 00 00 00|dropped";

const ABSENT: &str =
    "a new client| 00 01 00 00| 01 01 00 00 00 00 10 00 00 00 00 00| 00 00 00 00|Opening
then the same read, 2001 absent| 02 06 00 00 00 07 00 02 04 00 00 00 01 20 01 00| FE 04 00 00 00 07 30 00 04 00 00 00 00 00 02 06| 00 00 00 00|dropped";

const UNDECODABLE: &str =
    "command 05 07 00| 00 00 00 00 05 07 00| FC 00 00 00 00 05 30 00 04 00 00 00 01 00 04 05| 00 00 00 00|dropped";

const ONE_FRAME: &str =
    "a new client| 00 01 00 00| 01 01 00 00 00 00 10 00 00 00 00 00| 00 00 00 00|Opening
a read of 1452 bytes: one Expedited| 02 06 00 00 00 07 00 02 04 00 00 00 01 20 01 00| 06 06 00 00 00 07 10 00 AC 05 00 00| 0E 00 AC 05|dropped";

const ONE_BYTE_MORE: &str =
    "a new client| 00 01 00 00| 01 01 00 00 00 00 10 00 00 00 00 00| 00 00 00 00|Opening
a read of 1453 bytes: Initiate of 1452| 02 06 00 00 00 07 00 02 04 00 00 00 01 20 01 00| 06 06 00 00 00 07 50 02 AC 05 00 00 AD 05 00 00| 0E 00 AC 05|upload
acknowledged: Complete of 1| 06 0A 00 00| 0A 0A 00 00 00 07 D0 02 01 00 00 00| BA 05 01 00|dropped";

const TWO_PIECES: &str =
    "a new client| 00 01 00 00| 01 01 00 00 00 00 10 00 00 00 00 00| 00 00 00 00|Opening
a read of 2904 bytes: Initiate of 1452| 02 06 00 00 00 07 00 02 04 00 00 00 01 20 01 00| 06 06 00 00 00 07 50 02 AC 05 00 00 58 0B 00 00| 0E 00 AC 05|upload
acknowledged: Complete of 1452| 06 0A 00 00| 0A 0A 00 00 00 07 D0 02 AC 05 00 00| BA 05 AC 05|dropped";

const SIX_PIECES: &str =
    "a new client| 00 01 00 00| 01 01 00 00 00 00 10 00 00 00 00 00| 00 00 00 00|Opening
a read of 8192 bytes, six pieces: Initiate of 1452| 02 06 00 00 00 07 00 02 04 00 00 00 01 20 01 00| 06 06 00 00 00 07 50 02 AC 05 00 00 00 20 00 00| 0E 00 AC 05|upload
acknowledged: Segment of 1452| 06 0A 00 00| 0A 0A 00 00 00 07 90 02 AC 05 00 00| BA 05 AC 05|upload
acknowledged: Segment of 1452| 0A 0E 00 00| 0E 0E 00 00 00 07 90 02 AC 05 00 00| 66 0B AC 05|upload
acknowledged: Segment of 1452| 0E 12 00 00| 12 12 00 00 00 07 90 02 AC 05 00 00| 12 11 AC 05|upload
acknowledged: Segment of 1452| 12 16 00 00| 16 16 00 00 00 07 90 02 AC 05 00 00| BE 16 AC 05|upload
acknowledged: Complete of 932| 16 1A 00 00| 1A 1A 00 00 00 07 D0 02 A4 03 00 00| 6A 1C A4 03|dropped";

const PAST_THE_TOTAL: &str =
    "download total 10, offset 6: Segment of 5| 06 0A 00 00 00 07 80 01 05 00 00 00 00 00 00 00 00| FE 08 00 00 00 07 30 00 04 00 00 00 10 00 07 06| 00 00 00 00|dropped";

const SHORT_OF_THE_TOTAL: &str =
    "the same: Complete of 3| 06 0A 00 00 00 07 C0 01 03 00 00 00 00 00 00| FE 08 00 00 00 07 30 00 04 00 00 00 13 00 07 06| 00 00 00 00|dropped";

const THE_TOTAL: &str =
    "the same: Complete of 4, which writes 01 to 0A into 2001/1| 06 0A 00 00 00 07 C0 01 04 00 00 00 07 08 09 0A| 0A 0A 00 00 00 07 10 00 00 00 00 00| 00 00 00 00|dropped";

impl<P: Print> Card<'_, P> {
    // The rows of a read answered in one frame, of a value of two bytes and of one that is absent, and of a command that is none.
    pub fn reading_rows(&mut self) -> io::Result<()> {
        let t = record::empty_table();
        Bench::new(t, OBJECT, &OBJECT).script(self, HELD)?;
        Bench::new(t, [0, 0], &[0, 0]).script(self, ABSENT)?;
        Bench::new(t, [0, 0], &[0, 0]).script(self, UNDECODABLE)
    }

    // A read of the whole value of an image, which has at most 65,536 bytes.
    // (A bench holds its image, and the size of a type has to stay in bounds, which no const parameter says by itself.)
    fn upload_row<const N: usize>(&mut self, mut image: [u8; N], text: &str) -> io::Result<()>
        requires { N ≤ 65536 }
    {
        put_object(&mut image);
        Bench::new(record::empty_table(), image, &image).script(self, text)
    }

    // The rows of uploads; a value stands behind 14 bytes of its image.
    fn upload_rows(&mut self) -> io::Result<()> {
        self.upload_row([0; 14 + 1452], ONE_FRAME)?;
        self.upload_row([0; 14 + 1453], ONE_BYTE_MORE)?;
        self.upload_row([0; 14 + 2904], TWO_PIECES)?;
        self.upload_row([0; 14 + 8192], SIX_PIECES)
    }

    // An upload that is due at 1,000,000 with no retries left.
    fn tick_row(&mut self) -> io::Result<()> {
        let transfer = SdoTransferState {
            transaction: 9,
            total: 2000,
            offset: 1452,
            index: 0x2001,
            sub: 1,
            deadline: Some(1000000),
            retries: 0,
            stored: true,
        };
        let t = bench::in_state(5, 7, SdoServerState::SegmentedUpload(transfer));
        let mut bench = Bench::new(t, [0, 0], &[0, 0]);
        let nothing = Due {
            outcome: Ok(None),
            left: Left::Upload,
        };
        let area = [0; 65536];
        bench.ticks(self, &area, 999999, nothing)?;
        let head = " FE 00 00 00 00 09 30 00 04 00 00 00 00 00 04 05";
        bench.ticks(self, &area, 1000000, Due::answer(head, &[], Left::Dropped))
    }

    // A request in a download of ten bytes to 2001/1, of which six are there.
    fn download_row(&mut self, body: &[u8], text: &str) -> io::Result<()> {
        let image = [
            1, 0, 0x01, 0x20, 1, 0, 14, 0, 0, 0, 10, 0, 10, 0, 0, 0, 0, 0, 0, 0, 0, 0, 0, 0,
        ];
        let mut object = image;
        octets::copy_at(&mut object, 14, body);
        let transfer = SdoTransferState {
            transaction: 7,
            total: 10,
            offset: 6,
            index: 0x2001,
            sub: 1,
            deadline: Some(5),
            retries: 0,
            stored: false,
        };
        let t = bench::in_state(1, 1, SdoServerState::SegmentedDownload(transfer));
        Bench::new(t, image, &object).script(self, text)
    }

    // The rows of downloads.
    fn download_rows(&mut self) -> io::Result<()> {
        self.download_row(&[], PAST_THE_TOTAL)?;
        self.download_row(&[], SHORT_OF_THE_TOTAL)?;
        self.download_row(&[1, 2, 3, 4, 5, 6, 7, 8, 9, 10], THE_TOTAL)
    }

    // The rows of uploads, of the tick and of downloads.
    pub fn transfer_rows(&mut self) -> io::Result<()> {
        self.upload_rows()?;
        self.tick_row()?;
        self.download_rows()
    }

    // A request of N bytes, a Nil of transaction 7 with zeros behind it.
    fn length_row<const N: usize>(
        &mut self,
        what: &str,
        mut bytes: [u8; N],
        due: Due,
    ) -> io::Result<()> {
        octets::store_at(&mut bytes, 5, 7);
        let call = Call {
            what,
            bytes: &bytes,
            due,
        };
        Bench::new(record::empty_table(), [0, 0], &[0, 0]).asks(self, &mut [0; 65536], call)
    }

    // A request of 1,500 bytes is served, one of 1,501 is refused with 6.
    pub fn length_rows(&mut self) -> io::Result<()> {
        let head = " FC 00 00 00 00 07 10 00 00 00 00 00";
        let served = Due::answer(head, &[], Left::Dropped);
        let refused = Due {
            outcome: Err(Refusal::Long),
            left: Left::Dropped,
        };
        self.length_row("a request of 1500 bytes", [0; 1500], served)?;
        self.length_row("a request of 1501 bytes", [0; 1501], refused)
    }
}
