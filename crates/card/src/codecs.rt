// Rows that a codec decides.
use crate::rows;
use crate::rows::{Card, Row};
use handlers::NIL;
use protocol::{
    BufferTooShort, CommandId, CommandLayerHeader, ReceiveConnState, SdoCommand, SendConnState,
    SequenceLayerHeader,
};
use std::io;
use std::io::Write;

// The bytes that were written.
// (An encoder tells how many, and the buffer is an array: without a heap there is none of that length.)
fn written(w: Result<usize, BufferTooShort>, buffer: &[u8]) -> &[u8] {
    octets::part(buffer, 0, w.unwrap_or(0))
}

// The header of an abort without a payload.
const ABORT: CommandLayerHeader = CommandLayerHeader {
    aborted: true,
    ..NIL
};

// The fields of a command, the total where it has one, and its payload.
fn put_command(c: SdoCommand, payload: &[u8], out: &mut impl Write) -> io::Result<()> {
    let h = c.header;
    out.write_all(&[h.transaction, u8::from(h.response), u8::from(h.aborted)])?;
    out.write_all(&[u8::from(h.segmentation), u8::from(h.id)])?;
    out.write_all(&h.size.to_le_bytes())?;
    if let Some(total) = c.total {
        out.write_all(&total.to_le_bytes())?;
    }
    out.write_all(payload)
}

impl<P: Print> Card<'_, P> {
    // A header of four bytes, the numbers and then the marks, receive before send, is encoded.
    fn header_row(&mut self, row: Row) -> io::Result<()> {
        let [receive, send, rcon, scon] = rows::bytes::<4>(row.given);
        let header = SequenceLayerHeader {
            receive,
            rcon: ReceiveConnState::from(rcon),
            send,
            scon: SendConnState::from(scon),
        };
        let mut out = [0u8; 16];
        let w = sequence::serialize(header, &mut out);
        self.say(Row { given: "", ..row }, written(w, &out))
    }

    // A header is decoded to its numbers and marks.
    fn header_read_row(&mut self, row: Row) -> io::Result<()> {
        let mut buffer = [0; 16];
        let Ok(header) = sequence::deserialize(rows::read(row.given, &mut buffer)) else {
            return self.say(row, b"");
        };
        let came = [
            header.receive,
            header.send,
            u8::from(header.rcon),
            u8::from(header.scon),
        ];
        self.say(row, &came)
    }

    // The number after a number.
    fn next_row(&mut self, row: Row) -> io::Result<()> {
        let [number] = rows::bytes::<1>(row.given);
        let next = sequence::next_number(number);
        self.say(Row { given: "", ..row }, &[next])
    }

    // An answer to a transaction is encoded, with the bytes after the transaction as its payload.
    fn answer_row(&mut self, header: CommandLayerHeader, row: Row) -> io::Result<()> {
        let mut buffer = [0; 16];
        let bytes = rows::read(row.given, &mut buffer);
        let payload = octets::rest(bytes, 1);
        let header = CommandLayerHeader {
            transaction: octets::byte_at(bytes, 0),
            size: (payload.len() % 65536) as u16,
            ..header
        };
        let mut out = [0u8; 32];
        let answer = SdoCommand {
            header,
            total: None,
        };
        let w = command::serialize(answer, payload, &mut out);
        self.say(row, written(w, &out))
    }

    // A command is decoded to its fields and payload; an undecodable one to its transaction id.
    // (The cursor tells how many bytes of its array are written: without a heap there is none of that length.)
    fn command_read_row(&mut self, row: Row) -> io::Result<()> {
        let mut buffer = [0; 32];
        let bytes = rows::read(row.given, &mut buffer);
        let Ok(c) = command::deserialize(bytes) else {
            return self.say(row, &[fields::undecodable_transaction(bytes)]);
        };
        let mut came = io::Cursor::new([0u8; 64]);
        put_command(c, command::payload(c.header, bytes), &mut came)?;
        let n = came.position() as usize;
        self.say(row, octets::part(came.get_ref(), 0, n))
    }

    // A byte is read as a command id and written again; an unknown one comes out as FF.
    // (The card's text has FF there, so None is printed as that byte.)
    fn id_row(&mut self, row: Row) -> io::Result<()> {
        let [number] = rows::bytes::<1>(row.given);
        let came = CommandId::try_from(number).map_or(0xFF, |id: CommandId| u8::from(id));
        self.say(Row { given: "", ..row }, &[came])
    }

    // A heading.
    fn heading(&self, line: &str) -> io::Result<()> {
        print!(self.rt; "{line}")?;
        println!(self.rt; "")
    }

    // A line: a letter for what is done, then what is printed, what is given and what should come. One without bars is a heading.
    // (A letter is read here alone: an enum of the letters would be matched once to be made, and here once more.)
    fn line_row(&mut self, line: &str) -> io::Result<()> {
        let Some((what, rest)) = line.split_once('|') else {
            return self.heading(line);
        };
        let (letter, what) = what.split_once(' ').unwrap_or((what, ""));
        let (given, expected) = rest.split_once('|').unwrap_or((rest, ""));
        let row = Row {
            what,
            given,
            expected,
        };
        match letter {
            "H" => self.header_row(row),
            "R" => self.header_read_row(row),
            "N" => self.next_row(row),
            "A" => self.answer_row(NIL, row),
            "X" => self.answer_row(ABORT, row),
            "C" => self.command_read_row(row),
            "I" => self.id_row(row),
            _ => self.heading(line),
        }
    }

    // Plays the lines of a text.
    pub fn codec_rows(&mut self, text: &str) -> io::Result<()> {
        for line in text.lines() {
            self.line_row(line)?;
        }
        Ok(())
    }
}
