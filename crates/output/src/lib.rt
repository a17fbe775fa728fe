// What a program prints waits in a buffer of fixed length: no heap is needed for it, and what room was made for is written in one part.
#![tactic(auto)]

ghost use Rattle.std.specs.Prelude.{◌≡◌, ◌+◌, ◌≤◌, ◌++◌, length, min, take, IfOk, IsOk, OnOk};
ghost use Rattle.std.specs.Io.{WritesAtMost};
ghost use Rattle.std.specs.Io.KnownBytes.{Keeps, Appends, WriteAppends};

use std::io;
use std::io::{ErrorKind, Write};

// The buffer's length.
pub const OUTPUT: usize = 65536;

// A writer, and a buffer whose first bytes wait to be written to it.
// (An array and how much of it is filled: a `BufWriter` takes its buffer from the heap.)
#[derive(Drop)]
pub struct Output<W> {
    to: W,
    bytes: [u8; OUTPUT],
    filled: usize,
    ghost within: { filled ≤ 65536 },
}

impl<W: Write> Output<W> {
    ghost use Rattle.output.specs.Output.{waits, waiting, handed_over};

    // Nothing waits yet.
    pub fn new(to: W) -> Output<W>
        ensures writer { result.to ≡ to }
        ensures empty { waits result ≡ 0 }
    {
        Output {
            to,
            bytes: [0; OUTPUT],
            filled: 0,
        }
    }

    // Writes what waits. What a failure leaves unwritten waits on.
    fn write_waiting(&mut self) -> io::Result<()>
        ensures kept { Keeps (handed_over W.contents self.old) (handed_over W.contents self.new) }
        ensures empty { OnOk result (waits self.new ≡ 0) }
        ensures less { waits self.new ≤ waits self.old }
    {
        let filled = self.filled;
        let (n, result) = written(&self.bytes[..filled], &mut self.to);
        self.bytes.copy_within(n..filled, 0);
        self.filled = filled - n;
        result
    }

    // Makes room for so many bytes: where less is left, what waits is written.
    pub fn reserve(&mut self, room: usize) -> io::Result<()>
        ensures kept { Keeps (handed_over W.contents self.old) (handed_over W.contents self.new) }
        ensures room { OnOk result (room ≤ 65536 → waits self.new + room ≤ 65536) }
        ensures there { waits self.old + room ≤ 65536 → IsOk result × (self.new ≡ self.old) }
        ensures less { waits self.new ≤ waits self.old }
    {
        if OUTPUT - self.filled < room {
            return self.write_waiting();
        }
        Ok(())
    }

    // Bytes wait behind those that do.
    fn push(&mut self, bytes: &[u8])
        requires { waits self.old + length bytes.now ≤ 65536 }
        ensures grown { waiting self.new ≡ waiting self.old ++ bytes.now }
        ensures writer { self.new.to ≡ self.old.to }
        ensures more { waits self.new ≡ waits self.old + length bytes.now }
    {
        let end = self.filled + bytes.len();
        self.bytes[self.filled..end].copy_from_slice(bytes);
        self.filled = end;
    }
}

impl<W: Write> Write for Output<W> {
    ghost use Rattle.output.specs.Output.{waits, waiting, handed_over};

    ghost contents = { handed_over W.contents };

    // No more at a time than the buffer holds.
    fn write(&mut self, bytes: &[u8]) -> io::Result<usize>
        ensures bound { WritesAtMost result bytes.now }
        ensures count { IfOk result (λ n. n ≡ min (length bytes.now) 65536) }
        ensures bytes { WriteAppends (handed_over W.contents self.old) (handed_over W.contents self.new) result bytes.now }
        ensures fits { waits self.old + length bytes.now ≤ 65536 → IsOk result × (self.new.to ≡ self.old.to) × (waiting self.new ≡ waiting self.old ++ bytes.now) }
        ensures more { waits self.new ≤ waits self.old + length bytes.now }
    {
        let n = bytes.len().min(OUTPUT);
        self.reserve(n)?;
        self.push(&bytes[..n]);
        Ok(n)
    }

    fn flush(&mut self) -> io::Result<()>
        ensures bytes { Keeps (handed_over W.contents self.old) (handed_over W.contents self.new) }
        ensures empty { OnOk result (waits self.new ≡ 0) }
    {
        self.write_waiting()?;
        self.to.flush()
    }

    // More than the buffer holds is written at once.
    // (Always inlined: as a call for each part of an answer it took about 15 % more time on codec's short items.)
    #[inline(always)]
    fn write_all(&mut self, bytes: &[u8]) -> io::Result<()>
        ensures bytes { OnOk result (Appends (handed_over W.contents self.old) (handed_over W.contents self.new) bytes.now) }
        ensures fits { waits self.old + length bytes.now ≤ 65536 → IsOk result × (self.new.to ≡ self.old.to) × (waiting self.new ≡ waiting self.old ++ bytes.now) }
        ensures more { waits self.new ≤ waits self.old + length bytes.now }
    {
        if OUTPUT < bytes.len() {
            self.reserve(OUTPUT)?;
            return self.to.write_all(bytes);
        }
        self.reserve(bytes.len())?;
        self.push(bytes);
        Ok(())
    }
}

// Writes bytes until all are written or that fails, and answers how many were. A loop has to end: it counts its turns up to a number that no run reaches.
// (By `write`, since `write_all` does not tell how many it wrote where it fails.)
fn written<W: Write>(bytes: &[u8], to: &mut W) -> (usize, io::Result<()>)
    ensures bound { result.0 ≤ length bytes.now }
    ensures all { OnOk result.1 (result.0 ≡ length bytes.now) }
    ensures bytes { Appends (W.contents to.old) (W.contents to.new) (take result.0 bytes.now) }
{
    let mut n = 0;
    for _ in 0..u64::MAX {
        if n == bytes.len() {
            return (n, Ok(()));
        }
        match to.write(&bytes[n..]) {
            Ok(0) => return (n, Err(io::Error::from(ErrorKind::WriteZero))),
            Ok(more) => n += more,
            Err(e) if e.kind() == ErrorKind::Interrupted => {}
            Err(e) => return (n, Err(e)),
        }
    }
    (n, Err(io::Error::from(ErrorKind::Interrupted)))
}
