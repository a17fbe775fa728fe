// Plays a script of calls from standard input on the server and writes what they leave as a transcript: oracle/REPLAY.md has both formats.
#![tactic(auto)]

mod transcript;

use input::{INPUT, Player, Window};
use output::Output;
use script::{ANSWER, Done, IMAGE, LENT_AREA, Lent};
use std::io;
use std::io::Write;
use transcript::ENTRY;

// The server's player: what is lent, of which buffers, and where the transcript goes.
#[derive(Drop)]
struct Replay<W> {
    lent: Lent,
    area: [u8; LENT_AREA],
    image: [u8; IMAGE],
    out: Output<W>,
}

impl<W: Write> Player for Replay<W> {
    fn length_of(&self, bytes: &[u8]) -> usize {
        items::length_of(bytes)
    }

    // A call's part of the transcript is printed, in one piece: room for it was made before.
    fn play(&mut self, item: &[u8]) -> io::Result<bool> {
        let mut answer = [0; ANSWER];
        let played = self
            .lent
            .play(item, &mut self.area, &mut self.image, &mut answer);
        self.lent = played.lent;
        match played.done {
            Done::Unknown => return Ok(false),
            Done::Lends => {}
            Done::Calls(told) => {
                let mut entry = [0; ENTRY];
                let n = transcript::put_entry(
                    told,
                    self.lent,
                    &answer,
                    &self.area,
                    &self.image,
                    &mut entry,
                );
                self.out.write_all(&entry[..n])?;
                self.out.reserve(ENTRY)?;
            }
        }
        Ok(true)
    }
}

// Plays the input as far as it goes, and answers where it ended.
fn played(rt: &(impl Input + Print)) -> io::Result<Window> {
    let mut input = [0u8; INPUT];
    let mut reader = rt.reader();
    let mut replay = Replay {
        lent: script::begun(),
        area: [0; LENT_AREA],
        image: [0; IMAGE],
        out: Output::new(io::writer(rt)),
    };
    let window = input::played(&mut reader, &mut input, &mut replay)?;
    replay.out.flush()?;
    Ok(window)
}

// The program. What is not played in the end begins with an item that is cut short or unknown.
// (`codec` ends alike: a shared end would be a public function of which no contract can say what it writes to standard error.)
fn main(rt: HostRuntime) -> io::Result<()> {
    let Ok(window) = played(&rt) else {
        let _ = eprintln!(rt; "replay: the transcript cannot be written");
        return Ok(());
    };
    if window.start < window.end {
        let at = window.at;
        eprintln!(rt; "replay: item at byte {at} is cut short or unknown")?;
    }
    Ok(())
}
