// The input that a script is read from: a buffer of which a part is not played yet.
#![tactic(auto)]

ghost use Rattle.std.specs.Prelude.{◌≡◌, ℕ, ◌+◌, ◌-◌, ◌≤◌, Bool, List, ◌++◌, length, take, drop, ⊤, IfOk};
ghost use Rattle.std.specs.Io.KnownBytes.{Consumes};
ghost use Rattle.input.specs.Runs.{at_start, unplayed_of, behind, Read, refilled_bytes, refilled_window, Within};
ghost use Rattle.input.specs.Turns.{Run, run, Turns};

use std::io;

// The length of a buffer in which every item of a script fits.
pub const INPUT: usize = 262144;

// How far a run is. The buffer's bytes from start to end are not played yet; the first of them is byte `at` of the input.
// (Places in one fixed buffer, since a slice of it could not be kept beside a refill; no value belongs to `going`: a run ends with bytes left over or without.)
#[derive(Clone, Copy)]
pub struct Window {
    pub start: usize,
    pub end: usize,
    pub at: u64,
    pub going: bool,
}

// Where a run begins: nothing is read yet.
pub fn begun() -> Window
    ensures { result ≡ at_start }
{
    Window {
        start: 0,
        end: 0,
        at: 0,
        going: true,
    }
}

// What is not played yet, as far as it is read.
#[tactic(auto, unfolding(crate::specs::Runs::unplayed_of))]
pub fn unplayed<const N: usize>(input: &[u8; N], w: Window) -> &[u8]
    ensures { result.now ≡ unplayed_of input.now w }
{
    octets::part(input, w.start, w.end.saturating_sub(w.start))
}

// Behind an item of n bytes; one that is not known ends the run where it begins.
// (The caller has the length before the item is played, and whether it is known only then: an Option would be made of both for this call.)
#[tactic(auto, unfolding(crate::specs::Runs::behind, picks::specs::Pick::pick))]
pub fn passed(w: Window, n: usize, known: bool) -> Window
    ensures { result ≡ behind w n known }
{
    if known {
        Window {
            start: w.start.wrapping_add(n),
            at: w.at.wrapping_add(n as u64),
            ..w
        }
    } else {
        Window { going: false, ..w }
    }
}

// Reads once into the buffer from n on, and answers how many bytes came: none at the end of the input, or where it cannot be read.
// (`n` is where the bytes that stay end, and the contract says that they stay; a slice from there on could not.)
fn read_at<R: io::Read>(reader: &mut R, buffer: &mut [u8], n: usize) -> usize
    requires { n ≤ length buffer.old }
    ensures in_bounds { n + result ≤ length buffer.old }
    ensures kept { take n buffer.new ≡ take n buffer.old }
    ensures got { Consumes (R.remaining reader.old) (R.remaining reader.new) (take result (drop n buffer.new)) }
{
    reader.read(&mut buffer[n..]).unwrap_or(0)
}

// Moves n bytes from a place to the front of the input buffer.
// (`copy_within` takes the place too: a slice of the buffer cannot be moved within it; packing::shift copies its 320 bytes, too many here.)
fn move_to_front(input: &mut [u8], start: usize, n: usize)
    requires { n ≤ length input.old - start }
    ensures { input.new ≡ take n (drop start input.old) ++ drop n input.old }
{
    let start = start.min(input.len());
    input.copy_within(start..start + n, 0);
}

// Moves what is not played yet to the front of the input buffer and reads once behind it. The run goes on if the read got anything.
pub fn refilled<R: io::Read, const N: usize>(
    reader: &mut R,
    input: &mut [u8; N],
    w: Window,
) -> Window
    ensures within { Within result N }
    ensures bytes { (f : Read) × (input.new ≡ refilled_bytes f input.old w) × (result ≡ refilled_window f input.old w) × (Consumes (R.remaining reader.old) (R.remaining reader.new) f.got) }
{
    let n = unplayed(input, w).len();
    move_to_front(input, w.start, n);
    let got = read_at(reader, input, n);
    Window {
        start: 0,
        end: n + got,
        going: 0 < got,
        ..w
    }
}

// What plays the items of a script: a program's own, with what it is lent and where it writes.
pub trait Player {
    // Holds of a player, the bytes from an item on, and how long the item may be.
    ghost IsLong: { Self → List ℕ → ℕ → Type 0 } = { λ _ _ _. ⊤ };

    // Holds of a player, an item, whether it is one that is known, and the player that a play may leave.
    ghost Plays: { Self → List ℕ → Bool → Self → Type 0 } = { λ _ _ _ _. ⊤ };

    // How long the item at the start of these bytes is; more than they are where they end before the bytes that tell it.
    fn length_of(&self, bytes: &[u8]) -> usize
        ensures { IsLong self.now bytes.now result };

    // Plays an item, and answers whether it is one that is known.
    fn play(&mut self, item: &[u8]) -> io::Result<bool>
        ensures { IfOk result (λ known. Plays self.old item.now known self.new) };
}

// Plays the items of the input as far as it goes, and answers where that ends: each turn reads more, or plays an item. A loop has to end: it counts its turns up to a number that no run reaches.
pub fn played<R: io::Read, P: Player, const N: usize>(
    reader: &mut R,
    input: &mut [u8; N],
    player: &mut P,
) -> io::Result<Window>
    ensures within { IfOk result (λ w. Within w N) }
    ensures turns { IfOk result (λ w. (end : Run P) × Turns P.IsLong P.Plays (run player.old (R.remaining reader.old) input.old at_start) end × (end ≡ run player.new (R.remaining reader.new) input.new w)) }
{
    let mut window = begun();
    for _ in 0..u64::MAX {
        if !window.going {
            break;
        }
        let bytes = unplayed(input, window);
        let n = player.length_of(bytes);
        if bytes.len() < n {
            window = refilled(reader, input, window);
        } else {
            let known = player.play(octets::part(bytes, 0, n))?;
            window = passed(window, n, known);
        }
    }
    Ok(window)
}
