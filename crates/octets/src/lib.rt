// Bytes in a lent slice: reads, stores, parts and copies that ask nothing of the caller. A byte past the end reads as 0, and what would be stored past the end is dropped.
#![tactic(auto)]

ghost use Rattle.std.specs.Prelude.{◌≡◌, ◌≤◌, ℕ, get_or, take, drop, set, replicate};
ghost use Rattle.std.proofs.Common.{rules};
ghost use Rattle.octets.specs.Octets.{le, le_bytes, splice};

// A number that stands in N bytes, the lowest first.
pub trait LittleEndian<const N: usize> {
    // The number that is written.
    ghost value: { Self → ℕ };

    fn from_bytes(bytes: [u8; N]) -> Self
        ensures { value result ≡ le bytes.entry };

    fn to_bytes(self) -> [u8; N]
        ensures { result ≡ le_bytes N (value self) };

    // No number has more than 16 bytes.
    ghost narrow: { N ≤ 16 };
}

impl LittleEndian<2> for u16 {
    ghost value = { λ n. n };

    ghost narrow = { Prim.search rules };

    fn from_bytes(bytes: [u8; 2]) -> u16
        ensures { result ≡ le bytes }
    {
        u16::from_le_bytes(bytes)
    }

    #[tactic(auto, unfolding(crate::specs::Octets::le_bytes))]
    fn to_bytes(self) -> [u8; 2]
        ensures { result ≡ le_bytes 2 self }
    {
        u16::to_le_bytes(self)
    }
}

impl LittleEndian<4> for u32 {
    ghost value = { λ n. n };

    ghost narrow = { Prim.search rules };

    fn from_bytes(bytes: [u8; 4]) -> u32
        ensures { result ≡ le bytes }
    {
        u32::from_le_bytes(bytes)
    }

    #[tactic(auto, unfolding(crate::specs::Octets::le_bytes))]
    fn to_bytes(self) -> [u8; 4]
        ensures { result ≡ le_bytes 4 self }
    {
        u32::to_le_bytes(self)
    }
}

impl LittleEndian<8> for u64 {
    ghost value = { λ n. n };

    ghost narrow = { Prim.search rules };

    fn from_bytes(bytes: [u8; 8]) -> u64
        ensures { result ≡ le bytes }
    {
        u64::from_le_bytes(bytes)
    }

    #[tactic(auto, unfolding(crate::specs::Octets::le_bytes))]
    fn to_bytes(self) -> [u8; 8]
        ensures { result ≡ le_bytes 8 self }
    {
        u64::to_le_bytes(self)
    }
}

// The byte at a place. (Here and below the slice and the place are the receiver and its argument, as `get` has them.)
pub fn byte_at(s: &[u8], at: usize) -> u8
    ensures { result ≡ get_or s.now at 0 }
{
    s.get(at).copied().unwrap_or(0)
}

// The part of len bytes from start on, as far as the slice goes.
pub fn part(s: &[u8], start: usize, len: usize) -> &[u8]
    ensures { result.now ≡ take len (drop start s.now) }
{
    let from = rest(s, start);
    &from[..len.min(from.len())]
}

// The part from start to the end.
pub fn rest(s: &[u8], start: usize) -> &[u8]
    ensures { result.now ≡ drop start s.now }
{
    &s[start.min(s.len())..]
}

// The N bytes at a place.
#[tactic(auto, using(crate::proofs::Little::laid))]
pub fn bytes_at<const N: usize>(s: &[u8], at: usize) -> [u8; N]
    ensures { result ≡ splice 0 (drop at s.now) (replicate N 0) }
{
    let from = rest(s, at);
    match from.first_chunk() {
        Some(bytes) => *bytes,
        None => {
            let mut bytes = [0; N];
            copy_at(&mut bytes, 0, from);
            bytes
        }
    }
}

// The number at a place.
#[tactic(auto, using(crate::proofs::Little::le_laid))]
pub fn number_at<T: LittleEndian<N>, const N: usize>(s: &[u8], at: usize) -> T
    ensures { T.value result ≡ le (take N (drop at s.now)) }
{
    T::from_bytes(bytes_at(s, at))
}

// src goes to dst from at on, as far as dst goes; every byte outside stays.
// (The last two laws are of a body that stores twice, as that of the edit first_byte_repeated: with them it is refused for what it stores.)
#[tactic(auto, using(crate::proofs::Splice::store_part, crate::proofs::Splice::splice_cut, crate::proofs::Splice::splice_min, crate::proofs::Splice::length_splice, crate::proofs::Splice::splice_over))]
pub fn copy_at(dst: &mut [u8], at: usize, src: &[u8])
    ensures { dst.new ≡ splice at src.now dst.old }
{
    let start = at.min(dst.len());
    let n = src.len().min(dst.len() - start);
    dst[start..start + n].copy_from_slice(&src[..n]);
}

// A value is stored at a place, in a slice of any plain type.
// (A test of one place is plainer than an array of one byte, which `store` would make. A slice's get_mut says nothing of what is written through it, so with it the proof does not close.)
pub fn store_at<T: Copy>(dst: &mut [T], at: usize, v: T)
    ensures { dst.new ≡ set dst.old at v }
{
    if at < dst.len() {
        dst[at] = v;
    }
}

// A number is stored at a place.
pub fn store<T: LittleEndian<N>, const N: usize>(dst: &mut [u8], at: usize, v: T)
    ensures { dst.new ≡ splice at (le_bytes N (T.value v)) dst.old }
{
    copy_at(dst, at, &v.to_bytes());
}
