// Items of the wire: little-endian numbers, signed numbers, lengths and runs of bytes at a position of a slice.
// Every function takes any slice and any position; an item that does not fit is cut short.
#![tactic(auto)]

pub mod constants;
pub mod item;
pub mod optional;
pub mod part;
pub mod refusal;

ghost use Rattle.std.specs.Prelude.{◌≡◌, ◌+◌, ◌-◌, leb};
ghost use Rattle.wire.specs.Answer.{run};
ghost use Rattle.wire.specs.Refusal.{answer, answer_to};
ghost use Rattle.wire.specs.Items.{length_of, length_item};

use crate::item::Item;
use crate::refusal::{Read, Reason, Refusal};

// 16 bytes, as two numbers of 8.
#[derive(Clone, Copy, PartialEq, Eq, Debug)]
pub struct Guid {
    pub low: u64,
    pub high: u64,
}

// The length of an array or a string. Negative is below -1, which is no length.
#[derive(Clone, Copy, PartialEq, Eq, Debug)]
pub enum Length {
    Null,
    Of(usize),
    Negative,
}

// Whether n bytes stand at a position of a slice that is len bytes long.
pub fn has(len: usize, at: usize, n: usize) -> bool
    ensures { result ≡ leb (at + n) len }
{
    if at <= len {
        return n <= len - at;
    }
    false
}

// How many bytes are left from a position on in a slice that is len bytes long.
pub fn left(len: usize, at: usize) -> usize
    ensures { result ≡ len - at }
{
    if len < at {
        return 0;
    }
    len - at
}

// The position after a run of n bytes.
pub fn skip(s: &[u8], at: usize, n: usize) -> Result<usize, Refusal>
    ensures { answer_to n result ≡ run n s.now at }
{
    if !has(s.len(), at, n) {
        return Err(Reason::CutShort.at(at));
    }
    Ok(at + n)
}

// What a signed length says.
pub fn length_of(n: i32) -> Length
    ensures { result ≡ length_of n }
{
    if 0 <= n {
        return Length::Of(n as usize);
    }
    if n == -1 {
        return Length::Null;
    }
    Length::Negative
}

// The length that stands at a position: null, so many, or below null.
pub fn read_length(s: &[u8], at: usize) -> Read<Length>
    ensures { answer result ≡ length_item s.now at }
{
    let (n, next) = i32::read(s, at)?;
    Ok((length_of(n), next))
}
