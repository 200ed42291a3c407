// Items: values of a fixed number of bytes.
ghost use Rattle.std.specs.Prelude.{◌≡◌, ◌+◌, ◌≤◌, ◌<◌, ◌^◌, ℕ, List, length};
ghost use Rattle.wire.specs.Number.{le, signed};
ghost use Rattle.wire.specs.Answer.{taking};
ghost use Rattle.wire.specs.Refusal.{answer};
ghost use Rattle.wire.specs.Items.{guid_of};

use crate::refusal::{Read, Reason};
use crate::{Guid, has};

// A value of so many bytes, which determine it.
pub trait Item: Copy {
    // how many bytes it has
    ghost WIDTH: { ℕ };

    // the value of the bytes from a position
    ghost value: { List ℕ → ℕ → Self };

    const WIDTH: usize;

    // The value of the bytes at a position; a byte past the end counts as 0.
    fn of(s: &[u8], at: usize) -> Self
        ensures { result ≡ value s.now at };

    // The value at a position and the position after it.
    final fn read(s: &[u8], at: usize) -> Read<Self>
        ensures { answer result ≡ taking WIDTH value s.now at }
    {
        if !has(s.len(), at, Self::WIDTH) {
            return Err(Reason::CutShort.at(at));
        }
        Ok((Self::of(s, at), at + Self::WIDTH))
    }
}

// The numbers of the 1, 2, 4 and 8 bytes from a position.
fn number1(s: &[u8], at: usize) -> u64
    requires { at + 1 ≤ length s.now }
    ensures { (result ≡ le 1 s.now at) × (result < 256 ^ 1) }
{
    s[at] as u64
}

fn number2(s: &[u8], at: usize) -> u64
    requires { at + 2 ≤ length s.now }
    ensures { (result ≡ le 2 s.now at) × (result < 256 ^ 2) }
{
    number1(s, at) + 256 * number1(s, at + 1)
}

fn number4(s: &[u8], at: usize) -> u64
    requires { at + 4 ≤ length s.now }
    ensures { (result ≡ le 4 s.now at) × (result < 256 ^ 4) }
{
    number2(s, at) + 65536 * number2(s, at + 2)
}

fn number8(s: &[u8], at: usize) -> u64
    requires { at + 8 ≤ length s.now }
    ensures { (result ≡ le 8 s.now at) × (result < 256 ^ 8) }
{
    number4(s, at) + 4294967296 * number4(s, at + 4)
}

// The same of bytes that need not be there: those past the end count as 0. Where it is known that they are, as behind the test of `read`,
// the way of those that are not is left out by the compiler.
fn lent1(s: &[u8], at: usize) -> u64
    ensures { (result ≡ le 1 s.now at) × (result < 256 ^ 1) }
{
    if s.len() <= at {
        return 0;
    }
    number1(s, at)
}

fn lent2(s: &[u8], at: usize) -> u64
    ensures { (result ≡ le 2 s.now at) × (result < 256 ^ 2) }
{
    if has(s.len(), at, 2) {
        return number2(s, at);
    }
    lent1(s, at)
}

fn lent4(s: &[u8], at: usize) -> u64
    ensures { (result ≡ le 4 s.now at) × (result < 256 ^ 4) }
{
    if has(s.len(), at, 4) {
        return number4(s, at);
    }
    if s.len() <= at {
        return 0;
    }
    lent2(s, at) + 65536 * lent2(s, at + 2)
}

fn lent8(s: &[u8], at: usize) -> u64
    ensures { (result ≡ le 8 s.now at) × (result < 256 ^ 8) }
{
    if has(s.len(), at, 8) {
        return number8(s, at);
    }
    if s.len() <= at {
        return 0;
    }
    lent4(s, at) + 4294967296 * lent4(s, at + 4)
}

impl Item for u8 {
    ghost WIDTH = { 1 };

    ghost value = { le 1 };

    const WIDTH: usize = 1;

    fn of(s: &[u8], at: usize) -> u8 {
        lent1(s, at) as u8
    }
}

impl Item for u16 {
    ghost WIDTH = { 2 };

    ghost value = { le 2 };

    const WIDTH: usize = 2;

    fn of(s: &[u8], at: usize) -> u16 {
        lent2(s, at) as u16
    }
}

// One function over both widths would want a trait of the unsigned numbers for these two alone, and is no plainer.
// The signed number that 4 or 8 bytes stand for, in two's complement.
pub fn signed32(n: u32) -> i32
    ensures { result ≡ signed 4 n }
{
    if n < 2147483648 {
        return n as i32;
    }
    -1 - ((4294967295 - n) as i32)
}

// A number of 8 bytes by two's complement.
pub fn signed64(n: u64) -> i64
    ensures { result ≡ signed 8 n }
{
    if n < 9223372036854775808 {
        return n as i64;
    }
    -1 - ((18446744073709551615 - n) as i64)
}

impl Item for u32 {
    ghost WIDTH = { 4 };

    ghost value = { le 4 };

    const WIDTH: usize = 4;

    fn of(s: &[u8], at: usize) -> u32 {
        lent4(s, at) as u32
    }
}

impl Item for u64 {
    ghost WIDTH = { 8 };

    ghost value = { le 8 };

    const WIDTH: usize = 8;

    fn of(s: &[u8], at: usize) -> u64 {
        lent8(s, at)
    }
}

impl Item for i32 {
    ghost WIDTH = { 4 };

    ghost value = { λ s at. signed 4 (le 4 s at) };

    const WIDTH: usize = 4;

    fn of(s: &[u8], at: usize) -> i32 {
        signed32(lent4(s, at) as u32)
    }
}

impl Item for i64 {
    ghost WIDTH = { 8 };

    ghost value = { λ s at. signed 8 (le 8 s at) };

    const WIDTH: usize = 8;

    fn of(s: &[u8], at: usize) -> i64 {
        signed64(lent8(s, at))
    }
}

impl Item for Guid {
    ghost WIDTH = { 16 };

    ghost value = { guid_of };

    const WIDTH: usize = 16;

    fn of(s: &[u8], at: usize) -> Guid {
        if has(s.len(), at, 16) {
            let low = number8(s, at);
            let high = number8(s, at + 8);
            return Guid { low, high };
        }
        if s.len() <= at {
            return Guid { low: 0, high: 0 };
        }
        let low = lent8(s, at);
        let high = lent8(s, at + 8);
        Guid { low, high }
    }
}
