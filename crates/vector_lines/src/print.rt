// Answers printed to standard output. Each number and each run of hex has a space before it. What becomes of the bytes is the system's;
// each function answers how many it handed over, and promises that they are as many as its text has.
// The texts of numbers are laid into buffers of a fixed size: there is no heap.
ghost use Rattle.std.specs.Prelude.{◌≡◌, length};
ghost use Rattle.text.specs.Decimal.{decimal_text};
ghost use Rattle.vector_lines.specs.Print.{number_printed, bad_printed, refused_printed, optional_printed, hex_printed, named_printed};

use crate::lines::word;
use text::decimal::put_decimal;
use text::hex::put_hex;
use wire::part::part;

// A text as it is. A write that fails is let go: the answer and what follows are the same.
pub fn put(rt: &impl Print, text: &[u8]) -> usize
    ensures { result ≡ length text.now }
{
    let _ = rt.write_all(text);
    text.len()
}

// The end of a line.
pub fn newline(rt: &impl Print) -> usize
    ensures { result ≡ 1 }
{
    put(rt, b"\n")
}

// A number without the space.
pub fn digits(rt: &impl Print, n: u64) -> usize
    ensures { result ≡ length (decimal_text n) }
{
    let mut text = [0u8; 20];
    let k = put_decimal(&mut text, 0, n);
    put(rt, part(&text, 0, k))
}

// A space and a number.
pub fn number(rt: &impl Print, n: usize) -> usize
    ensures { result ≡ length (number_printed n) }
{
    put(rt, b" ") + digits(rt, n as u64)
}

// A refusal by its number.
pub fn bad(rt: &impl Print, n: u8) -> usize
    ensures { result ≡ length (bad_printed n) }
{
    put(rt, b" bad") + number(rt, n as usize)
}

// A refusal by its number and place.
pub fn refused(rt: &impl Print, n: u8, place: usize) -> usize
    ensures { result ≡ length (refused_printed n place) }
{
    bad(rt, n) + number(rt, place)
}

// A dash where the item is absent.
pub fn optional(rt: &impl Print, x: Option<u16>) -> usize
    ensures { result ≡ length (optional_printed x) }
{
    match x {
        None => put(rt, b" -"),
        Some(v) => number(rt, v as usize),
    }
}

// Up to 128 bytes in hex.
pub fn hex(rt: &impl Print, s: &[u8]) -> usize
    ensures { result ≡ length (hex_printed s.now) }
{
    let mut text = [0u8; 256];
    let n = put_hex(&mut text, 0, s);
    put(rt, b" ") + put(rt, part(&text, 0, n))
}

// Word k of a list of names, with a space before it.
pub fn named(rt: &impl Print, names: &[u8], k: usize) -> usize
    ensures { result ≡ length (named_printed names.now k) }
{
    put(rt, b" ") + put(rt, word(names, k))
}
