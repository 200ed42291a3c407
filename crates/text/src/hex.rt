// Lower-case hex, two digits a byte.
ghost use Rattle.std.specs.Prelude.{◌≡◌, ◌+◌, ◌*◌, ◌/◌, ◌≤◌, true, length};
ghost use Rattle.std.proofs.lemmas.List.Edits.{sets};
ghost use Rattle.wire_writer.specs.Store.{Stored};
ghost use Rattle.text.specs.Hex.{hex_digit, hex_text, hex_value, all_hex, hex_bytes, hex_next, hex_after};

use crate::decimal::is_digit;

// The digit of a number below 16.
fn digit(v: u8) -> u8
    requires { v ≤ 15 }
    ensures { result ≡ hex_digit v }
{
    if v < 10 {
        return b'0' + v;
    }
    b'a' + (v - 10)
}

fn store_hex(out: &mut [u8], at: usize, s: &[u8])
    requires { at + 2 * length s.now ≤ length out.old }
    ensures { out.new ≡ sets out.old at (hex_text s.now) }
{
    for (i, b) in s.iter().enumerate() {
        out[at + 2 * i] = digit(*b / 16);
        out[at + 2 * i + 1] = digit(*b % 16);
    }
}

// Bytes, put as hex.
pub fn put_hex(out: &mut [u8], at: usize, s: &[u8]) -> usize
    ensures { Stored (hex_text s.now) out.old at out.new result }
{
    let n = s.len();
    if !wire::has(out.len(), at, n) {
        return at;
    }
    if !wire::has(out.len(), at + n, n) {
        return at;
    }
    store_hex(out, at, s);
    at + n + n
}

// The number of a digit, 16 where the byte is none.
fn value(b: u8) -> u8
    ensures { (result ≡ hex_value b) × (result ≤ 16) }
{
    if is_digit(b) {
        return b - b'0';
    }
    if b < b'a' {
        return 16;
    }
    if b'f' < b {
        return 16;
    }
    b - b'a' + 10
}

// Is every byte a hex digit?

fn all_hex(s: &[u8]) -> bool
    ensures { result ≡ all_hex s.now }
{
    s.iter().all(|b| value(*b) != 16)
}

fn store_bytes(out: &mut [u8], at: usize, s: &[u8])
    requires { (at + length s.now / 2 ≤ length out.old) × (all_hex s.now ≡ true) }
    ensures { out.new ≡ sets out.old at (hex_bytes s.now) }
{
    for i in 0..s.len() / 2 {
        out[at + i] = 16 * value(s[2 * i]) + value(s[2 * i + 1]);
    }
}

// The bytes that a text of hex digits stands for, stored as a put function does: the position after them, or none where it is no hex.
pub fn read_hex(out: &mut [u8], at: usize, s: &[u8]) -> Option<usize>
    ensures { (result ≡ hex_next out.old at s.now)
        × (out.new ≡ hex_after out.old at s.now) }
{
    if s.len() % 2 == 1 {
        return None;
    }
    if !all_hex(s) {
        return None;
    }
    let n = s.len() / 2;
    if !wire::has(out.len(), at, n) {
        return Some(at);
    }
    store_bytes(out, at, s);
    Some(at + n)
}
