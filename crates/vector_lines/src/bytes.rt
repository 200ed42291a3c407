// The bytes that a word stands for.
ghost use Rattle.std.specs.Prelude.{◌≡◌, ◌<◌};
ghost use Rattle.text.specs.Hex.{hex_of};
ghost use Rattle.wire_writer.specs.Writing.{Puts};
ghost use Rattle.vector_lines.specs.Items.{word_of};
ghost use Rattle.vector_lines.specs.Bytes.{plain_byte, plain_text, hex_or, times, item_bytes, word_bytes};

use crate::lines::{after, item, letter, word};
use text::decimal::read_decimal;
use text::hex::read_hex;
use wire::part::tail;
use wire_writer::store::Store;

// The byte that a byte of a text stands for.
fn plain(b: u8) -> u8
    ensures { (result ≡ plain_byte b) × (result < 256) }
{
    match b {
        b'~' => b'\t',
        b'|' => b'\n',
        b'_' => b' ',
        _ => b,
    }
}

fn put_text(out: &mut [u8], at: usize, text: &[u8]) -> usize
    ensures { Puts (plain_text text.now) out.old at out.new result }
{
    let mut next = at;
    for b in text {
        next = plain(*b).put(out, next);
    }
    next
}

// The bytes of hex digits, so many times; none where they are no hex.
fn put_times(out: &mut [u8], at: usize, digits: &[u8], n: u64) -> usize
    ensures { Puts (times n (hex_or (hex_of digits.now))) out.old at out.new result }
{
    let mut next = at;
    for _ in 0..n {
        let Some(end) = read_hex(out, next, digits) else {
            return at;
        };
        next = end;
    }
    next
}

fn put_item(out: &mut [u8], at: usize, item: &[u8]) -> usize
    ensures { Puts (item_bytes item.now) out.old at out.new result }
{
    if letter(item) == b'\'' {
        return put_text(out, at, tail(item, 1));
    }
    match read_decimal(item, 0, b'*', 65536) {
        Some((times, start)) => put_times(out, at, tail(item, start), times),
        None => put_times(out, at, item, 1),
    }
}

// The bytes that a word stands for, laid from a position on where all of them fit, and the position after them.
// An item of the word ends where reading it says, so the position goes on by no fixed step.
pub fn put_word(out: &mut [u8], start: usize, word: &[u8]) -> usize
    ensures { Puts (word_bytes word.now) out.old start out.new result }
{
    let mut next = start;
    let mut at = 0;
    while at < word.len() {
        next = put_item(out, next, item(word, at, b','));
        at = after(word, at, b',');
    }
    next
}

// The bytes of word k of a line, laid from the buffer's start on, and how many they are.
pub fn word_bytes(out: &mut [u8], line: &[u8], k: usize) -> usize
    ensures { Puts (word_bytes (word_of k line.now)) out.old 0 out.new result }
{
    put_word(out, 0, word(line, k))
}
