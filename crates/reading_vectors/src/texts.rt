// Decimals, hex and words. `N` has a number, and answers with the decimal. `R` has a text, a position and a limit: the decimal there up
// to a tab, and the position after it, or `no`. `F` has a text: where its first tab stands. `S` has a text: `writer` if it goes on so at
// position 2, else `no`.
//
// `D`, `H`, `T` and `U` have what is put, as a decimal, as hex, as it is, and as the bytes of hex digits; a buffer of 8 bytes, and a
// position. The answer is the position after it, or `no`, and the buffer.
// Buffers have a fixed size, since the program runs without a heap, as the library does.
use text::decimal::{put_decimal, read_decimal};
use text::hex::{put_hex, read_hex};
use text::words::{find, put_bytes, starts_with};
use vector_lines::bytes::word_bytes;
use vector_lines::lines::{decimal, letter, word};
use vector_lines::print::{digits, newline, put};
use wire::part::part;

// Shows a decimal, hex or words of one line of the input.
pub fn vector(rt: &impl Print, line: &[u8], bytes: &[u8]) {
    match letter(line) {
        b'N' => written(rt, decimal(line, 1)),
        b'R' => read(rt, bytes, line),
        b'F' => {
            digits(rt, find(bytes, b'\t') as u64);
        }
        b'S' => starting(rt, bytes),
        _ => stored(rt, bytes, line),
    }
}

fn written(rt: &impl Print, n: usize) {
    let mut text = [0u8; 32];
    let end = put_decimal(&mut text, 0, n as u64);
    put(rt, part(&text, 0, end));
}

fn read(rt: &impl Print, text: &[u8], line: &[u8]) {
    let limit = decimal(line, 3) as u64;
    match read_decimal(text, decimal(line, 2), b'\t', limit) {
        Some((n, next)) => {
            digits(rt, n);
            newline(rt);
            digits(rt, next as u64);
        }
        None => {
            put(rt, b"no");
        }
    }
}

fn starting(rt: &impl Print, text: &[u8]) {
    if starts_with(text, 2, b"writer") {
        put(rt, b"writer");
    } else {
        put(rt, b"no");
    }
}

fn stored(rt: &impl Print, bytes: &[u8], line: &[u8]) {
    let mut buffer = [0u8; 8];
    word_bytes(&mut buffer, line, 2);
    position(rt, store(&mut buffer, bytes, line));
    put(rt, &buffer);
}

// The largest number is told as none: a position that nothing can be put at.
fn position(rt: &impl Print, next: Option<usize>) {
    match next {
        Some(n) if n < usize::MAX => digits(rt, n as u64),
        _ => put(rt, b"no"),
    };
    newline(rt);
}

// The position after what was put; none where hex digits are none.
fn store(out: &mut [u8], bytes: &[u8], line: &[u8]) -> Option<usize> {
    let at = decimal(line, 3);
    match letter(line) {
        b'D' => Some(put_decimal(out, at, decimal(line, 1) as u64)),
        b'H' => Some(put_hex(out, at, bytes)),
        b'U' => read_hex(out, at, word(line, 1)),
        _ => Some(put_bytes(out, at, bytes)),
    }
}
