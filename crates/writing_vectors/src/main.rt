// Vectors of what is written: NetworkMessages, DataSetMessages, probes and chunk payloads, with bytes and numbers worked out from
// documents 01 and 02.
// Standard input has a line for each vector, below a heading that names the subject; what a line shows of itself is printed with the
// answer. The module of each subject says what its lines are.
// Buffers have a fixed size, since the program runs without a heap, as the library does.
#![tactic(auto)]

use vector_lines::bytes::word_bytes;
use vector_lines::input::{LARGE, read_full};
use vector_lines::lines::{letter, shown, word};
use vector_lines::print::{newline, put};
use wire::part::part;

mod chunks;
mod dataset_messages;
mod network_messages;
mod optional;
mod probes;

// What the buffers of both writers hold before.
const FILL: u8 = 0xee;

fn main(rt: HostRuntime) {
    let mut text = [0u8; LARGE];
    let n = read_full(&mut rt.stdin(), &mut text);
    lines(&rt, part(&text, 0, n));
}

// Each line, ended by a newline or by the text's end.
fn lines(rt: &impl Print, text: &[u8]) {
    if text.is_empty() {
        return;
    }
    let mut subject: u8 = 0;
    for line in text
        .strip_suffix(b"\n")
        .unwrap_or(text)
        .split(|b| *b == b'\n')
    {
        put(rt, shown(line));
        subject = answered(rt, line, subject);
        newline(rt);
    }
}

// Answers a line, and tells the subject: its first letter, which a heading, `=` and words, sets.
fn answered(rt: &impl Print, line: &[u8], subject: u8) -> u8 {
    if letter(line) == b'=' {
        return letter(word(line, 1));
    }
    let mut buffer = [0u8; LARGE];
    let n = word_bytes(&mut buffer, line, first_bytes(line));
    vector(rt, subject, line, part(&buffer, 0, n));
    subject
}

// Which word has the bytes: the first, or the next where that is a letter.
fn first_bytes(line: &[u8]) -> usize {
    if word(line, 0).len() == 1 {
        return 1;
    }
    0
}

fn vector(rt: &impl Print, subject: u8, line: &[u8], bytes: &[u8]) {
    match subject {
        b'n' => network_messages::vector(rt, line, bytes),
        b'd' => dataset_messages::vector(rt, line, bytes),
        b'p' => probes::vector(rt, line, bytes),
        _ => chunks::vector(rt, line, bytes),
    }
}
