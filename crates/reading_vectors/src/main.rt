// Vectors of what is read, by document 01 and Part 6, and of each refusal at each place. Standard input has a line for each vector, below
// a heading that names the subject; what a line shows of itself is printed with the answer. The module of each subject says what its
// lines are.
// Buffers have a fixed size, since the program runs without a heap, as the library does.
#![tactic(auto)]

mod asked;
mod configurations;
mod dataset_messages;
mod network_messages;
mod sequence_numbers;
mod texts;
mod told;
mod values;

use vector_lines::bytes::word_bytes;
use vector_lines::input::{LARGE, read_full};
use vector_lines::lines::{letter, shown, word};
use vector_lines::print::{newline, put, refused};
use wire::part::part;
use wire::refusal::Refusal;

fn main(rt: HostRuntime) {
    let mut text = [0u8; LARGE];
    let n = read_full(&mut rt.stdin(), &mut text);
    lines(&rt, part(&text, 0, n));
}

// Each line, ended by a newline or by the text's end.
fn lines(rt: &impl Print, text: &[u8]) {
    if text.is_empty() {
        return;
    }
    let mut subject: u8 = 0;
    for line in text
        .strip_suffix(b"\n")
        .unwrap_or(text)
        .split(|b| *b == b'\n')
    {
        put(rt, shown(line));
        subject = answered(rt, line, subject);
        newline(rt);
    }
}

// Answers a line, and tells the subject: its first letter, which a heading, `=` and words, sets.
fn answered(rt: &impl Print, line: &[u8], subject: u8) -> u8 {
    if letter(line) == b'=' {
        return letter(word(line, 1));
    }
    let mut buffer = [0u8; LARGE];
    let n = word_bytes(&mut buffer, line, 1);
    vector(rt, subject, line, part(&buffer, 0, n));
    subject
}

// The refusal of what was to be shown, by its number and place.
fn or_refused(rt: &impl Print, shown: Result<(), Refusal>) {
    if let Err(refusal) = shown {
        refused(rt, refusal.reason.number(), refusal.place);
    }
}

// A line, and the bytes of its word 1.
fn vector(rt: &impl Print, subject: u8, line: &[u8], bytes: &[u8]) {
    match subject {
        b's' => sequence_numbers::vector(rt, line),
        b't' => texts::vector(rt, line, bytes),
        b'v' => values::vector(rt, line, bytes),
        b'p' => crate::told::vector(rt, line, bytes),
        b'n' => network_messages::vector(rt, line, bytes),
        b'd' => dataset_messages::vector(rt, line, bytes),
        b'a' => asked::vector(rt, line, bytes),
        _ => configurations::vector(rt, line, bytes),
    }
}
