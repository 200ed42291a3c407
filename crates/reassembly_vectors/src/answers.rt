// What the calls answer, and the histories with areas of their own.
// Buffers have a fixed size, since the program runs without a heap, as the library does.
use crate::partials::{Part, record};
use crate::salvaging::{field_after, gather, hole_from};
use reassembly::{Outcome, PartialRecord};
use vector_lines::bytes::word_bytes;
use vector_lines::lines::{decimal, letter, word};
use vector_lines::print::{digits, newline, number, put};
use wire::part::{part, tail};
use wire::refusal::Refusal;

// Writes a call's answer, and keeps what it left.
pub fn kept(rt: &impl Print, out: Outcome, payload: [u8; 8], marks: [u8; 1]) -> Part {
    verdict(rt, out.verdict);
    Part {
        rec: out.rec,
        payload,
        marks,
    }
}

fn verdict(rt: &impl Print, answer: Result<(), Refusal>) {
    match answer {
        Ok(()) => {
            put(rt, b"done\n");
        }
        Err(refusal) => refused(rt, refusal),
    }
}

fn completeness(rt: &impl Print, answer: Result<bool, Refusal>) {
    match answer {
        Ok(true) => {
            put(rt, b"yes\n");
        }
        Ok(false) => {
            put(rt, b"no\n");
        }
        Err(refusal) => refused(rt, refusal),
    }
}

// Writes a refusal: its number and place.
pub fn refused(rt: &impl Print, refusal: Refusal) {
    put(rt, b"refused");
    number(rt, refusal.reason.number() as usize);
    number(rt, refusal.place);
    newline(rt);
}

// What leaves a partial as it is.
pub fn show(rt: &impl Print, p: Part, line: &[u8]) -> Part {
    match letter(line) {
        b's' => all(rt, p),
        b'u' => unequal(rt, line),
        b'l' => large(rt, line),
        b'm' => counted(rt, line),
        b'w' => wide(rt, line),
        b'o' => octets(rt, line),
        b'f' => far(rt, p),
        b'g' => gather(rt, line),
        b'h' => hole_from(rt, line),
        b'a' => field_after(rt, line),
        _ => {
            put(rt, tail(line, 2));
            newline(rt);
        }
    }
    p
}

fn all(rt: &impl Print, p: Part) {
    of_areas(rt, p.rec, &p.payload, &p.marks);
}

fn of_areas(rt: &impl Print, rec: PartialRecord, payload: &[u8], marks: &[u8]) {
    put(rt, b"complete ");
    completeness(rt, reassembly::ask_complete(rec, payload, marks));
    put(rt, b"hand out [");
    put(rt, reassembly::hand_out(rec, payload, marks));
    put(rt, b"] ");
    verdict(rt, reassembly::hand_out_verdict(rec, payload, marks));
    areas(rt, payload, marks);
}

fn areas(rt: &impl Print, payload: &[u8], marks: &[u8]) {
    put(rt, b"areas ");
    put(rt, payload);
    put(rt, b" ");
    all_bits(rt, marks);
    newline(rt);
}

// The marks as bits, the lowest of each byte first.
fn all_bits(rt: &impl Print, marks: &[u8]) {
    for b in marks {
        for k in 0..8usize {
            digits(rt, ((*b >> k) % 2) as u64);
        }
    }
}

// How far the partial is.
fn far(rt: &impl Print, p: Part) {
    match reassembly::progress(p.rec, &p.payload, &p.marks) {
        Ok((covered, total)) => {
            put(rt, b"covered");
            number(rt, covered);
            number(rt, total);
            newline(rt);
        }
        Err(refusal) => refused(rt, refusal),
    }
}

// How many of a number's offsets the bytes of the line, as marks, have marked.
fn counted(rt: &impl Print, line: &[u8]) {
    let mut bytes = [0u8; 2049];
    let n = word_bytes(&mut bytes, line, 4);
    put(rt, b"counted");
    number(
        rt,
        marks::count_marked(part(&bytes, 0, n), decimal(line, 3)),
    );
    newline(rt);
}

// A history over areas of other lengths.
fn wide(rt: &impl Print, line: &[u8]) {
    let mut payload = [b'.'; 64];
    let mut marks = [0u8; 8];
    word_bytes(&mut marks, line, 5);
    of_length(rt, &mut payload, &mut marks, line);
}

fn of_length(rt: &impl Print, payload: &mut [u8], marks: &mut [u8], line: &[u8]) {
    let n = decimal(line, 3);
    let m = marks::marks_for(n);
    if payload.len() < n {
        return;
    }
    if marks.len() < m {
        return;
    }
    history(rt, &mut payload[0..n], &mut marks[0..m], line);
}

fn history(rt: &impl Print, payload: &mut [u8], marks: &mut [u8], line: &[u8]) {
    let first = take_word(rt, record(word(line, 4)), payload, marks, line, 6);
    let second = take_word(rt, first, payload, marks, line, 7);
    of_areas(rt, second, payload, marks);
}

fn take_word(
    rt: &impl Print,
    rec: PartialRecord,
    payload: &mut [u8],
    marks: &mut [u8],
    line: &[u8],
    k: usize,
) -> PartialRecord {
    let mut datagram = [0u8; 128];
    let n = word_bytes(&mut datagram, line, k);
    put(rt, b"take ");
    let out = reassembly::take_in(rec, payload, marks, part(&datagram, 0, n), &[]);
    verdict(rt, out.verdict);
    out.rec
}

// Areas of the line's two lengths, where nothing is started.
fn octets(rt: &impl Print, line: &[u8]) {
    let payload = [b'.'; 64];
    let marks = [0u8; 16];
    ask_alone(
        rt,
        record(word(line, 5)),
        part(&payload, 0, decimal(line, 3)),
        part(&marks, 0, decimal(line, 4)),
    );
}

// Areas of unequal length, where nothing is started.
fn unequal(rt: &impl Print, line: &[u8]) {
    let mut payload = [b'.'; 3];
    let mut marks = [1u8; 2];
    let rec = record(word(line, 3));
    take_alone(rt, rec, &mut payload, &mut marks, b"\xd2");
    ask_alone(rt, rec, &payload, &marks);
}

fn take_alone(
    rt: &impl Print,
    rec: PartialRecord,
    payload: &mut [u8],
    marks: &mut [u8],
    datagram: &[u8],
) {
    let out = reassembly::take_in(rec, payload, marks, datagram, &[]);
    verdict(rt, out.verdict);
}

fn ask_alone(rt: &impl Print, rec: PartialRecord, payload: &[u8], marks: &[u8]) {
    completeness(rt, reassembly::ask_complete(rec, payload, marks));
    verdict(rt, reassembly::hand_out_verdict(rec, payload, marks));
}

// A started partial of a larger total than a chunk may have is sound. A chunk's total may be 16,384.
fn large(rt: &impl Print, line: &[u8]) {
    let mut payload = [b'.'; 16385];
    let mut marks = [255u8; 2049];
    hand_out_length(rt, record(word(line, 3)), &payload, &marks);
    take_large(rt, line, &mut payload, &mut marks);
}

fn hand_out_length(rt: &impl Print, rec: PartialRecord, payload: &[u8], marks: &[u8]) {
    completeness(rt, reassembly::ask_complete(rec, payload, marks));
    digits(rt, reassembly::hand_out(rec, payload, marks).len() as u64);
    newline(rt);
}

fn take_large(rt: &impl Print, line: &[u8], payload: &mut [u8], marks: &mut [u8]) {
    let mut datagram = [0u8; 22];
    word_bytes(&mut datagram, line, 5);
    take_alone(rt, record(word(line, 4)), payload, marks, &datagram);
}
