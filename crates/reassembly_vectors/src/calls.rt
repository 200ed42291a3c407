// The calls on partials.
// Buffers have a fixed size, since the program runs without a heap, as the library does.
use crate::answers::{kept, show};
use crate::partials::{Part, record, with_record};
use chunk::cut::cut;
use reassembly::PartialRecord;
use vector_lines::bytes::word_bytes;
use vector_lines::input::LARGE;
use vector_lines::lines::{decimal, letter, word};
use vector_lines::print::put;
use wire::part::part;
use wire_writer::store::put_run;

// The number of the message that is cut, and the size of its chunks' data.
const MESSAGE: u16 = 7;

const DATA_SIZE: usize = 3;

// Shows what a call of one line of the input answers and leaves.
pub fn called(rt: &impl Print, p: Part, source: Part, line: &[u8]) -> Part {
    match letter(line) {
        b'n' => new(line),
        b'r' => with_record(p, record(word(line, 3))),
        b'e' => emptied(p),
        b't' => take(rt, p, line),
        b'p' => take_piece(rt, p, line),
        b'c' => combine(rt, p, source),
        b'j' => join(rt, p, line),
        _ => show(rt, p, line),
    }
}

// A new partial over the areas of the line.
pub fn new(line: &[u8]) -> Part {
    let mut payload = [0u8; 8];
    let mut marks = [0u8; 1];
    word_bytes(&mut payload, line, 3);
    word_bytes(&mut marks, line, 4);
    Part {
        rec: record(b"h4711,w21,n7,l1,"),
        payload,
        marks,
    }
}

fn emptied(p: Part) -> Part {
    with_record(p, reassembly::empty(p.rec))
}

fn take(rt: &impl Print, p: Part, line: &[u8]) -> Part {
    let mut datagram = [0u8; LARGE];
    let n = word_bytes(&mut datagram, line, 3);
    taken(rt, p, part(&datagram, 0, n))
}

// Takes in a chunk of a payload, after the envelope that the line has.
fn take_piece(rt: &impl Print, p: Part, line: &[u8]) -> Part {
    let mut piece = [0u8; 32];
    let Ok(n) = cut(
        &mut piece,
        b"abcdefgh",
        MESSAGE,
        DATA_SIZE,
        decimal(line, 3),
    ) else {
        put(rt, b"not cut\n");
        return p;
    };
    let mut datagram = [0u8; 64];
    let front = word_bytes(&mut datagram, line, 4);
    let end = put_run(&mut datagram, front, part(&piece, 0, n));
    taken(rt, p, part(&datagram, 0, end))
}

fn taken(rt: &impl Print, p: Part, datagram: &[u8]) -> Part {
    let mut payload = p.payload;
    let mut marks = p.marks;
    put(rt, b"take ");
    let out = reassembly::take_in(p.rec, &mut payload, &mut marks, datagram, &[]);
    kept(rt, out, payload, marks)
}

fn combine(rt: &impl Print, p: Part, source: Part) -> Part {
    joined(rt, p, source.rec, &source.payload, &source.marks)
}

fn join(rt: &impl Print, p: Part, line: &[u8]) -> Part {
    let mut payload = [0u8; 16];
    let mut marks = [0u8; 16];
    let n = word_bytes(&mut payload, line, 4);
    let m = word_bytes(&mut marks, line, 5);
    joined(
        rt,
        p,
        record(word(line, 3)),
        part(&payload, 0, n),
        part(&marks, 0, m),
    )
}

fn joined(rt: &impl Print, p: Part, source: PartialRecord, from: &[u8], from_marks: &[u8]) -> Part {
    let mut payload = p.payload;
    let mut marks = p.marks;
    put(rt, b"combine ");
    let out = reassembly::combine_in(p.rec, &mut payload, &mut marks, source, from, from_marks);
    kept(rt, out, payload, marks)
}
