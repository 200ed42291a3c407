// What is salvaged of partials, and what cursors over holes and fields tell.
// Buffers have a fixed size, since the program runs without a heap, as the library does.
use crate::answers::refused;
use crate::partials::record;
use dataset_fields::fields::{Cursor, Field};
use dataset_header::flags::Encoding;
use message_record::message::{elements_number, shape_number};
use partial_record::salvage_record::salvage;
use reassembly::PartialRecord;
use salvage::front::{FieldShown, next};
use salvage::holes::next_hole;
use value::dimensions;
use vector_lines::bytes::word_bytes;
use vector_lines::lines::{decimal, numbered, word};
use vector_lines::print::{newline, number, put};
use wire::item::Item;
use wire::part::part;

// The entries that a list has at most, and the bytes of one.
const MOST: usize = 8;

const ENTRY_SIZE: usize = 64;

// Salvages the partial of a line: its record, payload area and marks; how many entries the list has room for; the configured types.
pub fn gather(rt: &impl Print, line: &[u8]) {
    let mut payload = [b'.'; 64];
    let mut marks = [0u8; 8];
    let mut types = [0u8; 8];
    let n = word_bytes(&mut payload, line, 4);
    let m = word_bytes(&mut marks, line, 5);
    let t = word_bytes(&mut types, line, 7);
    of_partial(
        rt,
        record(word(line, 3)),
        part(&payload, 0, n),
        part(&marks, 0, m),
        part(&types, 0, t),
        decimal(line, 6),
    );
}

fn of_partial(
    rt: &impl Print,
    rec: PartialRecord,
    payload: &[u8],
    marks: &[u8],
    types: &[u8],
    room: usize,
) {
    match reassembly::progress(rec, payload, marks) {
        Err(refusal) => refused(rt, refusal),
        Ok((_, total)) => of_room(rt, payload, marks, types, total, room),
    }
}

fn of_room(rt: &impl Print, payload: &[u8], marks: &[u8], types: &[u8], total: usize, room: usize) {
    let mut told = [0u8; 64];
    let mut list = [b'.'; 512];
    if MOST < room {
        return;
    }
    let end = ENTRY_SIZE * room;
    into_list(
        rt,
        &mut told,
        &mut list[0..end],
        payload,
        marks,
        types,
        total,
    );
}

fn into_list(
    rt: &impl Print,
    told: &mut [u8],
    list: &mut [u8],
    payload: &[u8],
    marks: &[u8],
    types: &[u8],
    total: usize,
) {
    match salvage(told, list, payload, marks, types, total) {
        Err(refusal) => refused(rt, refusal),
        Ok(n) => {
            all_told(rt, told);
            entries(rt, list, number_at(told, 0), n);
        }
    }
}

// The number at a position.
fn number_at(s: &[u8], at: usize) -> usize {
    match u64::read(s, at) {
        Ok((n, _)) => n as usize,
        Err(_) => 0,
    }
}

// Holes, fields, whether the count is known, promised, front, total, encoding.
fn all_told(rt: &impl Print, told: &[u8]) {
    put(rt, b"salvaged");
    for i in 0..7 {
        number(rt, number_at(told, 8 * i));
    }
    newline(rt);
}

fn entries(rt: &impl Print, list: &[u8], holes: usize, n: usize) {
    for i in 0..n.min(MOST) {
        entry(rt, part(list, ENTRY_SIZE * i, ENTRY_SIZE), i < holes);
    }
}

// A hole's offset and length; a field's index, type, shape, elements, dimensions, offset and length.
fn entry(rt: &impl Print, e: &[u8], hole: bool) {
    if hole {
        put(rt, b"hole");
    } else {
        put(rt, b"field");
        number(rt, number_at(e, 24));
        number(rt, number_at(e, 0));
        number(rt, number_at(e, 8));
        number(rt, number_at(e, 16));
        number(rt, number_at(e, 48));
    }
    number(rt, number_at(e, 32));
    number(rt, number_at(e, 40));
    newline(rt);
}

// The first hole of the marks of a line, of so many offsets, from a position on.
pub fn hole_from(rt: &impl Print, line: &[u8]) {
    let mut marks = [0u8; 8];
    let m = word_bytes(&mut marks, line, 3);
    match next_hole(part(&marks, 0, m), decimal(line, 4), decimal(line, 5)) {
        None => {
            put(rt, b"last\n");
        }
        Some((h, end)) => {
            put(rt, b"hole");
            number(rt, h.offset);
            number(rt, h.length);
            put(rt, b" to");
            number(rt, end);
            newline(rt);
        }
    }
}

// The field after a cursor of a line, in an area of which so many bytes are the front, with the configured types.
pub fn field_after(rt: &impl Print, line: &[u8]) {
    let mut area = [b'.'; 64];
    let mut types = [0u8; 8];
    let n = word_bytes(&mut area, line, 3);
    let t = word_bytes(&mut types, line, 6);
    shown(
        rt,
        part(&area, 0, decimal(line, 4)),
        part(&area, 0, n),
        part(&types, 0, t),
        cursor(word(line, 5)),
    );
}

// `e` the encoding's number, `x` 1 for a delta, `n` the next field, `c` how many there are, `o` where it starts.
fn cursor(parts: &[u8]) -> Cursor {
    Cursor {
        encoding: encoding(numbered(parts, b'e')),
        delta: numbered(parts, b'x') == 1,
        next: numbered(parts, b'n'),
        count: numbered(parts, b'c'),
        at: numbered(parts, b'o'),
    }
}

fn encoding(n: usize) -> Encoding {
    match n {
        1 => Encoding::RawData,
        2 => Encoding::DataValue,
        _ => Encoding::Variant,
    }
}

fn shown(rt: &impl Print, front: &[u8], area: &[u8], types: &[u8], c: Cursor) {
    match next(front, area, types, c) {
        Err(refusal) => refused(rt, refusal),
        Ok(FieldShown::Ends) => {
            put(rt, b"ends\n");
        }
        Ok(FieldShown::Last) => {
            put(rt, b"last\n");
        }
        Ok(FieldShown::Is(f, after)) => {
            one_field(rt, f);
            put(rt, b" next");
            number(rt, after.next);
            put(rt, b" at");
            number(rt, after.at);
            newline(rt);
        }
    }
}

fn one_field(rt: &impl Print, f: Field) {
    put(rt, b"field");
    number(rt, f.index);
    number(rt, f.kind as usize);
    number(rt, shape_number(f.shape) as usize);
    number(rt, elements_number(f.shape) as usize);
    number(rt, dimensions(f.shape) as usize);
    number(rt, f.offset);
    number(rt, f.length);
}
