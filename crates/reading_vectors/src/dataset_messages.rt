// DataSetMessages alone: document 01's example and each refusal at each place. A line has a letter for the configured field types and a
// message: `t` UInt16 and Float, `-` or `N` none. The answer is kind, encoding, sequence number and the end of the last field, and each
// field as index, type, element count, offset and length. `F` has a message and the number of a field: the field, and how many bytes its
// part of the message has. `S` has a message of ten fields, the number of a field and a position: the field that a cursor there steps
// over; `C` the same of ten fields of RawData, with UInt16, Float and String configured. `K` and `R` have a message: how many fields it
// has and where the last ends, with no type configured and with 64 times UInt16.
use crate::or_refused;
use dataset_fields::fields::{Cursor, Field};
use dataset_header::flags::Encoding;
use dataset_header::header::Header;
use dataset_message::message::{field, field_place, read};
use value::Shape;
use vector_lines::lines::{decimal, letter};
use vector_lines::print::{named, number, optional, put};
use wire::refusal::Refusal;

const UINT16: u8 = 5;

const FLOAT: u8 = 10;

const STRING: u8 = 12;

// Shows a DataSetMessage of one line of the input.
pub fn vector(rt: &impl Print, line: &[u8], bytes: &[u8]) {
    let k = decimal(line, 2);
    let shown = match letter(line) {
        b'F' => one_field(rt, bytes, k),
        b'S' => one_step(
            rt,
            bytes,
            &[],
            cursor(Encoding::Variant, k, decimal(line, 3)),
        ),
        b'C' => one_step(
            rt,
            bytes,
            &[UINT16, FLOAT, STRING],
            cursor(Encoding::RawData, k, decimal(line, 3)),
        ),
        b'K' => count(rt, bytes, &[]),
        b'R' => count(rt, bytes, &[UINT16; 64]),
        b't' => show(rt, bytes, &[UINT16, FLOAT]),
        _ => show(rt, bytes, &[]),
    };
    or_refused(rt, shown);
}

fn show(rt: &impl Print, s: &[u8], types: &[u8]) -> Result<(), Refusal> {
    match read(s, types)? {
        None => {
            put(rt, b" invalid");
        }
        Some((header, cursor, end)) => {
            show_header(rt, header);
            number(rt, end);
            show_fields(rt, s, types, cursor);
        }
    }
    Ok(())
}

fn show_header(rt: &impl Print, header: Header) {
    named(rt, b"key delta event alive", header.kind as usize);
    named(rt, b"variant raw value", header.encoding as usize);
    optional(rt, header.sequence);
}

fn show_fields(rt: &impl Print, s: &[u8], types: &[u8], first: Cursor) {
    let mut cursor = first;
    for _ in 0..first.count {
        let step = cursor.step(s, types);
        if let Ok((f, next)) = step {
            put(rt, b",");
            show_field(rt, f);
            cursor = next;
        }
        or_refused(rt, step.map(|_| ()));
    }
}

fn show_field(rt: &impl Print, f: Field) {
    number(rt, f.index);
    number(rt, f.kind as usize);
    match f.shape {
        Shape::Scalar => {
            put(rt, b" -");
        }
        Shape::NullArray => {
            put(rt, b" -1");
        }
        Shape::Array(n) => {
            number(rt, n);
        }
        Shape::Matrix(n, d) => {
            number(rt, n);
            put(rt, b" in");
            number(rt, d as usize);
        }
    }
    number(rt, f.offset);
    number(rt, f.length);
}

fn count(rt: &impl Print, s: &[u8], types: &[u8]) -> Result<(), Refusal> {
    match read(s, types)? {
        None => {
            put(rt, b" invalid");
        }
        Some((_, cursor, end)) => {
            number(rt, cursor.count);
            number(rt, end);
        }
    }
    Ok(())
}

fn one_field(rt: &impl Print, s: &[u8], k: usize) -> Result<(), Refusal> {
    let found = field_place(s, &[], k);
    if let Ok((f, _)) = found {
        show_field(rt, f);
    }
    or_refused(rt, found.map(|_| ()));
    number(rt, field(s, &[], k).len());
    Ok(())
}

// A cursor before one of ten fields, at a position.
fn cursor(encoding: Encoding, next: usize, at: usize) -> Cursor {
    Cursor {
        encoding,
        delta: false,
        next,
        count: 10,
        at,
    }
}

fn one_step(rt: &impl Print, s: &[u8], types: &[u8], cursor: Cursor) -> Result<(), Refusal> {
    let (f, _) = cursor.step(s, types)?;
    show_field(rt, f);
    Ok(())
}
