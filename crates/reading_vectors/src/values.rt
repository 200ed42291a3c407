// Values: document 01's section "Values". A line has a letter with a position, and bytes: `v` or `V` a Variant, `d` or `D` a DataValue,
// `r` an element of RawData, whose type is the first byte; `E` is such an element in no bytes at all. The answer is type, element count
// and end. `T` has 17 bytes of a Variant and an array: the answer is of both, and of an element of the Variant's type after the array's
// first byte. `p` has a type's number and bytes: the answer is the end of a value of that type alone.
use crate::or_refused;
use plain_value::plain::plain_value;
use value::{Measured, Shape, measure_data_value, measure_raw, measure_variant};
use vector_lines::lines::{decimal_at, letter};
use vector_lines::print::{named, number, put};
use wire::part::{part, tail};
use wire::refusal::{Read, Refusal};

// How many bytes a line `T` has of the Variant.
const SCALAR: usize = 17;

// Shows a value of one line of the input.
pub fn vector(rt: &impl Print, line: &[u8], bytes: &[u8]) {
    let first = letter(line);
    if first == b'T' {
        return each_way(rt, part(bytes, 0, SCALAR), tail(bytes, SCALAR));
    }
    let at = decimal_at(line, 1, b' ');
    if first == b'p' {
        return or_refused(rt, alone(rt, tail(bytes, 1), at, letter(bytes)));
    }
    show(rt, measured(first, bytes, at));
}

fn alone(rt: &impl Print, bytes: &[u8], at: usize, kind: u8) -> Result<(), Refusal> {
    let end = plain_value(bytes, at, kind)?;
    number(rt, end);
    Ok(())
}

fn measured(first: u8, bytes: &[u8], at: usize) -> Read<Measured> {
    match first {
        b'd' | b'D' => measure_data_value(bytes, at),
        b'r' => measure_raw(bytes, at, letter(bytes)),
        b'E' => measure_raw(part(bytes, 0, 0), at, letter(bytes)),
        _ => measure_variant(bytes, at),
    }
}

fn each_way(rt: &impl Print, scalar: &[u8], array: &[u8]) {
    show(rt, measure_variant(scalar, 0));
    put(rt, b";");
    show(rt, measure_variant(array, 0));
    put(rt, b";");
    show(rt, measure_raw(array, 1, letter(scalar)));
}

fn show(rt: &impl Print, answer: Read<Measured>) {
    or_refused(rt, answer.map(|(m, end)| show_value(rt, m, end)));
}

fn show_value(rt: &impl Print, m: Measured, end: usize) {
    number(rt, m.kind as usize);
    match m.shape {
        Shape::Scalar => {
            named(rt, b"- -1", 0);
        }
        Shape::NullArray => {
            named(rt, b"- -1", 1);
        }
        Shape::Array(n) => {
            number(rt, n);
        }
        Shape::Matrix(n, d) => {
            number(rt, n);
            put(rt, b" in");
            number(rt, d as usize);
        }
    }
    number(rt, end);
}
