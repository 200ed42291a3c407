// Parts of values: document 01's section "Values", by Part 6. A line has a letter with a position, and bytes: `v` a Variant, `d` a
// DataValue, `r` an element of RawData, whose type is the first byte; `e` has the number of an element of the array of Strings in the
// bytes. The answer is type, element count (and in how many dimensions, where they are listed), width, first byte and end, and whether it
// is null; of a name also its number, and place and length of its locale and of its text; of a DataValue that of its Variant, then its
// mask, the places of its Variant, status, source time, source picoseconds, server time and server picoseconds, and its end.
use crate::or_refused;
use plain_value::plain::{LOCALIZED_TEXT, QUALIFIED_NAME};
use value::Shape;
use value_parts::data_value::{FieldParts, tell_data_value};
use value_parts::name::{Name, tell_name};
use value_parts::told::{ValueParts, tell_element, tell_raw, tell_variant};
use vector_lines::lines::{decimal_at, letter};
use vector_lines::print::{named, number, put};
use wire::refusal::Refusal;

// Shows the parts of a value of one line of the input.
pub fn vector(rt: &impl Print, line: &[u8], bytes: &[u8]) {
    or_refused(rt, show(rt, letter(line), bytes, decimal_at(line, 1, b' ')));
}

fn show(rt: &impl Print, first: u8, bytes: &[u8], at: usize) -> Result<(), Refusal> {
    match first {
        b'd' => show_field(rt, tell_data_value(bytes, at)?),
        b'r' => show_value(rt, bytes, tell_raw(bytes, at, letter(bytes))?),
        b'e' => show_value(rt, bytes, element(bytes, at)?),
        _ => show_value(rt, bytes, tell_variant(bytes, at)?),
    }
    Ok(())
}

fn element(bytes: &[u8], k: usize) -> Result<ValueParts, Refusal> {
    let p = tell_variant(bytes, 0)?;
    tell_element(bytes, p.first, p.kind, count(p.shape), k)
}

fn count(shape: Shape) -> usize {
    match shape {
        Shape::Scalar => 0,
        Shape::NullArray => 0,
        Shape::Array(n) => n,
        Shape::Matrix(n, _) => n,
    }
}

fn show_value(rt: &impl Print, bytes: &[u8], p: ValueParts) {
    show_parts(rt, p);
    if (p.kind == QUALIFIED_NAME) | (p.kind == LOCALIZED_TEXT) {
        show_name(rt, tell_name(bytes, p));
    }
}

fn show_name(rt: &impl Print, name: Name) {
    number(rt, name.number as usize);
    number(rt, name.locale.place);
    number(rt, name.locale.length);
    number(rt, name.text.place);
    number(rt, name.text.length);
}

fn show_parts(rt: &impl Print, p: ValueParts) {
    number(rt, p.kind as usize);
    match p.shape {
        Shape::Scalar => {
            named(rt, b"- -1", 0);
        }
        Shape::NullArray => {
            named(rt, b"- -1", 1);
        }
        Shape::Array(n) => {
            number(rt, n);
        }
        Shape::Matrix(n, d) => {
            number(rt, n);
            put(rt, b" in");
            number(rt, d as usize);
        }
    }
    number(rt, p.width);
    number(rt, p.first);
    number(rt, p.end);
    if p.null {
        put(rt, b" null");
    }
}

fn show_field(rt: &impl Print, f: FieldParts) {
    show_parts(rt, f.value);
    number(rt, f.mask as usize);
    number(rt, f.variant);
    number(rt, f.status);
    number(rt, f.source_time);
    number(rt, f.source_picoseconds);
    number(rt, f.server_time);
    number(rt, f.server_picoseconds);
    number(rt, f.end);
}
