// A quick step of a head record's cursor, where the value of the field that it stands before holds no other: type, shape and end told in
// line, and no configuration searched. It does what `Cursor::step` answers (proofs/Telling), and leaves no plain value that is accepted
// (proofs/NotTold). It has one caller, so that it is put in line there; its looks are not those of `value::quick`, which the walk's loops
// have in line, and promise more: that what they do not tell is refused. Worth: nearly half of the time of a call for a scalar of a fixed
// type, two thirds of that for a String, an array or a DataValue. Each form of value stores its records by itself, so that numbers that are
// 0 there are stored as such: a tenth of what is left.
// A type goes by its number: any byte may stand for one, on the wire and in the lists of types that are lent, and each is answered. An enum
// would have to be made of it at each field, and is no plainer.
ghost use Rattle.std.specs.Prelude.{◌≡◌, true, ◌||◌, List, eqb, ℕ, ◌+◌, ◌≤◌, ◌<◌, length, get_or};
ghost use Rattle.wire.specs.Constants.{VARIANT};
ghost use Rattle.wire.specs.Answer.{got, when_on, bit};
ghost use Rattle.plain_value.specs.Plain.{passing};
ghost use Rattle.wire_writer.specs.Store.{laid};
ghost use Rattle.records.specs.Numbers.{number_at, number_bytes};
ghost use Rattle.value.specs.Value.{INSIDE, value_at, variant_at, data_value_at};
ghost use Rattle.value.specs.Quick.{text_at, run_at};
ghost use Rattle.dataset_fields.specs.Fields.{encoded_at, next_field_at};
ghost use Rattle.message_record.specs.Message.{encoding_in, cursor_in, cursor_laid, field_numbers};
ghost use Rattle.message_record.specs.Quick.{Looks, LooksPast, other_first, plain_first, plain_held, plain_at, plain_step, field_told, cursor_told, StepTells};
ghost use Rattle.message_record.specs.declared.quick.Stepped.{Stepped};

use crate::message::{cursor_in, put_cursor, put_field};
use dataset_fields::fields::{Cursor, Field};
use plain_value::parts::parts_width;
use plain_value::width::width;
use records::numbers::number;
use value::quick::fixed_end;
use value::{Measured, Shape};
use wire::constants::DATA_VALUE;
use wire::{Length, has, read_length};

// That a step is done, with the field's offset; that no field is left; or that it is not told. It is neither Option nor Result: `Not` tells
// nothing, and refuses nothing.
#[derive(Clone, Copy, PartialEq, Eq, Debug)]
pub enum Stepped {
    Done(usize),
    End,
    Not,
}

// A String or ByteString of type t after its first byte.
#[tactic(auto, unfolding(plain_value::specs::Plain::string))]
fn string_at(s: &[u8], at: usize, t: u8) -> Option<(Measured, usize)>
    ensures { Looks true result (text_at t s.now at) }
{
    let Ok((length, next)) = read_length(s, at) else {
        return None;
    };
    match length {
        Length::Null => Some((Measured::new(t, Shape::Scalar), next)),
        Length::Of(n) if has(s.len(), next, n) => {
            Some((Measured::new(t, Shape::Scalar), next + n))
        }
        _ => None,
    }
}

// An array of the fixed type t, whose elements have w bytes each, after its first byte.
fn array_at(s: &[u8], at: usize, t: u8, w: usize) -> Option<(Measured, usize)>
    requires { w ≤ 16 }
    ensures { Looks true result (run_at t w s.now at) }
{
    let Ok((length, next)) = read_length(s, at) else {
        return None;
    };
    match length {
        Length::Null => Some((Measured::new(t, Shape::NullArray), next)),
        Length::Of(n) if has(s.len(), next, n * w) => {
            Some((Measured::new(t, Shape::Array(n)), next + n * w))
        }
        _ => None,
    }
}

// A scalar Variant of type t, whose first byte stands at a position: a String or a ByteString.
fn scalar_at(s: &[u8], at: usize, t: u8) -> Option<(Measured, usize)>
    requires { (at < length s.now) × (get_or s.now at 0 ≡ t) }
    ensures { Looks (eqb t 12 || eqb t 15) result (variant_at s.now at) }
{
    if (t == 12) | (t == 15) {
        return string_at(s, at + 1, t);
    }
    None
}

// A Variant, at a position, that is no null and no scalar of a fixed type.
fn other_at(s: &[u8], at: usize) -> Option<(Measured, usize)>
    requires { at < length s.now }
    ensures { Looks (other_first (get_or s.now at 0)) result (variant_at s.now at) }
{
    let b = s[at];
    let t = b % 64;
    if b < 64 {
        return scalar_at(s, at, t);
    }
    if b / 64 != 2 {
        return None;
    }
    let w = width(t);
    if w == 0 {
        return None;
    }
    array_at(s, at + 1, t, w)
}

// A Variant at a position.
fn variant_at(s: &[u8], at: usize) -> Option<(Measured, usize)>
    requires { at < length s.now }
    ensures { Looks (plain_first (get_or s.now at 0)) result (variant_at s.now at) }
{
    let end = fixed_end(s, at);
    if at < end {
        return Some((Measured::new(s[at], Shape::Scalar), end));
    }
    other_at(s, at)
}

// The position after the Variant of a DataValue with the mask m, where that is a null or a scalar of a fixed type, or `at` where it holds
// none.
fn held_end(s: &[u8], at: usize, m: u8) -> Option<usize>
    ensures { let held = when_on (bit 0 m) tt (passing (value_at INSIDE VARIANT)) s.now at in
        LooksPast (plain_held m s.now at) result held }
{
    if m % 2 == 0 {
        return Some(at);
    }
    let end = fixed_end(s, at);
    if at < end {
        return Some(end);
    }
    None
}

// A DataValue at a position.
fn data_value_at(s: &[u8], at: usize) -> Option<(Measured, usize)>
    requires { at < length s.now }
    ensures { Looks (plain_held (get_or s.now at 0) s.now (at + 1)) result (data_value_at s.now at) }
{
    let m = s[at];
    if 64 <= m {
        return None;
    }
    let after = held_end(s, at + 1, m)?;
    let w = parts_width(m);
    if has(s.len(), after, w) {
        return Some((Measured::new(DATA_VALUE, Shape::Scalar), after + w));
    }
    None
}

// A field's value by the number of its encoding.
fn look(s: &[u8], n: u64, at: usize) -> Option<(Measured, usize)>
    ensures { let plain = plain_at n s.now at in
        ((types : List ℕ) (k : ℕ) → Looks plain result (encoded_at (encoding_in n) types k s.now at)) }
{
    if s.len() <= at {
        return None;
    }
    if n == 0 {
        return variant_at(s, at);
    }
    if n == 2 {
        return data_value_at(s, at);
    }
    None
}

// Stores the field that a cursor stands before, by its value's type, shape and end, and the cursor after it. In line in each of its three
// places: where one of them calls it, the cursor is stored for that call on every way.
#[inline(always)]
fn put_told(
    head: &mut [u8],
    field: &mut [u8],
    c: Cursor,
    kind: u8,
    shape: Shape,
    end: usize,
) -> Stepped
    requires { (c.next < c.count) × (c.at ≤ end) }
    ensures { (result ≡ Stepped.Done c.at) × (head.new ≡ cursor_laid (cursor_told c end) head.old)
        × (field.new ≡ laid field.old 0 (number_bytes (field_numbers (field_told c kind shape end)))) }
{
    put_cursor(
        head,
        Cursor {
            next: c.next + 1,
            at: end,
            ..c
        },
    );
    put_field(
        field,
        Field {
            index: c.next,
            kind,
            shape,
            offset: c.at,
            length: end - c.at,
        },
    );
    Stepped::Done(c.at)
}

// A step of a cursor whose encoding has a number.
fn step_at(s: &[u8], n: u64, c: Cursor, head: &mut [u8], field: &mut [u8]) -> Stepped
    requires { c.encoding ≡ encoding_in n }
    ensures { (types : List ℕ) → StepTells (plain_step n c s.now) result (next_field_at c types s.now)
        head.old field.old head.new field.new }
{
    let at = c.at;
    if s.len() < at {
        return Stepped::Not;
    }
    if c.count <= c.next {
        return Stepped::End;
    }
    if c.delta {
        return Stepped::Not;
    }
    let Some((value, end)) = look(s, n, at) else {
        return Stepped::Not;
    };
    let kind = value.kind;
    match value.shape {
        Shape::Scalar => put_told(head, field, c, kind, Shape::Scalar, end),
        Shape::NullArray => put_told(head, field, c, kind, Shape::NullArray, end),
        shape => put_told(head, field, c, kind, shape, end),
    }
}

// A step of the cursor of a head record, which is moved: the field that it stood before is stored.
pub fn step(s: &[u8], head: &mut [u8], field: &mut [u8]) -> Stepped
    ensures { let cursor = cursor_in head.old in
        let plain = plain_step (number_at head.old 10) cursor s.now in
        ((types : List ℕ) → StepTells plain result (next_field_at cursor types s.now)
        head.old field.old head.new field.new) }
{
    step_at(s, number(head, 10), cursor_in(head), head, field)
}
