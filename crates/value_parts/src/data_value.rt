// A DataValue told apart: its Variant, status, times and picoseconds, each with its place; and a field's value by its encoding.
// A type goes by its number: any byte may stand for one, on the wire and in the lists of types that are lent, and each is answered. An enum
// would have to be made of it at each field, and is no plainer.
ghost use Rattle.std.specs.Prelude.{◌≡◌, true, cond};
ghost use Rattle.wire.specs.Constants.{VARIANT};
ghost use Rattle.wire.specs.Answer.{bit, map_answer};
ghost use Rattle.wire.specs.Refusal.{answer};
ghost use Rattle.value.specs.Value.{INSIDE, value_at, data_value_at};
ghost use Rattle.value_parts.specs.DataValue.{is_got, placed_at, no_variant_at, told_parts_at, told_after_mask_at, told_data_value_at};
ghost use Rattle.value_parts.specs.DataValue.{alone_parts, told_field_at, answer_field_told};
ghost use Rattle.value_parts.specs.Told.{answer_told, told_inside, told_element_at};

use crate::told::{ValueParts, tell_element, tell_raw, tell_variant};
use dataset_header::flags::Encoding;
use value::{Shape, measure_data_value};
use wire::item::Item;
use wire::refusal::{Read, Refusal};
use wire::skip;

// What a field's value is told apart into: `value` is the Variant, or RawData's element. Of a DataValue the mask tells which parts it has;
// its Variant's place and those of its other parts are 0 where they are absent, and an absent Variant is told as a null one. Of any other
// value mask and places are 0.
#[derive(Clone, Copy, PartialEq, Eq, Debug)]
pub struct FieldParts {
    pub mask: u8,
    pub variant: usize,
    pub value: ValueParts,
    pub status: usize,
    pub source_time: usize,
    pub source_picoseconds: usize,
    pub server_time: usize,
    pub server_picoseconds: usize,
    pub end: usize,
}

// The place of w bytes that a flag announces, 0 where it is off.
fn place_if(s: &[u8], on: bool, at: usize, w: usize) -> Read<usize>
    ensures { answer result ≡ placed_at on w s.now at }
{
    if !on {
        return Ok((0, at));
    }
    let end = skip(s, at, w)?;
    Ok((at, end))
}

// The parts after a DataValue's Variant, which was told as `value` and stands at `variant`.
fn tell_parts(
    s: &[u8],
    m: u8,
    variant: usize,
    value: ValueParts,
    at: usize,
) -> Result<FieldParts, Refusal>
    ensures { answer_field_told result ≡ told_parts_at m variant value s.now at }
{
    let (status, status_end) = place_if(s, (m >> 1) % 2 == 1, at, 4)?;
    let (source_time, time_end) = place_if(s, (m >> 2) % 2 == 1, status_end, 8)?;
    let (source_picoseconds, source_end) = place_if(s, (m >> 4) % 2 == 1, time_end, 2)?;
    let (server_time, server_end) = place_if(s, (m >> 3) % 2 == 1, source_end, 8)?;
    let (server_picoseconds, end) = place_if(s, (m >> 5) % 2 == 1, server_end, 2)?;
    Ok(FieldParts {
        mask: m,
        variant,
        value,
        status,
        source_time,
        source_picoseconds,
        server_time,
        server_picoseconds,
        end,
    })
}

// The Variant that a DataValue with the mask m holds, told, or that it holds none.
#[tactic(auto, using(crate::proofs::Agreement::told_deeper))]
fn held(s: &[u8], m: u8, at: usize) -> Result<ValueParts, Refusal>
    requires { bit 0 m ≡ true → is_got (value_at INSIDE VARIANT s.now at) ≡ true }
    ensures { answer_told result ≡ cond (bit 0 m) (told_inside INSIDE) no_variant_at s.now at }
{
    if m % 2 == 1 {
        return tell_variant(s, at);
    }
    Ok(ValueParts {
        kind: 0,
        shape: Shape::Scalar,
        width: 0,
        null: true,
        first: at,
        end: at,
    })
}

// Where that Variant stands, 0 where there is none.
fn held_place(m: u8, at: usize) -> usize
    ensures { result ≡ cond (bit 0 m) at 0 }
{
    if m % 2 == 1 {
        return at;
    }
    0
}

// What follows the mask m of an accepted DataValue; the mask stands before `at`. The parts are told by one call, which is put in line.
fn tell_after_mask(s: &[u8], m: u8, at: usize) -> Result<FieldParts, Refusal>
    requires { bit 0 m ≡ true → is_got (value_at INSIDE VARIANT s.now at) ≡ true }
    ensures { answer_field_told result ≡ told_after_mask_at m s.now at }
{
    let value = held(s, m, at)?;
    tell_parts(s, m, held_place(m, at), value, value.end)
}

// An accepted DataValue.
fn tell_accepted(s: &[u8], at: usize) -> Result<FieldParts, Refusal>
    requires { is_got (data_value_at s.now at) ≡ true }
    ensures { answer_field_told result ≡ told_data_value_at s.now at }
{
    let (m, next) = u8::read(s, at)?;
    tell_after_mask(s, m, next)
}

// A DataValue at a position. It is measured whole, and then its parts are told.
#[tactic(auto, using(crate::proofs::Agreement::data_value_refused))]
pub fn tell_data_value(s: &[u8], at: usize) -> Result<FieldParts, Refusal>
    ensures { answer_field_told result ≡ told_data_value_at s.now at }
{
    measure_data_value(s, at)?;
    tell_accepted(s, at)
}

// A value that is no DataValue, as a field's.
fn alone(value: ValueParts) -> FieldParts
    ensures { result ≡ alone_parts value }
{
    FieldParts {
        mask: 0,
        variant: 0,
        value,
        status: 0,
        source_time: 0,
        source_picoseconds: 0,
        server_time: 0,
        server_picoseconds: 0,
        end: value.end,
    }
}

// A field's value at a position, by the encoding of its message: a Variant, a DataValue, or in RawData an element of type t.
pub fn tell_field(s: &[u8], at: usize, encoding: Encoding, t: u8) -> Result<FieldParts, Refusal>
    ensures { answer_field_told result ≡ told_field_at encoding t s.now at }
{
    match encoding {
        Encoding::Variant => tell_variant(s, at).map(alone),
        Encoding::RawData => tell_raw(s, at, t).map(alone),
        Encoding::DataValue => tell_data_value(s, at),
    }
}

// Element k of an array of n Strings, ByteStrings or names of type t, whose first element stands at a position, as a field's value: k at or
// past n is 10.
pub fn tell_text(s: &[u8], at: usize, t: u8, n: usize, k: usize) -> Result<FieldParts, Refusal>
    ensures { answer_field_told result ≡ map_answer alone_parts (told_element_at t n k s.now at) }
{
    tell_element(s, at, t, n, k).map(alone)
}
