// Encoded values of Part 6, measured at a position of a slice: a Variant, a DataValue, an element of RawData.
// A type goes by its number: any byte may stand for one, on the wire and in the lists of types that are lent, and each is answered. An enum
// would have to be made of it at each field, and is no plainer.
#![tactic(auto)]

mod head;
mod matrix;
pub mod quick;

ghost use Rattle.std.specs.Prelude.{◌≡◌, ℕ, ◌<◌};
ghost use Rattle.wire.specs.Answer.{got, each};
ghost use Rattle.wire.specs.Refusal.{answer, answer_to};
ghost use Rattle.plain_value.specs.Plain.{passing};
ghost use Rattle.value.specs.Quick.{described_at};
ghost use Rattle.value.specs.Value.{measure, dimensions_of, INSIDE, too_deep, value_at, variant_at, data_value_at, raw_at};

use crate::quick::{
    data_value_look, described, fixed_end, is_strings, pass_texts, pass_variants, variant_look,
};
use head::{Head, head_at, inside, pass_rest};
use matrix::matrix_at;
use plain_value::width::width;
use wire::constants::{DATA_VALUE, LEVELS, VARIANT};
use wire::item::Item;
use wire::refusal::{Read, Reason, Refusal};
use wire::skip;

// The levels left inside a field's own value.
const INSIDE: usize = 99;

// The bits of an array and of dimensions in a Variant's first byte.
pub(crate) const MATRIX: u8 = 192;

// The first byte of an array of Variants.
const VARIANTS: u8 = 152;

// A scalar, a null array, an array with its element count, or one with a dimensions list: the count of all its elements, and how many
// dimensions it has.
#[derive(Clone, Copy, PartialEq, Eq, Debug)]
pub enum Shape {
    Scalar,
    NullArray,
    Array(usize),
    Matrix(usize, u32),
}

// A measured value: its type number and its shape.
#[derive(Clone, Copy, PartialEq, Eq, Debug)]
pub struct Measured {
    pub kind: u8,
    pub shape: Shape,
}

impl Measured {
    // A value of a type and of a shape.
    pub fn new(kind: u8, shape: Shape) -> Self
        ensures { result ≡ measure kind shape }
    {
        Measured { kind, shape }
    }
}

// How many dimensions a value of a shape has.
pub fn dimensions(shape: Shape) -> u32
    ensures { result ≡ dimensions_of shape }
{
    match shape {
        Shape::Scalar => 0,
        Shape::NullArray => 1,
        Shape::Array(_) => 1,
        Shape::Matrix(_, d) => d,
    }
}

// Refuses a value past the last level.
fn too_deep(s: &[u8], at: usize) -> Result<usize, Refusal>
    ensures { answer_to tt result ≡ passing too_deep s.now at }
{
    skip(s, at, 1)?;
    Err(Reason::TooDeep.at(at))
}

// Passes over n values of type t, each with so many levels left. The loop stands apart from what it calls, so that the answer of a value
// inside takes no stack of its own while the value around it is looked at: a fifth of the stack of nested values.
#[cycle(pass_value)]
fn pass_held(s: &[u8], at: usize, levels: usize, t: u8, n: u32) -> Result<usize, Refusal>
    ensures { answer_to tt result ≡ each (value_at levels t) n s.now at }
{
    let mut p = at;
    for _ in 0..n {
        p = pass_value(&*s, p, levels, t)?;
    }
    Ok(p)
}

// Passes over a value with so many levels left: a DataValue where t is 23, else a Variant.
#[cycle(pass_value)]
fn pass_value(s: &[u8], at: usize, levels: usize, t: u8) -> Result<usize, Refusal>
    ensures { answer_to tt result ≡ passing (value_at levels t) s.now at }
{
    if levels == 0 {
        return too_deep(s, at);
    }
    match head_at(s, at, t)? {
        Head::To(end) => Ok(end),
        Head::Holds(from, count, inner, after) => {
            let p = pass_held(s, from, levels - 1, inner, inside(after, count))?;
            pass_rest(s, p, count, after)
        }
    }
}

// Passes over a value of type t inside a field's own value. Most are scalars of a fixed type, told by the first byte.
#[tactic(auto, using(crate::proofs::FirstItems::fixed_variant))]
fn pass_one(s: &[u8], at: usize, t: u8) -> Result<usize, Refusal>
    ensures { answer_to tt result ≡ passing (value_at INSIDE t) s.now at }
{
    if t == VARIANT {
        let end = fixed_end(s, at);
        if at < end {
            return Ok(end);
        }
    }
    pass_value(&*s, at, INSIDE, t)
}

// Passes over n values of type t inside a field's own value.
pub(crate) fn pass_inside(s: &[u8], at: usize, t: u8, n: usize) -> Result<usize, Refusal>
    ensures { answer_to tt result ≡ each (value_at INSIDE t) n s.now at }
{
    let mut p = at;
    for _ in 0..n {
        p = pass_one(s, p, t)?;
    }
    Ok(p)
}

// Passes over a Variant that a look does not tell: an array of Strings or of Variants by its count, any other by its head.
fn pass_other(s: &[u8], at: usize) -> Result<usize, Refusal>
    ensures { answer_to tt result ≡ passing variant_at s.now at }
{
    if at < s.len() {
        if is_strings(s[at]) {
            return pass_texts(&*s, at + 1, s[at] % 64);
        }
        if s[at] == VARIANTS {
            return pass_variants(&*s, at + 1);
        }
    }
    pass_value(&*s, at, LEVELS, VARIANT)
}

// Passes over a Variant; most hold no other value. It has one caller, so that it is put in line there.
pub fn pass_variant(s: &[u8], at: usize) -> Result<usize, Refusal>
    ensures { answer_to tt result ≡ passing variant_at s.now at }
{
    if let Some(end) = variant_look(s, at) {
        return Ok(end);
    }
    pass_other(s, at)
}

// Passes over a DataValue; most hold a scalar. It has one caller, so that it is put in line there.
pub fn pass_data_value(s: &[u8], at: usize) -> Result<usize, Refusal>
    ensures { answer_to tt result ≡ passing data_value_at s.now at }
{
    if let Some(end) = data_value_look(s, at) {
        return Ok(end);
    }
    pass_value(&*s, at, LEVELS, DATA_VALUE)
}

// A Variant that was passed over, told by its first items where these tell it.
fn told(s: &[u8], at: usize, passed: Result<usize, Refusal>) -> Read<Measured>
    requires { (answer_to tt passed ≡ passing variant_at s.now at)
        × ((end : ℕ) → passing variant_at s.now at ≡ got tt end → variant_at s.now at ≡ described_at end s.now at) }
    ensures { answer result ≡ variant_at s.now at }
{
    described(s, at, passed?)
}

// A Variant at a position, by its first byte: an array with dimensions in one pass, any other is passed over and told by its first items.
pub(crate) fn measure_other(s: &[u8], at: usize) -> Read<Measured>
    ensures { answer result ≡ variant_at s.now at }
{
    let (b, next) = u8::read(s, at)?;
    if MATRIX <= b {
        return matrix_at(&*s, at, next, b - MATRIX);
    }
    if is_strings(b) {
        return told(s, at, pass_texts(&*s, next, b % 64));
    }
    if b == VARIANTS {
        return told(s, at, pass_variants(&*s, next));
    }
    told(s, at, pass_value(&*s, at, LEVELS, VARIANT))
}

// A Variant at a position.
#[tactic(auto, using(crate::proofs::FirstItems::fixed_variant))]
pub fn measure_variant(s: &[u8], at: usize) -> Read<Measured>
    ensures { answer result ≡ variant_at s.now at }
{
    let end = fixed_end(s, at);
    if at < end {
        return Ok((Measured::new(s[at], Shape::Scalar), end));
    }
    measure_other(&*s, at)
}

// A DataValue at a position.
#[tactic(auto, using(crate::proofs::FirstItems::data_value_is))]
pub fn measure_data_value(s: &[u8], at: usize) -> Read<Measured>
    ensures { answer result ≡ data_value_at s.now at }
{
    let end = pass_value(&*s, at, LEVELS, DATA_VALUE)?;
    Ok((Measured::new(DATA_VALUE, Shape::Scalar), end))
}

// Passes over a fixed-width element of type t, as in RawData. Any other type is 4.
pub fn pass_element(s: &[u8], at: usize, t: u8) -> Result<usize, Refusal>
    ensures { answer_to tt result ≡ passing (raw_at t) s.now at }
{
    let w = width(t);
    if w == 0 {
        return Err(Reason::NotTaken.at(at));
    }
    skip(s, at, w)
}

// A fixed-width element of type t at a position, as in RawData. Any other type is 4.
pub fn measure_raw(s: &[u8], at: usize, t: u8) -> Read<Measured>
    ensures { answer result ≡ raw_at t s.now at }
{
    let end = pass_element(s, at, t)?;
    Ok((Measured::new(t, Shape::Scalar), end))
}
