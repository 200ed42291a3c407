// Quick ways to what measuring says: a Variant that is a null or a scalar of a fixed type told by its first byte; a Variant that was passed
// already told by its first items; a Variant that holds no other value told in one look, by where it ends, or with its type, shape and end,
// a matrix of two dimensions among them; a DataValue that holds such a scalar by its mask. A look has no position where it does not tell
// (plain_value::quick). Their laws are in proofs/FirstByte, FirstItems, Runs and Looks. Worth: a quarter of the time of a scalar; of the
// look, half of the time of Strings, arrays and DataValues, and a fifth of that of a large matrix; of the null among the sizes, whose
// table then starts at 0, a seventh of the time of scalars; of an array of Strings without its head, two fifths of the time of short
// ones; of one of Variants, with a look at each, nearly half.
// A type goes by its number: any byte may stand for one, on the wire and in the lists of types that are lent, and each is answered. An enum
// would have to be made of it at each field, and is no plainer.
ghost use Rattle.std.specs.Prelude.{◌≡◌, ◌||◌, ℕ, suc, ◌+◌, ◌%◌, ◌≤◌, ◌<◌, eqb, length, get_or};
ghost use Rattle.wire.specs.Constants.{VARIANT};
ghost use Rattle.wire.specs.Answer.{got, when_on, bit};
ghost use Rattle.wire.specs.Refusal.{answer, answer_to};
ghost use Rattle.plain_value.specs.Width.{width_of};
ghost use Rattle.plain_value.specs.Plain.{passing};
ghost use Rattle.plain_value.specs.Quick.{EndTells};
ghost use Rattle.value.specs.Quick.{scalar_size, fixed_end, texts, variants, array_at, described_at, text_at, elements_at, run_at, dimensioned_at, TellsPart, LookTells};
ghost use Rattle.value.specs.Value.{Measure, measure, INSIDE, matrix, value_at, variant_at, data_value_at};

use crate::{MATRIX, Measured, Shape, measure_data_value, measure_other, pass_inside};
use plain_value::parts::parts_width;
use plain_value::plain::texts_at;
use plain_value::quick::{string_look, two_look};
use plain_value::width::width;
use wire::constants::{DATA_VALUE, VARIANT};
use wire::item::Item;
use wire::refusal::{Read, Reason, Refusal};
use wire::{Length, has, read_length};

// Sizes go as numbers, 0 for none, as document 01 has the widths, and `fixed_end` answers the position itself for none: an option would be
// no plainer, since each caller tests the number that it adds.

// How many bytes a Variant has that is a null or a scalar of a fixed type, by its first byte; 0 for any other. Each byte has its entry, so
// that a look is one load: of a shorter table its length is tested first, and which of its entries are 0.
static SIZES: [u8; 256] = [
    1, 2, 2, 2, 3, 3, 5, 5, 9, 9, 5, 9, 0, 9, 17, 0, 0, 0, 0, 5, 0, 0, 0, 0, 0, 0, 0, 0, 0, 0, 0,
    0, 0, 0, 0, 0, 0, 0, 0, 0, 0, 0, 0, 0, 0, 0, 0, 0, 0, 0, 0, 0, 0, 0, 0, 0, 0, 0, 0, 0, 0, 0, 0,
    0, 0, 0, 0, 0, 0, 0, 0, 0, 0, 0, 0, 0, 0, 0, 0, 0, 0, 0, 0, 0, 0, 0, 0, 0, 0, 0, 0, 0, 0, 0, 0,
    0, 0, 0, 0, 0, 0, 0, 0, 0, 0, 0, 0, 0, 0, 0, 0, 0, 0, 0, 0, 0, 0, 0, 0, 0, 0, 0, 0, 0, 0, 0, 0,
    0, 0, 0, 0, 0, 0, 0, 0, 0, 0, 0, 0, 0, 0, 0, 0, 0, 0, 0, 0, 0, 0, 0, 0, 0, 0, 0, 0, 0, 0, 0, 0,
    0, 0, 0, 0, 0, 0, 0, 0, 0, 0, 0, 0, 0, 0, 0, 0, 0, 0, 0, 0, 0, 0, 0, 0, 0, 0, 0, 0, 0, 0, 0, 0,
    0, 0, 0, 0, 0, 0, 0, 0, 0, 0, 0, 0, 0, 0, 0, 0, 0, 0, 0, 0, 0, 0, 0, 0, 0, 0, 0, 0, 0, 0, 0, 0,
    0, 0, 0, 0, 0, 0, 0, 0, 0, 0, 0, 0, 0, 0, 0, 0, 0, 0, 0, 0, 0, 0, 0, 0, 0, 0, 0, 0, 0, 0, 0, 0,
    0,
];

// The entry of a first byte.
fn scalar_size(b: u8) -> usize
    ensures { (result ≡ scalar_size b) × (result ≤ 17) }
{
    SIZES[b as usize] as usize
}

// The position after such a Variant that fits; for any other the position itself.
pub fn fixed_end(s: &[u8], at: usize) -> usize
    ensures { result ≡ fixed_end s.now at }
{
    if s.len() <= at {
        return at;
    }
    let size = scalar_size(s[at]);
    if has(s.len(), at, size) {
        return at + size;
    }
    at
}

// How many bytes an element of an array of a fixed type has, by its first byte; 0 for any other Variant.
fn array_unit(b: u8) -> usize
    ensures { (0 < result → (b ≡ b % 64 + 128) × (result ≡ width_of (b % 64))) × (result ≤ 16) }
{
    if b / 64 != 2 {
        return 0;
    }
    let size = scalar_size(b % 64);
    if size < 2 {
        return 0;
    }
    size - 1
}

// Whether a Variant is an array of Strings or ByteStrings, by its first byte.
pub(crate) fn is_strings(b: u8) -> bool
    ensures { result ≡ (eqb b 140 || eqb b 143) }
{
    matches!(b, 140 | 143)
}

// Passes over the elements of an array of type t that are made of Strings, with their count first. Their loop is not put in line, where it
// would take registers.
pub(crate) fn pass_texts(s: &[u8], at: usize, t: u8) -> Result<usize, Refusal>
    ensures { answer_to tt result ≡ texts t s.now at }
{
    let (length, next) = read_length(s, at)?;
    match length {
        Length::Null => Ok(next),
        Length::Of(n) => texts_at(&*s, next, t, n),
        Length::Negative => Err(Reason::BadLength.at(at)),
    }
}

// Passes over the elements of an array of Variants, with their count first.
pub(crate) fn pass_variants(s: &[u8], at: usize) -> Result<usize, Refusal>
    ensures { answer_to tt result ≡ variants s.now at }
{
    let (length, next) = read_length(s, at)?;
    match length {
        Length::Null => Ok(next),
        Length::Of(n) => pass_inside(&*s, next, VARIANT, n),
        Length::Negative => Err(Reason::BadLength.at(at)),
    }
}

// What the length of an accepted array of type t says of it.
fn described_array(s: &[u8], at: usize, t: u8, end: usize) -> Read<Measured>
    ensures { answer result ≡ array_at end t s.now at }
{
    let (length, _) = read_length(s, at)?;
    let shape = match length {
        Length::Null => Shape::NullArray,
        Length::Of(n) => Shape::Array(n),
        Length::Negative => return Err(Reason::BadLength.at(at)),
    };
    Ok((Measured::new(t, shape), end))
}

// What the first items of a Variant say of it that is accepted and ends at `end`.
pub fn described(s: &[u8], at: usize, end: usize) -> Read<Measured>
    ensures { answer result ≡ described_at end s.now at }
{
    let (b, next) = u8::read(s, at)?;
    if (b >> 7) % 2 == 1 {
        return described_array(s, next, b % 64, end);
    }
    Ok((Measured::new(b % 64, Shape::Scalar), end))
}

// What a look tells of a Variant that holds no other value, beside where it ends. Each kind of look has one caller, so that it is put in
// line there.
trait Told: Copy {
    // what is told of a measured value
    ghost telling: { Measure → Self };

    // What is told of a value of a type and of a shape.
    fn told(kind: u8, shape: Shape) -> Self
        ensures { result ≡ telling (measure kind shape) };
}

// Its type and shape.
impl Told for Measured {
    ghost telling = { λ m. m };

    fn told(kind: u8, shape: Shape) -> Measured {
        Measured::new(kind, shape)
    }
}

// Nothing.
impl Told for () {
    ghost telling = { λ m. tt };

    fn told(_kind: u8, _shape: Shape) {}
}

// A String or ByteString of type t after its first byte.
fn plain_string<T: Told>(s: &[u8], at: usize, t: u8) -> Option<(T, usize)>
    ensures { TellsPart T.telling result (text_at t s.now at) }
{
    let end = string_look(s, at)?;
    Some((T::told(t, Shape::Scalar), end))
}

// The n elements of an array of type t, which have so many bytes together.
fn plain_elements<T: Told>(s: &[u8], at: usize, t: u8, n: usize, size: usize) -> Option<(T, usize)>
    ensures { TellsPart T.telling result (elements_at t n size s.now at) }
{
    if has(s.len(), at, size) {
        return Some((T::told(t, Shape::Array(n)), at + size));
    }
    None
}

// An array of the fixed type t, whose elements have w bytes each, after its first byte. Elements of 4 bytes have a way of their own, on
// which the next position does not wait for the table of widths and for a product: a third of the time of a walk over short arrays.
fn plain_array<T: Told>(s: &[u8], at: usize, t: u8, w: usize) -> Option<(T, usize)>
    requires { w ≤ 16 }
    ensures { TellsPart T.telling result (run_at t w s.now at) }
{
    let Ok((length, next)) = read_length(s, at) else {
        return None;
    };
    match length {
        Length::Null => Some((T::told(t, Shape::NullArray), next)),
        Length::Of(n) if w == 4 => plain_elements(s, next, t, n, n * 4),
        Length::Of(n) => plain_elements(s, next, t, n, n * w),
        Length::Negative => None,
    }
}

// A scalar Variant of type t, which is no fixed one, whose first byte stands at a position: a String or a ByteString.
#[tactic(auto, using(crate::proofs::Looks::text_look))]
fn plain_scalar<T: Told>(s: &[u8], at: usize, t: u8) -> Option<(T, usize)>
    requires { (at < length s.now) × (get_or s.now at 0 ≡ t) }
    ensures { TellsPart T.telling result (variant_at s.now at) }
{
    if !matches!(t, 12 | 15) {
        return None;
    }
    plain_string(s, at + 1, t)
}

// A Variant, at a position, that is no null and no scalar of a fixed type. Its type is tested apart from its highest bits: where both were
// tests of one byte, they would be merged with that of the size into one jump.
fn plain_other<T: Told>(s: &[u8], at: usize) -> Option<(T, usize)>
    requires { at < length s.now }
    ensures { TellsPart T.telling result (variant_at s.now at) }
{
    let b = s[at];
    if b < 64 {
        return plain_scalar(s, at, b % 64);
    }
    let w = array_unit(b);
    if w == 0 {
        return None;
    }
    plain_array(s, at + 1, b % 64, w)
}

// A Variant told in one look.
fn plain_variant<T: Told>(s: &[u8], at: usize) -> Option<(T, usize)>
    ensures { TellsPart T.telling result (variant_at s.now at) }
{
    if s.len() <= at {
        return None;
    }
    let size = scalar_size(s[at]);
    if size == 0 {
        return plain_other(s, at);
    }
    if has(s.len(), at, size) {
        return Some((T::told(s[at], Shape::Scalar), at + size));
    }
    None
}

// Where a Variant ends that holds no other value.
#[tactic(auto, using(crate::proofs::Looks::told_end))]
pub(crate) fn variant_look(s: &[u8], at: usize) -> Option<usize>
    ensures { EndTells result (passing variant_at s.now at) }
{
    let (_, end) = plain_variant::<()>(s, at)?;
    Some(end)
}

// The n elements of an array of type t, which have so many bytes together, and two dimensions.
fn listed_look(s: &[u8], at: usize, t: u8, n: u32, size: usize) -> Option<(Measured, usize)>
    ensures { LookTells result (dimensioned_at t n size s.now at) }
{
    if !has(s.len(), at, size) {
        return None;
    }
    let end = two_look(s, at + size, n)?;
    Some((Measured::new(t, Shape::Matrix(n as usize, 2)), end))
}

// A matrix of the fixed type t, whose elements have w bytes each, after its first byte.
#[tactic(auto, using(crate::proofs::Looks::matrix_counted))]
fn matrix_look(s: &[u8], at: usize, t: u8, w: usize) -> Option<(Measured, usize)>
    requires { (w ≤ 16) × (0 < w) × (w ≡ width_of t) }
    ensures { LookTells result (matrix (value_at INSIDE) t s.now at) }
{
    let Ok((Length::Of(n), next)) = read_length(s, at) else {
        return None;
    };
    listed_look(s, next, t, n as u32, n * w)
}

// A Variant at a position that is such a matrix.
fn plain_matrix(s: &[u8], at: usize) -> Option<(Measured, usize)>
    ensures { LookTells result (variant_at s.now at) }
{
    if s.len() <= at {
        return None;
    }
    let b = s[at];
    if b < MATRIX {
        return None;
    }
    let size = scalar_size(b % 64);
    if size < 2 {
        return None;
    }
    matrix_look(s, at + 1, b % 64, size - 1)
}

// A Variant that `plain_variant` does not tell: a matrix in one look where it tells, else by `measure_other`.
fn other_in_line(s: &[u8], at: usize) -> Read<Measured>
    ensures { answer result ≡ variant_at s.now at }
{
    if let Some(found) = plain_matrix(s, at) {
        return Ok(found);
    }
    measure_other(&*s, at)
}

// A Variant at a position: in one look where it tells, else by `measure_other`. It has one caller, so that it is put in line there.
#[tactic(auto, using(crate::proofs::Looks::told_whole))]
pub fn variant_in_line(s: &[u8], at: usize) -> Read<Measured>
    ensures { answer result ≡ variant_at s.now at }
{
    if let Some(found) = plain_variant::<Measured>(s, at) {
        return Ok(found);
    }
    other_in_line(s, at)
}

// Of a DataValue, whose mask m stands at a position: how many bytes it has up to the end of its Variant, where that is a null or a scalar
// of a fixed type, or where it holds none; else 0.
fn held_size(s: &[u8], at: usize, m: u8) -> usize
    requires { at < length s.now }
    ensures { (0 < result → at + result ≤ length s.now → (levels : ℕ)
        → when_on (bit 0 m) tt (passing (value_at (suc levels) VARIANT)) s.now (at + 1) ≡ got tt (at + result)) × (result ≤ 18) }
{
    if m % 2 == 0 {
        return 1;
    }
    if s.len() <= at + 1 {
        return 0;
    }
    let size = scalar_size(s[at + 1]);
    if size == 0 {
        return 0;
    }
    size + 1
}

// Where a DataValue ends that holds a null, a scalar of a fixed type or none.
pub(crate) fn data_value_look(s: &[u8], at: usize) -> Option<usize>
    ensures { EndTells result (passing data_value_at s.now at) }
{
    if s.len() <= at {
        return None;
    }
    let m = s[at];
    if 64 <= m {
        return None;
    }
    let held = held_size(s, at, m);
    if held == 0 {
        return None;
    }
    let size = held + parts_width(m);
    if has(s.len(), at, size) {
        return Some(at + size);
    }
    None
}

// A DataValue at a position. It has one caller, so that it is put in line there.
#[tactic(auto, using(crate::proofs::FirstItems::data_value_is))]
pub fn data_value_in_line(s: &[u8], at: usize) -> Read<Measured>
    ensures { answer result ≡ data_value_at s.now at }
{
    if let Some(end) = data_value_look(s, at) {
        return Ok((Measured::new(DATA_VALUE, Shape::Scalar), end));
    }
    measure_data_value(&*s, at)
}
