// A Variant, an element of RawData, a String or ByteString told apart.
// A type goes by its number: any byte may stand for one, on the wire and in the lists of types that are lent, and each is answered. An enum
// would have to be made of it at each field, and is no plainer.
ghost use Rattle.std.specs.Prelude.{◌≡◌, ◌+◌};
ghost use Rattle.wire.specs.Answer.{got};
ghost use Rattle.wire.specs.Items.{length_item};
ghost use Rattle.plain_value.specs.Plain.{length_first, named};
ghost use Rattle.value.specs.Value.{variant_at};
ghost use Rattle.value_parts.specs.Told.{answer_told, says_null, is_counted, is_null, parts_from};
ghost use Rattle.value_parts.specs.Told.{told_variant_at, told_raw_at, told_string_at, told_name_at, told_element_at};

use plain_value::plain::{LOCALIZED_TEXT, QUALIFIED_NAME, text_at, texts_at};
use plain_value::width::width;
use value::{Measured, Shape, measure_variant, pass_element};
use wire::refusal::{Reason, Refusal};
use wire::{Length, read_length};

// The type of a String.
pub(crate) const STRING: u8 = 12;

// What a value is told apart into: its type number and shape; the bytes of an element of a fixed type, 0 for any other type; whether it is
// null (a null Variant, String, ByteString or array); and the value itself, of an array its elements, of a String its bytes: from `first`
// up to `end`, where the whole value ends, or up to the dimensions list before it.
// The flag stands beside the others, as the C interface's record has it: what is null has a shape, a first byte and an end all the same.
#[derive(Clone, Copy, PartialEq, Eq, Debug)]
pub struct ValueParts {
    pub kind: u8,
    pub shape: Shape,
    pub width: usize,
    pub null: bool,
    pub first: usize,
    pub end: usize,
}

// Whether a type's values carry their length first.
pub fn is_text(t: u8) -> bool
    ensures { result ≡ length_first t }
{
    matches!(t, 12 | 15)
}

// Whether a type is QualifiedName or LocalizedText.
fn is_name(t: u8) -> bool
    ensures { result ≡ named t }
{
    matches!(t, QUALIFIED_NAME | LOCALIZED_TEXT)
}

// Whether the length at a position is null.
fn null_at(s: &[u8], at: usize) -> bool
    ensures { result ≡ says_null (length_item s.now at) }
{
    matches!(read_length(s, at), Ok((Length::Null, _)))
}

// Whether a length or count stands before the value itself.
fn is_counted(t: u8, shape: Shape) -> bool
    ensures { result ≡ is_counted t shape }
{
    match shape {
        Shape::Scalar => is_text(t),
        _ => true,
    }
}

// Whether a value of type t and of a shape is null, whose items start at a position.
fn is_null(s: &[u8], at: usize, t: u8, shape: Shape) -> bool
    ensures { result ≡ is_null s.now at t shape }
{
    match shape {
        Shape::Scalar if is_text(t) => null_at(s, at),
        Shape::Scalar => t == 0,
        Shape::NullArray => true,
        _ => false,
    }
}

// The parts of an accepted Variant, which starts at `at` and ends at `end`.
fn parts_of(s: &[u8], at: usize, m: Measured, end: usize) -> ValueParts
    requires { variant_at s.now at ≡ got m end }
    ensures { result ≡ parts_from s.now (at + 1) m end }
{
    let items = at + 1;
    let mut first = items;
    if is_counted(m.kind, m.shape) {
        first = items + 4;
    }
    ValueParts {
        kind: m.kind,
        shape: m.shape,
        width: width(m.kind),
        null: is_null(s, items, m.kind, m.shape),
        first,
        end,
    }
}

// A Variant at a position.
pub fn tell_variant(s: &[u8], at: usize) -> Result<ValueParts, Refusal>
    ensures { answer_told result ≡ told_variant_at s.now at }
{
    let (m, end) = measure_variant(s, at)?;
    Ok(parts_of(s, at, m, end))
}

// A fixed-width element of type t at a position, as in RawData. Any other type is 4.
#[tactic(auto, using(crate::proofs::Telling::raw_told))]
pub fn tell_raw(s: &[u8], at: usize, t: u8) -> Result<ValueParts, Refusal>
    ensures { answer_told result ≡ told_raw_at t s.now at }
{
    let end = pass_element(s, at, t)?;
    Ok(ValueParts {
        kind: t,
        shape: Shape::Scalar,
        width: width(t),
        null: false,
        first: at,
        end,
    })
}

// A String or ByteString alone at a position, told as of type t.
#[tactic(auto, using(crate::proofs::Structure::string_there), unfolding(plain_value::specs::Plain::text))]
pub fn tell_string(s: &[u8], at: usize, t: u8) -> Result<ValueParts, Refusal>
    ensures { answer_told result ≡ told_string_at t s.now at }
{
    let end = text_at(s, at, STRING)?;
    Ok(ValueParts {
        kind: t,
        shape: Shape::Scalar,
        width: 0,
        null: null_at(s, at),
        first: at + 4,
        end,
    })
}

// A QualifiedName or LocalizedText alone at a position.
fn tell_alone(s: &[u8], at: usize, t: u8) -> Result<ValueParts, Refusal>
    ensures { answer_told result ≡ told_name_at t s.now at }
{
    let end = text_at(s, at, t)?;
    Ok(ValueParts {
        kind: t,
        shape: Shape::Scalar,
        width: 0,
        null: false,
        first: at,
        end,
    })
}

// Element k of an array of n Strings, ByteStrings, QualifiedNames or LocalizedTexts, whose first element stands at a position: k at or past
// n is 10. The elements before it are passed over, so this takes as long as they are many.
pub fn tell_element(s: &[u8], at: usize, t: u8, n: usize, k: usize) -> Result<ValueParts, Refusal>
    ensures { answer_told result ≡ told_element_at t n k s.now at }
{
    if n <= k {
        return Err(Reason::OverLimit.at(0));
    }
    let start = texts_at(s, at, t, k)?;
    if is_name(t) {
        return tell_alone(s, start, t);
    }
    tell_string(s, start, t)
}
