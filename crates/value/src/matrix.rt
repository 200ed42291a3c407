// A field's own value that is an array with dimensions, measured: in one pass over its elements, since its dimensions list stands after
// them.
// A type goes by its number: any byte may stand for one, on the wire and in the lists of types that are lent, and each is answered. An enum
// would have to be made of it at each field, and is no plainer.
ghost use Rattle.std.specs.Prelude.{◌≡◌, ◌+◌, ◌<◌};
ghost use Rattle.wire.specs.Refusal.{answer, answer_to};
ghost use Rattle.value.specs.Value.{INSIDE, value_at, elements, dimensioned, matrix_of, matrix, variant_rule, variant_of};
ghost use Rattle.value.specs.Head.{judged};

use crate::head::{is_taken, plain_values};
use crate::{Measured, Shape, pass_inside};
use plain_value::dimensions::dimensions_at;
use plain_value::plain::is_plain;
use wire::refusal::{Read, Reason, Refusal};
use wire::{Length, read_length};

// The dimensions list of an array of n elements of type t, which ends the value.
fn ended(s: &[u8], at: usize, t: u8, n: u32) -> Read<Measured>
    ensures { answer result ≡ dimensioned t n s.now at }
{
    let (d, end) = dimensions_at(s, at, n)?;
    Ok((Measured::new(t, Shape::Matrix(n as usize, d)), end))
}

// Passes over the n elements of an array of type t.
#[tactic(auto, unfolding(crate::specs::Value::elements))]
fn pass_elements(s: &[u8], at: usize, t: u8, n: u32) -> Result<usize, Refusal>
    ensures { answer_to tt result ≡ elements (value_at INSIDE) t n s.now at }
{
    if is_plain(t) {
        return plain_values(s, at, t, n);
    }
    pass_inside(s, at, t, n as usize)
}

// The n elements of an array of type t, and its dimensions list.
fn counted(s: &[u8], at: usize, t: u8, n: u32) -> Read<Measured>
    ensures { answer result ≡ matrix_of (value_at INSIDE) t n s.now at }
{
    let elements_end = pass_elements(s, at, t, n)?;
    ended(s, elements_end, t, n)
}

// What follows the first byte of an array of type t with dimensions.
#[tactic(auto, unfolding(crate::specs::Value::matrix))]
fn after_first(s: &[u8], at: usize, t: u8) -> Read<Measured>
    ensures { answer result ≡ matrix (value_at INSIDE) t s.now at }
{
    let (length, next) = read_length(s, at)?;
    match length {
        Length::Null => ended(s, next, t, 0),
        Length::Of(n) => counted(s, next, t, n as u32),
        Length::Negative => Err(Reason::BadLength.at(at)),
    }
}

// An array of type t with dimensions, whose first byte, t + 192, stands at `first`, before `at`.
pub(crate) fn matrix_at(s: &[u8], first: usize, at: usize, t: u8) -> Read<Measured>
    requires { t < 64 }
    ensures { answer result ≡ judged variant_rule (t + 192) first (variant_of (value_at INSIDE)) s.now at }
{
    if t == 0 {
        return Err(Reason::NotPermitted.at(first));
    }
    if is_taken(t) {
        return after_first(s, at, t);
    }
    Err(Reason::NotTaken.at(first))
}
