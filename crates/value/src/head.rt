// What a value's own items say, before any value inside it is passed over.
// A type goes by its number: any byte may stand for one, on the wire and in the lists of types that are lent, and each is answered. An enum
// would have to be made of it at each field, and is no plainer.
ghost use Rattle.std.specs.Prelude.{◌≡◌, true, List, ℕ, ◌+◌, ◌<◌};
ghost use Rattle.wire.specs.Answer.{Reader};
ghost use Rattle.wire.specs.Refusal.{answer_to};
ghost use Rattle.plain_value.specs.Plain.{passing, plain, plain_values};
ghost use Rattle.plain_value.specs.Quick.{EndTells};
ghost use Rattle.plain_value.specs.Dimensions.{dimensions};
ghost use Rattle.value.specs.Value.{Measure, taken, variant_rule, mask_rule, scalar, array_of, array, matrix_of, matrix, variant_of, data_value_of, value_of};
ghost use Rattle.value.specs.Head.{inside_of, rest, finish, judged};

use plain_value::dimensions::dimensions_at;
use plain_value::parts::parts_at;
use plain_value::plain::{bytes_at, is_plain, plain_value, texts_at};
use plain_value::quick::string_look;
use plain_value::width::width;
use wire::constants::{DATA_VALUE, VARIANT};
use wire::item::Item;
use wire::refusal::{Reason, Refusal};
use wire::{Length, has, read_length};

// What follows the values inside: a DataValue's parts by its mask, an array's dimensions list, or such a list where the elements are passed
// already, and no value stands inside.
#[derive(Clone, Copy, PartialEq, Eq, Debug)]
pub(crate) enum After {
    Parts(u8),
    List,
    ListAlone,
}

// Where a value that holds no other ends, or what it holds: from where, how many values, their type (23 or 24), and what follows them. A
// list that stands alone has the count of the elements before it.
#[derive(Clone, Copy)]
pub(crate) enum Head {
    To(usize),
    Holds(usize, u32, u8, After),
}

// Whether a type is taken at all.
pub(crate) fn is_taken(t: u8) -> bool
    ensures { result ≡ taken t }
{
    matches!(t, 0 | DATA_VALUE | VARIANT) || is_plain(t)
}

// Where a String or ByteString ends, whose type is t; no other is told.
#[tactic(auto, using(crate::proofs::Heads::text_scalar))]
fn text_at_look(s: &[u8], at: usize, t: u8) -> Option<usize>
    ensures { (nested : ℕ → Reader Measure) → EndTells result (passing (scalar nested t) s.now at) }
{
    if !matches!(t, 12 | 15) {
        return None;
    }
    string_look(s, at)
}

// Where a scalar of type t ends after its first byte: of a fixed type, a String or a ByteString.
#[tactic(auto, using(crate::proofs::Heads::fixed_scalar_lem))]
fn scalar_look(s: &[u8], at: usize, t: u8) -> Option<usize>
    ensures { (nested : ℕ → Reader Measure) → EndTells result (passing (scalar nested t) s.now at) }
{
    let w = width(t);
    if w == 0 {
        return text_at_look(s, at, t);
    }
    if has(s.len(), at, w) {
        return Some(at + w);
    }
    None
}

// What follows the first byte of a scalar of type t that a look does not tell.
#[tactic(auto, using(crate::proofs::Heads::holds_scalar, crate::proofs::Heads::pass_found), unfolding(crate::specs::Value::scalar))]
fn scalar_other(s: &[u8], at: usize, t: u8) -> Result<Head, Refusal>
    ensures { (nested : ℕ → Reader Measure) → finish nested s.now result ≡ passing (scalar nested t) s.now at }
{
    if is_plain(t) {
        return Ok(Head::To(plain_value(s, at, t)?));
    }
    Ok(Head::Holds(at, 1, t, After::Parts(0)))
}

// What follows the first byte of a scalar of type t. Most are told by the look, which leaves nine tenths of the time of arrays of Variants.
fn scalar_head(s: &[u8], at: usize, t: u8) -> Result<Head, Refusal>
    ensures { (nested : ℕ → Reader Measure) → finish nested s.now result ≡ passing (scalar nested t) s.now at }
{
    if let Some(end) = scalar_look(s, at, t) {
        return Ok(Head::To(end));
    }
    scalar_other(s, at, t)
}

// n values of a plain type.
#[tactic(auto, unfolding(plain_value::specs::Plain::plain_values))]
pub(crate) fn plain_values(s: &[u8], at: usize, t: u8, n: u32) -> Result<usize, Refusal>
    ensures { answer_to tt result ≡ plain_values t n s.now at }
{
    let w = width(t);
    if 0 < w {
        return bytes_at(s, at, (n as usize) * w);
    }
    texts_at(s, at, t, n as usize)
}

// The n elements of an array of type t.
#[tactic(auto, using(crate::proofs::Heads::holds_elements, crate::proofs::Heads::pass_found), unfolding(crate::specs::Value::elements))]
fn elements_head(s: &[u8], at: usize, t: u8, n: u32) -> Result<Head, Refusal>
    ensures { (nested : ℕ → Reader Measure)
        → finish nested s.now result ≡ passing (array_of nested t n) s.now at }
{
    if is_plain(t) {
        return Ok(Head::To(plain_values(s, at, t, n)?));
    }
    Ok(Head::Holds(at, n, t, After::Parts(0)))
}

// What follows the first byte of an array of type t.
#[tactic(auto, unfolding(crate::specs::Value::array))]
fn array_head(s: &[u8], at: usize, t: u8) -> Result<Head, Refusal>
    ensures { (nested : ℕ → Reader Measure) → finish nested s.now result ≡ passing (array nested t) s.now at }
{
    let (length, next) = read_length(s, at)?;
    match length {
        Length::Null => Ok(Head::To(next)),
        Length::Of(n) => elements_head(s, next, t, n as u32),
        Length::Negative => Err(Reason::BadLength.at(at)),
    }
}

// Passes over the dimensions list of an array of n elements.
fn pass_list(s: &[u8], at: usize, n: u32) -> Result<usize, Refusal>
    ensures { answer_to tt result ≡ passing (dimensions n) s.now at }
{
    let (_, end) = dimensions_at(s, at, n)?;
    Ok(end)
}

// How many of the values counted stand inside.
pub(crate) fn inside(after: After, count: u32) -> u32
    ensures { result ≡ inside_of after count }
{
    if after == After::ListAlone {
        return 0;
    }
    count
}

// Passes over what follows the n values inside.
pub(crate) fn pass_rest(s: &[u8], at: usize, n: u32, after: After) -> Result<usize, Refusal>
    ensures { answer_to tt result ≡ rest n after s.now at }
{
    match after {
        After::Parts(m) => parts_at(s, at, m),
        After::List | After::ListAlone => pass_list(&*s, at, n),
    }
}

// The n elements of an array of a plain type t, and its dimensions list, which is read where every list is: by `pass_rest`.
#[tactic(auto, using(crate::proofs::Heads::plain_listed, crate::proofs::Heads::plain_refused))]
fn plain_matrix(s: &[u8], at: usize, t: u8, n: u32) -> Result<Head, Refusal>
    requires { plain t ≡ true }
    ensures { (nested : ℕ → Reader Measure)
        → finish nested s.now result ≡ passing (matrix_of nested t n) s.now at }
{
    let end = plain_values(s, at, t, n)?;
    Ok(Head::Holds(end, n, VARIANT, After::ListAlone))
}

// The n elements of an array of type t, and its dimensions list.
#[tactic(auto, using(crate::proofs::Heads::holds_listed))]
fn listed_head(s: &[u8], at: usize, t: u8, n: u32) -> Result<Head, Refusal>
    ensures { (nested : ℕ → Reader Measure)
        → finish nested s.now result ≡ passing (matrix_of nested t n) s.now at }
{
    if is_plain(t) {
        return plain_matrix(s, at, t, n);
    }
    Ok(Head::Holds(at, n, t, After::List))
}

// What follows the first byte of an array of type t with dimensions.
#[tactic(auto, using(crate::proofs::Heads::null_listed), unfolding(crate::specs::Value::matrix))]
fn matrix_head(s: &[u8], at: usize, t: u8) -> Result<Head, Refusal>
    ensures { (nested : ℕ → Reader Measure) → finish nested s.now result ≡ passing (matrix nested t) s.now at }
{
    let (length, next) = read_length(s, at)?;
    match length {
        Length::Null => Ok(Head::Holds(next, 0, VARIANT, After::ListAlone)),
        Length::Of(n) => listed_head(s, next, t, n as u32),
        Length::Negative => Err(Reason::BadLength.at(at)),
    }
}

// Of a first byte's type these ask that it is below 64: a type for such numbers would be no plainer, since `variant_head` alone makes them.

// A scalar Variant of type t, whose first byte stands at `first`, before `at`.
fn scalar_variant(s: &[u8], first: usize, at: usize, t: u8) -> Result<Head, Refusal>
    requires { t < 64 }
    ensures { (nested : ℕ → Reader Measure)
        → finish nested s.now result ≡ passing (judged variant_rule t first (variant_of nested)) s.now at }
{
    if is_plain(t) | (t == DATA_VALUE) {
        return scalar_head(s, at, t);
    }
    if t == 0 {
        return Ok(Head::To(at));
    }
    if t == VARIANT {
        return Err(Reason::NotPermitted.at(first));
    }
    Err(Reason::NotTaken.at(first))
}

// A Variant that is an array of type t; its first byte, t + 128, stands at `first`, before `at`.
fn array_variant(s: &[u8], first: usize, at: usize, t: u8) -> Result<Head, Refusal>
    requires { t < 64 }
    ensures { (nested : ℕ → Reader Measure)
        → finish nested s.now result ≡ passing (judged variant_rule (t + 128) first (variant_of nested)) s.now at }
{
    if t == 0 {
        return Err(Reason::NotPermitted.at(first));
    }
    if is_taken(t) {
        return array_head(s, at, t);
    }
    Err(Reason::NotTaken.at(first))
}

// A Variant that is an array of type t with dimensions; its first byte, t + 192, stands at `first`, before `at`.
fn matrix_variant(s: &[u8], first: usize, at: usize, t: u8) -> Result<Head, Refusal>
    requires { t < 64 }
    ensures { (nested : ℕ → Reader Measure)
        → finish nested s.now result ≡ passing (judged variant_rule (t + 192) first (variant_of nested)) s.now at }
{
    if t == 0 {
        return Err(Reason::NotPermitted.at(first));
    }
    if is_taken(t) {
        return matrix_head(s, at, t);
    }
    Err(Reason::NotTaken.at(first))
}

// A Variant whose first byte b stands at `at`, before `next`. Its two highest bits part the bytes into scalars, dimensions without an
// array, arrays, and arrays with dimensions.
fn variant_head(s: &[u8], at: usize, next: usize, b: u8) -> Result<Head, Refusal>
    ensures { (nested : ℕ → Reader Measure)
        → finish nested s.now result ≡ passing (judged variant_rule b at (variant_of nested)) s.now next }
{
    if b < 64 {
        return scalar_variant(s, at, next, b);
    }
    if b < 128 {
        return Err(Reason::NotPermitted.at(at));
    }
    if b < 192 {
        return array_variant(s, at, next, b - 128);
    }
    matrix_variant(s, at, next, b - 192)
}

// A DataValue whose mask m stands at `at`, before `next`.
fn data_value_head(at: usize, next: usize, m: u8) -> Result<Head, Refusal>
    ensures { (nested : ℕ → Reader Measure) (s : List ℕ)
        → finish nested s result ≡ passing (judged mask_rule m at (data_value_of nested)) s next }
{
    if ((m >> 6) % 2 == 1) | ((m >> 7) % 2 == 1) {
        return Err(Reason::NotPermitted.at(at));
    }
    Ok(Head::Holds(next, (m % 2) as u32, VARIANT, After::Parts(m)))
}

// A DataValue where t is 23, else a Variant.
pub(crate) fn head_at(s: &[u8], at: usize, t: u8) -> Result<Head, Refusal>
    ensures { (nested : ℕ → Reader Measure) → finish nested s.now result ≡ passing (value_of nested t) s.now at }
{
    let (b, next) = u8::read(s, at)?;
    if t == DATA_VALUE {
        return data_value_head(at, next, b);
    }
    variant_head(s, at, next, b)
}
