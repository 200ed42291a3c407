// A Variant put into a lent buffer from its type and its elements' bytes.
// A type goes by its number: any byte may stand for one, on the wire and in the lists of types that are lent, and each is answered. An enum
// would have to be made of it at each field, and is no plainer.
ghost use Rattle.std.specs.Prelude.{◌≡◌, ℕ, ◌+◌, ◌≤◌, ◌<◌, length};
ghost use Rattle.wire.specs.Refusal.{rule_number};
ghost use Rattle.wire_writer.specs.Writing.{Puts, Writes};
ghost use Rattle.value.specs.Value.{variant_rule};
ghost use Rattle.value_parts.specs.declared.put.Form.{Form};
ghost use Rattle.value_parts.specs.Put.{first_byte, has_count, count_given, head_bytes, type_rule, form_rule, put_rule, variant_output};

use crate::told::is_text;
use plain_value::plain::is_plain;
use plain_value::width::width;
use wire::constants::{DATA_VALUE, MOST_DATAGRAM, VARIANT};
use wire::refusal::Reason;
use wire_writer::store::{Store, put_run};
use wire_writer::writing::{agreement_rule, room_rule};

// The number of 4 bytes that stands for the length -1.
const NULL: u32 = 4294967295;

// How a value is handed over: a scalar; a null scalar, which is a null Variant, String or ByteString; an array; a null array.
#[derive(Clone, Copy, PartialEq, Eq, Debug)]
pub enum Form {
    Scalar,
    Null,
    Array,
    NullArray,
}

// What is stored below is asked to fit: a type below 64, a count below 65,536. Each is tested once, where a value is refused; a type for
// such numbers would be no plainer.

// Refuses the first byte of a scalar of type t by the rule that it breaks.
fn scalar_rule(t: u8) -> Result<(), Reason>
    requires { t < 64 }
    ensures { rule_number result ≡ variant_rule t }
{
    if is_plain(t) | (t == DATA_VALUE) | (t == 0) {
        return Ok(());
    }
    if t == VARIANT {
        return Err(Reason::NotPermitted);
    }
    Err(Reason::NotTaken)
}

// Refuses the first byte of an array of type t by the rule that it breaks.
pub(crate) fn array_rule(t: u8) -> Result<(), Reason>
    requires { t < 64 }
    ensures { rule_number result ≡ variant_rule (t + 128) }
{
    if t == 0 {
        return Err(Reason::NotPermitted);
    }
    if is_plain(t) | (t == DATA_VALUE) | (t == VARIANT) {
        return Ok(());
    }
    Err(Reason::NotTaken)
}

// Refuses a Variant's first byte by the rule that it breaks.
fn type_rule(t: u8, form: Form) -> Result<(), Reason>
    ensures { rule_number result ≡ type_rule t form }
{
    if 64 <= t {
        return Err(Reason::NotTaken);
    }
    match form {
        Form::Scalar | Form::Null => scalar_rule(t),
        Form::Array | Form::NullArray => array_rule(t),
    }
}

// Refuses a scalar of n bytes by the rule that it breaks.
fn scalar_form(t: u8, n: usize) -> Result<(), Reason>
    ensures { rule_number result ≡ form_rule t Form.Scalar n }
{
    let w = width(t);
    if 0 < w {
        return agreement_rule(n == w);
    }
    if is_text(t) {
        return Ok(());
    }
    if t == 0 {
        return Err(Reason::Disagree);
    }
    Err(Reason::NotTaken)
}

// Refuses a null scalar of n bytes by the rule that it breaks.
fn null_form(t: u8, n: usize) -> Result<(), Reason>
    ensures { rule_number result ≡ form_rule t Form.Null n }
{
    if 0 < width(t) {
        return Err(Reason::Disagree);
    }
    if is_text(t) | (t == 0) {
        return agreement_rule(n == 0);
    }
    Err(Reason::NotTaken)
}

// Refuses an array of n bytes by the rule that it breaks.
pub(crate) fn array_form(t: u8, n: usize) -> Result<(), Reason>
    ensures { rule_number result ≡ form_rule t Form.Array n }
{
    let w = width(t);
    if 0 < w {
        return agreement_rule(n % w == 0);
    }
    Err(Reason::NotTaken)
}

// Refuses a null array of n bytes by the rule that it breaks.
fn null_array_form(t: u8, n: usize) -> Result<(), Reason>
    ensures { rule_number result ≡ form_rule t Form.NullArray n }
{
    if 0 < width(t) {
        return agreement_rule(n == 0);
    }
    Err(Reason::NotTaken)
}

// Refuses a value of n bytes by the first rule that it breaks.
fn put_rule(t: u8, form: Form, n: usize) -> Result<(), Reason>
    ensures { rule_number result ≡ put_rule t form n }
{
    type_rule(t, form)?;
    match form {
        Form::Scalar => scalar_form(t, n),
        Form::Null => null_form(t, n),
        Form::Array => array_form(t, n),
        Form::NullArray => null_array_form(t, n),
    }
}

// A Variant's first byte.
fn first_byte(t: u8, form: Form) -> u8
    requires { t < 64 }
    ensures { result ≡ first_byte t form }
{
    match form {
        Form::Scalar | Form::Null => t,
        Form::Array | Form::NullArray => t + 128,
    }
}

// Whether a length or count stands after it.
fn has_count(t: u8, form: Form) -> bool
    ensures { result ≡ has_count t form }
{
    match form {
        Form::Scalar | Form::Null => is_text(t),
        Form::Array | Form::NullArray => true,
    }
}

// How many elements n bytes of a type are, 0 where its elements have no fixed width.
pub(crate) fn elements(t: u8, n: usize) -> usize
    ensures { (result ≡ count_given t Form.Array n) × (result ≤ n) }
{
    let w = width(t);
    if 0 < w {
        return n / w;
    }
    0
}

// The length or count of n bytes.
fn count(t: u8, form: Form, n: usize) -> u32
    requires { n < 65536 }
    ensures { result ≡ count_given t form n }
{
    match form {
        Form::Scalar => n as u32,
        Form::Array => elements(t, n) as u32,
        Form::Null | Form::NullArray => NULL,
    }
}

// How many bytes stand before a value's own.
fn head_size(t: u8, form: Form) -> usize
    ensures { ((n : ℕ) → result ≡ length (head_bytes t form n)) × (result ≤ 5) }
{
    if has_count(t, form) {
        return 5;
    }
    1
}

// Stores what stands before a value's own n bytes at the buffer's start, and answers the position after it.
fn put_head(out: &mut [u8], t: u8, form: Form, n: usize) -> usize
    requires { (t < 64) × (n < 65536) }
    ensures { Puts (head_bytes t form n) out.old 0 out.new result }
{
    let at = first_byte(t, form).put(out, 0);
    if has_count(t, form) {
        return count(t, form, n).put(out, at);
    }
    at
}

// Puts a Variant of type t at the buffer's start: the value's own bytes are given as they are to stand, of an array its elements', of a
// String or ByteString its bytes. What is put: a null Variant; scalars and arrays of a fixed type; Strings and ByteStrings. What reading
// would refuse is refused by the same number, other types by 4, bytes that are not whole elements by 6, output above 65,535 bytes by 10,
// then 11.
pub fn put_variant(out: &mut [u8], t: u8, form: Form, bytes: &[u8]) -> Result<usize, Reason>
    ensures { Writes (variant_output t form bytes.now) out.old out.new result }
{
    put_rule(t, form, bytes.len())?;
    if MOST_DATAGRAM < bytes.len() {
        return Err(Reason::OverLimit);
    }
    let size = head_size(t, form) + bytes.len();
    room_rule(size, out.len())?;
    let at = put_head(out, t, form, bytes.len());
    put_run(out, at, bytes);
    Ok(size)
}
