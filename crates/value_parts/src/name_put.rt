// A Variant that is a QualifiedName or a LocalizedText, put into a lent buffer from its parts.
// A type goes by its number: any byte may stand for one, on the wire and in the lists of types that are lent, and each is answered. An enum
// would have to be made of it at each field, and is no plainer.
ghost use Rattle.std.specs.Prelude.{◌≡◌, ◌≤◌, ◌<◌, length};
ghost use Rattle.wire.specs.Refusal.{rule_number};
ghost use Rattle.wire_writer.specs.Writing.{Puts, Writes};
ghost use Rattle.value_parts.specs.PutName.{has_locale, has_text, string_if, name_head, name_kind_rule, absent_rule, name_rule, name_output};

use plain_value::plain::{LOCALIZED_TEXT, QUALIFIED_NAME};
use wire::constants::MOST_DATAGRAM;
use wire::refusal::Reason;
use wire_writer::store::{Store, put_run};
use wire_writer::writing::{agreement_rule, room_rule};

// The largest index.
const MOST_INDEX: u32 = 65535;

// The largest mask.
const MOST_MASK: u32 = 3;

// Whether a name has a locale, by its mask.
fn has_locale(t: u8, number: u32) -> bool
    ensures { result ≡ has_locale t number }
{
    if t == QUALIFIED_NAME {
        return false;
    }
    number % 2 == 1
}

// Whether a name has a text: a QualifiedName always, a LocalizedText by its mask.
fn has_text(t: u8, number: u32) -> bool
    ensures { result ≡ has_text t number }
{
    if t == QUALIFIED_NAME {
        return true;
    }
    (number >> 1) % 2 == 1
}

// Refuses a name's type or mask by the rule that it breaks.
fn kind_rule(t: u8, number: u32) -> Result<(), Reason>
    ensures { rule_number result ≡ name_kind_rule t number }
{
    if t == QUALIFIED_NAME {
        return Ok(());
    }
    if t != LOCALIZED_TEXT {
        return Err(Reason::NotTaken);
    }
    if MOST_MASK < number {
        return Err(Reason::NotPermitted);
    }
    Ok(())
}

// Refuses bytes of a String that is not there.
fn absent_rule(on: bool, n: usize) -> Result<(), Reason>
    ensures { rule_number result ≡ absent_rule on n }
{
    if on {
        return Ok(());
    }
    agreement_rule(n == 0)
}

// Refuses a name with Strings of so many bytes by the first rule that it breaks.
fn name_rule(t: u8, number: u32, locale: usize, text: usize) -> Result<(), Reason>
    ensures { rule_number result ≡ name_rule t number locale text }
{
    kind_rule(t, number)?;
    agreement_rule(number <= MOST_INDEX)?;
    absent_rule(has_locale(t, number), locale)?;
    absent_rule(has_text(t, number), text)
}

// How many bytes a String takes, where there is one.
fn string_size(on: bool, s: &[u8]) -> usize
    requires { length s.now < 65536 }
    ensures { (result ≡ length (string_if on s.now)) × (result ≤ 65539) }
{
    if on {
        return s.len() + 4;
    }
    0
}

// Stores a String at a position, where there is one, and answers the position after it.
fn put_string(out: &mut [u8], at: usize, on: bool, s: &[u8]) -> usize
    requires { length s.now < 65536 }
    ensures { Puts (string_if on s.now) out.old at out.new result }
{
    if on {
        let next = (s.len() as u32).put(out, at);
        return put_run(out, next, s);
    }
    at
}

// How many bytes stand before a name's Strings.
fn name_head_size(t: u8, number: u32) -> usize
    ensures { (result ≡ length (name_head t number)) × (result ≤ 3) }
{
    if t == QUALIFIED_NAME {
        return 3;
    }
    2
}

// Stores what stands before a name's Strings at the buffer's start, and answers the position after it.
fn put_name_head(out: &mut [u8], t: u8, number: u32) -> usize
    requires { (name_kind_rule t number ≡ 0) × (number < 65536) }
    ensures { Puts (name_head t number) out.old 0 out.new result }
{
    let at = t.put(out, 0);
    if t == QUALIFIED_NAME {
        return (number as u16).put(out, at);
    }
    (number as u8).put(out, at)
}

// Puts a Variant that is a name at the buffer's start, from what telling it apart says: a QualifiedName's index as the number and its name
// as the text, a LocalizedText's mask, locale and text. A mask above 3 is refused by 3, other types by 4, an index above 65,535 and a
// String that the mask leaves out but that has bytes by 6, output above 65,535 bytes by 10, then 11.
pub fn put_name(
    out: &mut [u8],
    t: u8,
    number: u32,
    locale: &[u8],
    text: &[u8],
) -> Result<usize, Reason>
    ensures { let output = name_output t number locale.now text.now in
        Writes output out.old out.new result }
{
    name_rule(t, number, locale.len(), text.len())?;
    if (MOST_DATAGRAM < locale.len()) | (MOST_DATAGRAM < text.len()) {
        return Err(Reason::OverLimit);
    }
    let strings = string_size(has_locale(t, number), locale)
        + string_size(has_text(t, number), text);
    let size = name_head_size(t, number) + strings;
    room_rule(size, out.len())?;
    let at = put_name_head(out, t, number);
    let next = put_string(out, at, has_locale(t, number), locale);
    put_string(out, next, has_text(t, number), text);
    Ok(size)
}
