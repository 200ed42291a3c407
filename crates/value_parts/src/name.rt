// A QualifiedName or LocalizedText told apart, where it was accepted.
// A type goes by its number: any byte may stand for one, on the wire and in the lists of types that are lent, and each is answered. An enum
// would have to be made of it at each field, and is no plainer.
ghost use Rattle.std.specs.Prelude.{◌≡◌, true};
ghost use Rattle.value_parts.specs.Name.{text_here, after_text, no_name, qualified_at, localized_by, localized_at, name_at, name_of};

use crate::told::{STRING, ValueParts};
use plain_value::plain::{LOCALIZED_TEXT, QUALIFIED_NAME, text_at};
use value::Shape;
use wire::item::Item;
use wire::{Length, read_length};

// The bytes of a String: where they start, and how many; both 0 where it is absent or null, as the C interface has them, and no option.
#[derive(Clone, Copy, PartialEq, Eq, Debug)]
pub struct Text {
    pub place: usize,
    pub length: usize,
}

// No String, or a null one.
const NO_TEXT: Text = Text {
    place: 0,
    length: 0,
};

// What a name is told apart into: of a QualifiedName its index and, as text, its name; of a LocalizedText its mask, its locale and its
// text. Of any other value all are 0.
#[derive(Clone, Copy, PartialEq, Eq, Debug)]
pub struct Name {
    pub number: u16,
    pub locale: Text,
    pub text: Text,
}

// The String at a position, where there is one.
fn text_if(s: &[u8], on: bool, at: usize) -> Text
    ensures { result ≡ text_here on s.now at }
{
    if !on {
        return NO_TEXT;
    }
    match read_length(s, at) {
        Ok((Length::Of(length), place)) => Text { place, length },
        _ => NO_TEXT,
    }
}

// The position after the String at a position, where there is one.
#[tactic(auto, unfolding(plain_value::specs::Plain::text))]
fn after_text(s: &[u8], on: bool, at: usize) -> usize
    ensures { result ≡ after_text on s.now at }
{
    if !on {
        return at;
    }
    text_at(s, at, STRING).unwrap_or(at)
}

// No name.
fn no_name() -> Name
    ensures { result ≡ no_name }
{
    Name {
        number: 0,
        locale: NO_TEXT,
        text: NO_TEXT,
    }
}

// A QualifiedName at a position.
fn qualified(s: &[u8], at: usize) -> Name
    ensures { result ≡ qualified_at s.now at }
{
    let (number, next) = u16::read(s, at).unwrap_or((0, at));
    let text = text_if(s, true, next);
    Name {
        number,
        locale: NO_TEXT,
        text,
    }
}

// A LocalizedText by its mask, which stands before a position.
fn localized_by(s: &[u8], m: u8, at: usize) -> Name
    ensures { result ≡ localized_by m s.now at }
{
    let locale = text_if(s, m % 2 == 1, at);
    let next = after_text(s, m % 2 == 1, at);
    let text = text_if(s, (m >> 1) % 2 == 1, next);
    Name {
        number: m as u16,
        locale,
        text,
    }
}

// A LocalizedText at a position.
fn localized(s: &[u8], at: usize) -> Name
    ensures { result ≡ localized_at s.now at }
{
    let (m, next) = u8::read(s, at).unwrap_or((0, at));
    localized_by(s, m, next)
}

// The name of type t at a position.
fn name_at(s: &[u8], at: usize, t: u8) -> Name
    ensures { result ≡ name_at t s.now at }
{
    match t {
        QUALIFIED_NAME => qualified(s, at),
        LOCALIZED_TEXT => localized(s, at),
        _ => no_name(),
    }
}

// The name that a value is, where it is a scalar.
pub fn tell_name(s: &[u8], v: ValueParts) -> Name
    ensures { result ≡ name_of s.now v }
{
    match v.shape {
        Shape::Scalar => name_at(s, v.first, v.kind),
        _ => no_name(),
    }
}
