// Values that hold no other value: of fixed width, or with their length first.
ghost use Rattle.std.specs.Prelude.{◌≡◌, ◌||◌};
ghost use Rattle.wire.specs.Answer.{each, when_on};
ghost use Rattle.wire.specs.Refusal.{answer_to};
ghost use Rattle.plain_value.specs.Plain.{bytes, string, qualified_name, localized_text, length_first, named, text, plain, plain_value};

use crate::quick::string_look;
use crate::width::width;
use wire::item::Item;
use wire::refusal::{Reason, Refusal};
use wire::{Length, read_length, skip};

// Types go by their numbers: any byte may stand for one on the wire, and the rules judge each of them, so an enum would be no plainer.

// The type of a String.
const STRING: u8 = 12;

// The type of a name.
pub const QUALIFIED_NAME: u8 = 20;

// The type of a text with its locale.
pub const LOCALIZED_TEXT: u8 = 21;

// n bytes, one item.
pub fn bytes_at(s: &[u8], at: usize, n: usize) -> Result<usize, Refusal>
    ensures { answer_to tt result ≡ bytes n s.now at }
{
    skip(s, at, n)
}

// A String or ByteString: its length, then its bytes.
#[tactic(auto, unfolding(crate::specs::Plain::string))]
fn string_at(s: &[u8], at: usize) -> Result<usize, Refusal>
    ensures { answer_to tt result ≡ string s.now at }
{
    let (length, next) = read_length(s, at)?;
    match length {
        Length::Null => Ok(next),
        Length::Of(n) => bytes_at(s, next, n),
        Length::Negative => Err(Reason::BadLength.at(at)),
    }
}

// A QualifiedName: its NamespaceIndex, then its name.
#[tactic(auto, unfolding(crate::specs::Plain::qualified_name))]
fn qualified_name_at(s: &[u8], at: usize) -> Result<usize, Refusal>
    ensures { answer_to tt result ≡ qualified_name s.now at }
{
    let next = bytes_at(s, at, 2)?;
    string_at(s, next)
}

// A String, where the mask's bit is on.
fn string_if(s: &[u8], on: bool, at: usize) -> Result<usize, Refusal>
    ensures { answer_to tt result ≡ when_on on tt string s.now at }
{
    if !on {
        return Ok(at);
    }
    string_at(s, at)
}

// A LocalizedText: its mask, then by its bits its locale and its text.
#[tactic(auto, unfolding(crate::specs::Plain::localized_text))]
fn localized_text_at(s: &[u8], at: usize) -> Result<usize, Refusal>
    ensures { answer_to tt result ≡ localized_text s.now at }
{
    let (m, next) = u8::read(s, at)?;
    if 3 < m {
        return Err(Reason::NotPermitted.at(at));
    }
    let locale_end = string_if(s, m % 2 == 1, next)?;
    string_if(s, (m >> 1) % 2 == 1, locale_end)
}

// A value made of Strings: a QualifiedName, a LocalizedText, or a String or ByteString.
#[tactic(auto, unfolding(crate::specs::Plain::text))]
pub fn text_at(s: &[u8], at: usize, t: u8) -> Result<usize, Refusal>
    ensures { answer_to tt result ≡ text t s.now at }
{
    match t {
        QUALIFIED_NAME => qualified_name_at(s, at),
        LOCALIZED_TEXT => localized_text_at(s, at),
        _ => string_at(s, at),
    }
}

// n values made of Strings, one after the other, up to the first that is refused.
fn each_text(s: &[u8], at: usize, t: u8, n: usize) -> Result<usize, Refusal>
    ensures { answer_to tt result ≡ each (text t) n s.now at }
{
    let mut p = at;
    for _ in 0..n {
        p = text_at(s, p, t)?;
    }
    Ok(p)
}

// n Strings or ByteStrings, one after the other: by a look each, and from one that it does not tell on by `each_text`. The loop has no
// test of the type, which would cost a quarter of its time.
pub fn strings_at(s: &[u8], at: usize, n: usize) -> Result<usize, Refusal>
    ensures { answer_to tt result ≡ each string n s.now at }
{
    let mut p = at;
    for i in 0..n {
        let Some(end) = string_look(s, p) else {
            return each_text(&*s, p, STRING, n - i);
        };
        p = end;
    }
    Ok(p)
}

// n values made of Strings, one after the other.
#[tactic(auto, unfolding(crate::specs::Plain::text))]
pub fn texts_at(s: &[u8], at: usize, t: u8, n: usize) -> Result<usize, Refusal>
    ensures { answer_to tt result ≡ each (text t) n s.now at }
{
    match t {
        QUALIFIED_NAME | LOCALIZED_TEXT => each_text(s, at, t, n),
        _ => strings_at(&*s, at, n),
    }
}

// Whether a type's values hold no other value.
#[tactic(auto, using(crate::proofs::Widths::plain_low, crate::proofs::Widths::plain_high, crate::proofs::Widths::plain_none))]
pub fn is_plain(t: u8) -> bool
    ensures { result ≡ plain t }
{
    matches!(t, 1..=15 | 19..=21)
}

// Whether a type's values are made of Strings.
fn is_text(t: u8) -> bool
    ensures { result ≡ (length_first t || named t) }
{
    matches!(t, 12 | 15 | QUALIFIED_NAME | LOCALIZED_TEXT)
}

// One value of a plain type; any other type is 4.
#[tactic(auto, unfolding(crate::specs::Plain::plain_value))]
pub fn plain_value(s: &[u8], at: usize, t: u8) -> Result<usize, Refusal>
    ensures { answer_to tt result ≡ plain_value t s.now at }
{
    let w = width(t);
    if 0 < w {
        return bytes_at(s, at, w);
    }
    if is_text(t) {
        return text_at(s, at, t);
    }
    Err(Reason::NotTaken.at(at))
}
