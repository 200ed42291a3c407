// The PublisherId.
ghost use Rattle.std.specs.Prelude.{◌≡◌, cond, ◌++◌, ◌+◌, ◌≤◌, length};
ghost use Rattle.publisher_id.specs.Publisher.{text_too_long, string_of, string_at, publisher_at, publisher_on, id_type_of, publisher_bytes, publisher_refusal, publisher_shape};
ghost use Rattle.wire.specs.Number.{le_bytes};
ghost use Rattle.wire_writer.specs.Store.{Stored};
ghost use Rattle.wire.specs.Constants.{OVER_LIMIT};
ghost use Rattle.wire.specs.Refusal.{answer, rule_number};

use wire::constants::MOST_TEXT_ID;
use wire::item::Item;
use wire::refusal::{Read, Reason};
use wire::{Length, has};
use wire_writer::store::{Store, put_run};
use wire_writer::writing::agreement_rule;

// A PublisherId. Of a string, its length: its bytes end where the part ends. Absent is one of the types, as `code` numbers them for records
// of the C interface, so it is no Option around the others.
#[derive(Clone, Copy, PartialEq, Eq, Debug)]
pub enum PublisherId {
    Absent,
    Byte(u8),
    UInt16(u16),
    UInt32(u32),
    UInt64(u64),
    Text(usize),
}

// Whether a string id of n bytes is longer than document 01 permits.
pub fn text_too_long(n: usize) -> bool
    ensures { result ≡ text_too_long n }
{
    MOST_TEXT_ID < n
}

// The n bytes of a string.
fn string_of(s: &[u8], n: usize, start: usize) -> Read<PublisherId>
    ensures { answer result ≡ string_of n s.now start }
{
    if text_too_long(n) {
        return Err(Reason::OverLimit.at(0));
    }
    let next = wire::skip(s, start, n)?;
    Ok((PublisherId::Text(n), next))
}

fn string_id(s: &[u8], at: usize) -> Read<PublisherId>
    ensures { answer result ≡ string_at s.now at }
{
    let (length, start) = wire::read_length(s, at)?;
    match length {
        Length::Of(n) => string_of(s, n, start),
        Length::Null => Err(Reason::BadLength.at(at)),
        Length::Negative => Err(Reason::BadLength.at(at)),
    }
}

// Reads the PublisherId of a type, where the flags announce one; a number that is no type is 3.
pub fn read_publisher(s: &[u8], on: bool, kind: u8, at: usize) -> Read<PublisherId>
    ensures { answer result ≡ publisher_at on kind s.now at }
{
    if !on {
        return Ok((PublisherId::Absent, at));
    }
    match kind {
        0 => {
            let (v, next) = u8::read(s, at)?;
            Ok((PublisherId::Byte(v), next))
        }
        1 => {
            let (v, next) = u16::read(s, at)?;
            Ok((PublisherId::UInt16(v), next))
        }
        2 => {
            let (v, next) = u32::read(s, at)?;
            Ok((PublisherId::UInt32(v), next))
        }
        3 => {
            let (v, next) = u64::read(s, at)?;
            Ok((PublisherId::UInt64(v), next))
        }
        4 => string_id(s, at),
        _ => Err(Reason::NotPermitted.at(at)),
    }
}

// Whether there is a PublisherId.
pub fn publisher_on(p: PublisherId) -> bool
    ensures { result ≡ publisher_on p }
{
    !matches!(p, PublisherId::Absent)
}

// The type of a PublisherId, as ExtendedFlags1 has it.
pub fn kind_of(p: PublisherId) -> u8
    ensures { (result ≡ id_type_of p) × (result ≤ 4) }
{
    match p {
        PublisherId::Absent => 0, // its type bits are written as 0
        PublisherId::Byte(_) => 0,
        PublisherId::UInt16(_) => 1,
        PublisherId::UInt32(_) => 2,
        PublisherId::UInt64(_) => 3,
        PublisherId::Text(_) => 4,
    }
}

// How many bytes a PublisherId takes, a string with its text.
pub fn publisher_size(p: PublisherId, text: &[u8]) -> usize
    ensures { (result ≡ length (publisher_bytes text.now p)) × (result ≤ length text.now + 8) }
{
    match p {
        PublisherId::Absent => 0,
        PublisherId::Byte(_) => 1,
        PublisherId::UInt16(_) => 2,
        PublisherId::UInt32(_) => 4,
        PublisherId::UInt64(_) => 8,
        PublisherId::Text(_) => 4 + text.len(),
    }
}

// The length of a string and its bytes.
fn put_text(out: &mut [u8], at: usize, text: &[u8]) -> usize
    ensures { Stored (le_bytes 4 (length text.now) ++ text.now) out.old at out.new result }
{
    let n = text.len();
    if !has(out.len(), at, 4 + n) {
        return at;
    }
    let start = ((n % 4294967296) as u32).put(out, at);
    put_run(out, start, text)
}

// Stores a PublisherId, a string with its text, all or nothing: answers the position after it, or `at` where it does not fit.
pub fn put_publisher(out: &mut [u8], at: usize, p: PublisherId, text: &[u8]) -> usize
    ensures { Stored (publisher_bytes text.now p) out.old at out.new result }
{
    match p {
        PublisherId::Absent => at,
        PublisherId::Byte(v) => v.put(out, at),
        PublisherId::UInt16(v) => v.put(out, at),
        PublisherId::UInt32(v) => v.put(out, at),
        PublisherId::UInt64(v) => v.put(out, at),
        PublisherId::Text(_) => put_text(out, at, text),
    }
}

fn text_refusal(n: usize) -> Result<(), Reason>
    ensures { rule_number result ≡ cond (text_too_long n) OVER_LIMIT 0 }
{
    if text_too_long(n) {
        return Err(Reason::OverLimit);
    }
    Ok(())
}

// Refuses the PublisherId that reading refuses, a string with so many bytes of text.
pub fn publisher_refusal(p: PublisherId, len: usize) -> Result<(), Reason>
    ensures { rule_number result ≡ publisher_refusal p len }
{
    match p {
        PublisherId::Text(_) => text_refusal(len),
        _ => Ok(()),
    }
}

// Refuses a text of another length than the PublisherId says.
pub fn publisher_shape(p: PublisherId, len: usize) -> Result<(), Reason>
    ensures { rule_number result ≡ publisher_shape p len }
{
    match p {
        PublisherId::Text(n) => agreement_rule(n == len),
        _ => agreement_rule(len == 0),
    }
}
