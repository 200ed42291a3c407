// A DataSetMessage read whole, and field k of it.
ghost use Rattle.std.specs.Prelude.{◌≡◌};
ghost use Rattle.wire.specs.Refusal.{answer, answer_to};
ghost use Rattle.dataset_message.specs.Message.{counted_at, count_to, body_to, message_to, message_at, front_at, front_to, whole_or_front, ended_at, field_place_at, field_bytes, nth_at};
ghost use Rattle.dataset_message.specs.Message.{answer_message};

use dataset_fields::fields::{Cursor, Field, padding, pass_each, pass_fields, read_field};
use dataset_header::flags::{Kind, is_delta, is_raw};
use dataset_header::header::{Header, read_header};
use wire::item::Item;
use wire::part::part;
use wire::refusal::{Read, Reason, Refusal};

// What reading a message answers: its header, the cursor before its first field, and where its last field ends, behind which only padding
// stands; none of a message that is not valid.
pub type MessageRead = Result<Option<(Header, Cursor, usize)>, Refusal>;

// FieldCount, or in RawData the number of configured fields, and where the first field starts.
fn counted(s: &[u8], raw: bool, types: &[u8], at: usize) -> Read<usize>
    ensures { answer result ≡ counted_at raw types.now s.now at }
{
    if !raw {
        let (n, next) = u16::read(s, at)?;
        return Ok((n as usize, next));
    }
    if types.len() == 0 {
        return Err(Reason::NotConfigured.at(0));
    }
    Ok((types.len(), at))
}

// How many fields a message that ends at `end` has; of a key frame that ends there none.
fn count_to(s: &[u8], kind: Kind, raw: bool, types: &[u8], end: usize, at: usize) -> Read<usize>
    ensures { answer result ≡ count_to end kind raw types.now s.now at }
{
    match kind {
        Kind::Key => {
            if end <= at {
                return Ok((0, at));
            }
            counted(s, raw, types, at)
        }
        Kind::Delta => counted(s, false, types, at),
        Kind::Event => counted(s, raw, types, at),
        Kind::KeepAlive => Ok((0, at)),
    }
}

// The fields from the cursor on, and the padding after them; where only the front is wanted, nothing more.
fn finish(s: &[u8], header: Header, cursor: Cursor, types: &[u8], whole: bool) -> MessageRead
    ensures { answer_message result ≡ whole_or_front whole header cursor types.now s.now }
{
    if !whole {
        return Ok(Some((header, cursor, cursor.at)));
    }
    let end = pass_fields(s, cursor, types)?;
    padding(s, end)?;
    Ok(Some((header, cursor, end)))
}

fn read_body(
    s: &[u8],
    header: Header,
    types: &[u8],
    end: usize,
    at: usize,
    whole: bool,
) -> MessageRead
    ensures { answer_message result ≡ body_to end (whole_or_front whole) header types.now s.now at }
{
    let raw = is_raw(header.encoding);
    let (count, first) = count_to(s, header.kind, raw, types, end, at)?;
    let cursor = Cursor {
        encoding: header.encoding,
        delta: is_delta(header.kind),
        next: 0,
        count,
        at: first,
    };
    finish(s, header, cursor, types, whole)
}

// A message that ends at `end`, or its front alone. All are read here, since the header's reader is put in line only where it has one
// caller.
pub fn read_up_to(s: &[u8], types: &[u8], end: usize, whole: bool) -> MessageRead
    ensures { answer_message result ≡ message_to end (whole_or_front whole) types.now s.now }
{
    let (header, at) = read_header(s)?;
    let Some(header) = header else {
        return Ok(None);
    };
    read_body(s, header, types, end, at, whole)
}

// A message alone, with the configured field types of its writer.
pub fn read(s: &[u8], types: &[u8]) -> MessageRead
    ensures { answer_message result ≡ message_at types.now s.now }
{
    read_up_to(&*s, &*types, s.len(), true)
}

// The front of a message: its header and the cursor before its first field, which starts at the last number. No field is read yet.
pub fn front(s: &[u8], types: &[u8]) -> MessageRead
    ensures { answer_message result ≡ front_at types.now s.now }
{
    read_up_to(&*s, &*types, s.len(), false)
}

// The same of a message that ends at `end`, of which only these bytes came.
pub fn front_to(s: &[u8], types: &[u8], end: usize) -> MessageRead
    ensures { answer_message result ≡ front_to end types.now s.now }
{
    read_up_to(&*s, &*types, end, false)
}

// The end of a message whose fields were stepped over, by the cursor after the last of them: only padding may follow. 6 where a field is
// left. A made-up cursor is read at the byte it names; past the end it is 1.
pub fn ended(s: &[u8], c: Cursor) -> Result<usize, Refusal>
    ensures { answer_to tt result ≡ ended_at c s.now }
{
    if s.len() < c.at {
        return Err(Reason::CutShort.at(c.at));
    }
    if c.next < c.count {
        return Err(Reason::Disagree.at(c.at));
    }
    padding(s, c.at)?;
    Ok(c.at)
}

// Field k from the cursor before the first field.
fn nth(s: &[u8], cursor: Cursor, types: &[u8], k: usize) -> Read<Field>
    ensures { answer result ≡ nth_at cursor types.now k s.now }
{
    if cursor.count <= k {
        return Err(Reason::OverLimit.at(0));
    }
    let encoding = cursor.encoding;
    let at = pass_each(&*s, encoding, cursor.delta, &*types, k, cursor.at)?;
    read_field(&*s, encoding, cursor.delta, &*types, k, at)
}

// What field k of a message is: the message's fault first; 10 for a k past the last.
pub fn field_place(s: &[u8], types: &[u8], k: usize) -> Read<Field>
    ensures { answer result ≡ field_place_at types.now k s.now }
{
    let Some((_, cursor, _)) = read(&*s, &*types)? else {
        return Err(Reason::OverLimit.at(0));
    };
    nth(s, cursor, types, k)
}

// The encoded bytes of field k as that part of the message; empty where `field_place` refuses.
pub fn field<'a>(s: &'a [u8], types: &[u8], k: usize) -> &'a [u8]
    ensures { result.now ≡ field_bytes (field_place_at types.now k s.now) s.now }
{
    match field_place(s, types, k) {
        Err(_) => part(s, 0, 0),
        Ok((f, _)) => part(s, f.offset, f.length),
    }
}
