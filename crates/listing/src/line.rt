// The lines of a listing, each put into a lent buffer.
ghost use Rattle.std.specs.Prelude.{◌≡◌, false, ◌+◌, ◌≤◌, length, ◌++◌};
ghost use Rattle.text.specs.Decimal.{decimal_text};
ghost use Rattle.listing.specs.Columns.{tabbed, line_end, optional_text, Put};
ghost use Rattle.listing.specs.Line.{bad_word, invalid_word, kind_word, encoding_word, id_too_long, too_long, id_text, net_text, place_text, head_text, refusal_text, value_text, field_text, line_text, PutLine};

use crate::columns::{decimal, end, first, hex, optional, shape, word};
use dataset_fields::fields::Field;
use dataset_header::flags::{Encoding, Kind};
use publisher_id::publisher::{PublisherId, text_too_long};
use value::dimensions;
use walk::entry::{Line, SetPlace};
use wire::part::part;
use wire::refusal::Reason;

pub(crate) fn id_too_long(id: PublisherId) -> bool
    ensures { result ≡ id_too_long id }
{
    match id {
        PublisherId::Text(n) => text_too_long(n),
        _ => false,
    }
}

fn too_long(line: Line) -> bool
    ensures { result ≡ too_long line }
{
    match line {
        Line::Net(_, id, _, _) => id_too_long(id),
        _ => false,
    }
}

// A number's type word and the number.
fn number_id(out: &mut [u8], at: usize, kind: &[u8], n: u64) -> usize
    requires { (length kind.now ≤ 7) × (at + 137 ≤ length out.old) }
    ensures { Put 137 (tabbed kind.now ++ tabbed (decimal_text n)) out.old at out.new result }
{
    let p = word(out, at, kind);
    decimal(out, p, n)
}

// A PublisherId's type and content.
fn publisher(out: &mut [u8], at: usize, s: &[u8], id: PublisherId, id_end: usize) -> usize
    requires { (id_too_long id ≡ false) × (at + 137 ≤ length out.old) }
    ensures { Put 137 (id_text s.now id id_end) out.old at out.new result }
{
    match id {
        PublisherId::Absent => {
            let p = word(out, at, b"-");
            word(out, p, b"-")
        }
        PublisherId::Byte(v) => number_id(out, at, b"u8", v as u64),
        PublisherId::UInt16(v) => number_id(out, at, b"u16", v as u64),
        PublisherId::UInt32(v) => number_id(out, at, b"u32", v as u64),
        PublisherId::UInt64(v) => number_id(out, at, b"u64", v),
        PublisherId::Text(n) => {
            let p = word(out, at, b"str");
            hex(out, p, part(s, wire::left(id_end, n), n))
        }
    }
}

pub(crate) fn net(
    out: &mut [u8],
    at: usize,
    s: &[u8],
    n: usize,
    id: PublisherId,
    id_end: usize,
    messages: usize,
) -> usize
    requires { (id_too_long id ≡ false) × (at + 256 ≤ length out.old) }
    ensures { Put 256 (net_text s.now n id id_end messages) out.old at out.new result }
{
    let p = first(out, at, b"net");
    let p = decimal(out, p, n as u64);
    let p = publisher(out, p, s, id, id_end);
    let p = decimal(out, p, messages as u64);
    end(out, p)
}

fn set_place(out: &mut [u8], at: usize, place: SetPlace) -> usize
    requires { at + 256 ≤ length out.old }
    ensures { Put 89 (place_text place) out.old at out.new result }
{
    let p = first(out, at, b"set");
    let p = decimal(out, p, place.message as u64);
    let p = optional(out, p, place.writer);
    let p = decimal(out, p, place.offset as u64);
    decimal(out, p, place.length as u64)
}

fn kind_word(out: &mut [u8], at: usize, kind: Kind) -> usize
    requires { at + 8 ≤ length out.old }
    ensures { Put 8 (tabbed (kind_word kind)) out.old at out.new result }
{
    match kind {
        Kind::Key => word(out, at, b"key"),
        Kind::Delta => word(out, at, b"delta"),
        Kind::Event => word(out, at, b"event"),
        Kind::KeepAlive => word(out, at, b"alive"),
    }
}

fn encoding_word(out: &mut [u8], at: usize, encoding: Encoding) -> usize
    requires { at + 8 ≤ length out.old }
    ensures { Put 8 (tabbed (encoding_word encoding)) out.old at out.new result }
{
    match encoding {
        Encoding::Variant => word(out, at, b"variant"),
        Encoding::RawData => word(out, at, b"raw"),
        Encoding::DataValue => word(out, at, b"value"),
    }
}

pub(crate) fn set(
    out: &mut [u8],
    at: usize,
    place: SetPlace,
    kind: Kind,
    encoding: Encoding,
    q: Option<u16>,
) -> usize
    requires { at + 256 ≤ length out.old }
    ensures { let text = place_text place ++ (head_text kind encoding ++ (tabbed (optional_text q) ++ line_end)) in
        Put 256 text out.old at out.new result }
{
    let p = set_place(out, at, place);
    let p = kind_word(out, p, kind);
    let p = encoding_word(out, p, encoding);
    let p = optional(out, p, q);
    end(out, p)
}

pub(crate) fn set_invalid(out: &mut [u8], at: usize, place: SetPlace) -> usize
    requires { at + 256 ≤ length out.old }
    ensures { Put 256 (place_text place ++ (tabbed invalid_word ++ line_end)) out.old at out.new result }
{
    let p = set_place(out, at, place);
    let p = word(out, p, b"invalid");
    end(out, p)
}

fn refusal(out: &mut [u8], at: usize, n: u8, place: usize) -> usize
    requires { at + 43 ≤ length out.old }
    ensures { Put 43 (refusal_text n place) out.old at out.new result }
{
    let p = decimal(out, at, n as u64);
    let p = decimal(out, p, place as u64);
    end(out, p)
}

pub(crate) fn set_bad(out: &mut [u8], at: usize, place: SetPlace, n: u8, fault: usize) -> usize
    requires { at + 256 ≤ length out.old }
    ensures { Put 256 (place_text place ++ (tabbed bad_word ++ refusal_text n fault)) out.old at out.new result }
{
    let p = set_place(out, at, place);
    let p = word(out, p, b"bad");
    refusal(out, p, n, fault)
}

fn bad(out: &mut [u8], at: usize, n: u8, place: usize) -> usize
    requires { at + 256 ≤ length out.old }
    ensures { Put 256 (bad_word ++ refusal_text n place) out.old at out.new result }
{
    let p = first(out, at, b"bad");
    refusal(out, p, n, place)
}

// The element count of a field's value, where it stands, and how many dimensions it has.
fn field_value(out: &mut [u8], at: usize, f: Field) -> usize
    requires { at + 85 ≤ length out.old }
    ensures { Put 85 (value_text f) out.old at out.new result }
{
    let p = shape(out, at, f.shape);
    let p = decimal(out, p, f.offset as u64);
    let p = decimal(out, p, f.length as u64);
    let p = decimal(out, p, dimensions(f.shape) as u64);
    end(out, p)
}

pub(crate) fn field(out: &mut [u8], at: usize, message: usize, f: Field) -> usize
    requires { at + 256 ≤ length out.old }
    ensures { Put 256 (field_text message f) out.old at out.new result }
{
    let p = first(out, at, b"field");
    let p = decimal(out, p, message as u64);
    let p = decimal(out, p, f.index as u64);
    let p = decimal(out, p, f.kind as u64);
    field_value(out, p, f)
}

fn put(out: &mut [u8], s: &[u8], line: Line) -> usize
    requires { (too_long line ≡ false) × (256 ≤ length out.old) }
    ensures { Put 256 (line_text s.now line) out.old 0 out.new result }
{
    match line {
        Line::Net(n, id, id_end, messages) => net(out, 0, s, n, id, id_end, messages),
        Line::Set(place, kind, encoding, q) => set(out, 0, place, kind, encoding, q),
        Line::SetInvalid(place) => set_invalid(out, 0, place),
        Line::SetBad(place, n, at) => set_bad(out, 0, place, n, at),
        Line::Field(message, f) => field(out, 0, message, f),
        Line::Bad(n, place) => bad(out, 0, n, place),
    }
}

// Puts a line of a datagram's listing at the start of the buffer, which has to have 256 bytes; no line is longer. How many bytes it has.
pub fn put_line(out: &mut [u8], s: &[u8], line: Line) -> Result<usize, Reason>
    ensures { PutLine s.now line out.old out.new result }
{
    if too_long(line) {
        return Err(Reason::OverLimit);
    }
    if out.len() < 256 {
        return Err(Reason::NoRoom);
    }
    Ok(put(out, s, line))
}
