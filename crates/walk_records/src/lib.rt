// A datagram walked in one call and one pass: a record of 10 numbers for each of its messages and fields, a field's as soon as its end is
// known, a message's when it was read. The worth of the loops' shape: half of the time of reading each message first and its fields then.
#![tactic(auto)]

ghost use Rattle.std.specs.Prelude.{◌≡◌, [], ◌+◌, ◌*◌, ◌≤◌, length};
ghost use Rattle.wire_writer.specs.Store.{laid};
ghost use Rattle.dataset_header.specs.declared.flags.Encoding.{Encoding};
ghost use Rattle.records.specs.Numbers.{number_bytes};
ghost use Rattle.records.specs.Sizes.{WALK_SIZE};
ghost use Rattle.config.specs.Writers.{lists_in};
ghost use Rattle.walk.specs.Lines.{in_datagram};
ghost use Rattle.walk_records.specs.Walk.{or_none, field_record, message_record, set_place, record_laid, records_put, payload_records, walk_records, walk_of, answer_walked};
ghost use Rattle.walk_records.specs.Parts.{set_from, opened_records, bare, Word, FieldsPut, RestPut, RecordsPut};

use config::WriterLists;
use dataset_fields::fields::{Cursor, Field, padding};
use dataset_fields::values::{DataValues, RawData, Values, Variants};
use dataset_header::flags::Encoding;
use dataset_header::header::Header;
use dataset_message::message::front;
use message_record::message::{elements_number, encoding_number, kind_number, shape_number};
use network_header::header::PayloadHeader;
use network_message::payload::{MessageCursor, MessagePlace, Payload};
use network_message::writer_id::writer_id;
use records::numbers::put_numbers;
use records::sizes::WALK_SIZE;
use value::dimensions;
use wire::part::part;
use wire::refusal::Refusal;

// A number of 2 bytes, 65536 for none.
fn or_none(x: Option<u16>) -> u64
    ensures { result ≡ or_none x }
{
    x.map_or(65536, |v| v as u64)
}

// Puts record k, which has 10 numbers, where it fits whole.
fn put_record(out: &mut [u8], k: usize, numbers: &[u64])
    requires { length numbers.now ≡ 10 }
    ensures { out.new ≡ laid out.old (WALK_SIZE * k) (number_bytes numbers.now) }
{
    if out.len() / WALK_SIZE <= k {
        return;
    }
    let at = WALK_SIZE * k;
    let end = at + WALK_SIZE;
    put_numbers(&mut out[at..end], numbers);
}

// Puts record k, of a field of the message in a place.
fn put_field(out: &mut [u8], k: usize, p: MessagePlace, f: Field)
    requires { Word (p.offset + f.offset) }
    ensures { out.new ≡ record_laid k (field_record p.index (in_datagram p f)) out.old }
{
    let numbers = [
        0,
        p.index as u64,
        f.index as u64,
        f.kind as u64,
        shape_number(f.shape),
        elements_number(f.shape),
        (p.offset + f.offset) as u64,
        f.length as u64,
        dimensions(f.shape) as u64,
        0,
    ];
    put_record(out, k, &numbers);
}

// Puts record k, of the message in a place: what it is, three numbers that depend on it, and one that only a refused message has.
fn put_message(
    out: &mut [u8],
    k: usize,
    p: MessagePlace,
    writer: Option<u16>,
    what: u64,
    a: u64,
    b: u64,
    c: u64,
    e: u64,
)
    ensures { out.new ≡ record_laid k (message_record (set_place [] [] p writer) what a b c e) out.old }
{
    let numbers = [
        what,
        p.index as u64,
        or_none(writer),
        a,
        b,
        c,
        p.offset as u64,
        p.length as u64,
        e,
        0,
    ];
    put_record(out, k, &numbers);
}

// Puts the records of a message's fields from the cursor on, the first as record `first`: the number of the record after theirs, and where
// they end or the refusal of the first that is refused.
fn walk_each<V: Values>(
    out: &mut [u8],
    first: usize,
    message: &[u8],
    types: &[u8],
    p: MessagePlace,
    c: Cursor,
) -> (usize, Result<usize, Refusal>)
    requires { Word (first + length message.now) × Word (p.offset + length message.now) × (c.encoding ≡ V.ENCODING) }
    ensures { FieldsPut types.now message.now p c first result out.old out.new }
{
    let mut at = c.at;
    let mut k = first;
    for i in c.next..c.count {
        match V::field(message, c.delta, types, i, at) {
            Err(r) => return (k, Err(r)),
            Ok((f, next)) => {
                put_field(out, k, p, f);
                at = next;
            }
        }
        k += 1;
    }
    (k, Ok(at))
}

// Puts the records of a message's fields from the cursor on, each encoding in a loop of its own.
fn walk_fields(
    out: &mut [u8],
    first: usize,
    message: &[u8],
    types: &[u8],
    p: MessagePlace,
    c: Cursor,
) -> (usize, Result<usize, Refusal>)
    requires { Word (first + length message.now) × Word (p.offset + length message.now) }
    ensures { FieldsPut types.now message.now p c first result out.old out.new }
{
    match c.encoding {
        Encoding::Variant => walk_each::<Variants>(out, first, message, types, p, c),
        Encoding::RawData => walk_each::<RawData>(out, first, message, types, p, c),
        Encoding::DataValue => walk_each::<DataValues>(out, first, message, types, p, c),
    }
}

// The fields of a message and the padding after them: the number of the record after the fields', and where they end or the refusal of the
// message.
fn walk_rest(
    out: &mut [u8],
    first: usize,
    message: &[u8],
    types: &[u8],
    p: MessagePlace,
    c: Cursor,
) -> (usize, Result<usize, Refusal>)
    requires { Word (first + length message.now) × Word (p.offset + length message.now) }
    ensures { RestPut types.now message.now p c first result out.old out.new }
{
    let (next, fields) = walk_fields(out, first, message, types, p, c);
    let end = match fields {
        Err(r) => return (next, Err(r)),
        Ok(end) => end,
    };
    match padding(message, end) {
        Err(r) => (next, Err(r)),
        Ok(_) => (next, Ok(end)),
    }
}

// Puts the records of the message in a place that was read up to the cursor before its first field, its own, record k, last; answers the
// number of the record after them.
fn walk_opened(
    out: &mut [u8],
    k: usize,
    message: &[u8],
    types: &[u8],
    writer: Option<u16>,
    p: MessagePlace,
    h: Header,
    c: Cursor,
) -> usize
    requires { Word (k + 1 + length message.now) × Word (p.offset + length message.now) × (c.next ≡ 0) }
    ensures { let entries = opened_records types.now message.now p writer h c in
        RecordsPut entries k result out.old out.new }
{
    let b = encoding_number(h.encoding);
    let (next, rest) = walk_rest(out, k + 1, message, types, p, c);
    match rest {
        Err(r) => {
            let told = next - (k + 1);
            let n = r.reason.number();
            put_message(
                out,
                k,
                p,
                writer,
                3,
                n as u64,
                r.place as u64,
                told as u64,
                b,
            );
            next
        }
        Ok(_) => {
            let kind = kind_number(h.kind);
            put_message(out, k, p, writer, 1, kind, b, or_none(h.sequence), 0);
            next
        }
    }
}

// Puts the records of the message in a place, the first of them record k; answers the number of the record after them.
fn walk_message(
    out: &mut [u8],
    k: usize,
    s: &[u8],
    types: &[u8],
    writer: Option<u16>,
    p: MessagePlace,
) -> usize
    requires { Word (k + 1 + length s.now) }
    ensures { RecordsPut (set_from types.now p writer s.now) k result out.old out.new }
{
    let message = part(s, p.offset, p.length);
    match front(message, types) {
        Err(r) => {
            let n = r.reason.number();
            put_message(out, k, p, writer, 3, n as u64, r.place as u64, 0, 0);
            k + 1
        }
        Ok(None) => {
            put_message(out, k, p, writer, 2, 0, 0, 0, 0);
            k + 1
        }
        Ok(Some((h, c, _))) => walk_opened(out, k, message, types, writer, p, h, c),
    }
}

// Puts the records of a payload's messages; answers how many.
fn walk_messages(
    out: &mut [u8],
    s: &[u8],
    w: WriterLists<'_>,
    header: PayloadHeader,
    end: usize,
    payload: Payload,
) -> usize
    requires { (length s.now ≤ 65535) × (payload.count ≤ 65551) }
    ensures { RecordsPut (payload_records (lists_in w.entry) s.now (bare header end payload)) 0 result out.old out.new }
{
    let mut c = MessageCursor {
        index: 0,
        at: payload.first,
    };
    let mut k = 0;
    while let Ok((p, next)) = c.step(s, payload, w.sizes) {
        let writer = writer_id(s, header, end, w.ids, p.index);
        k = walk_message(out, k, s, w.types_of(writer), writer, p);
        c = next;
    }
    k
}

// Puts a record for each message of a datagram and each of its fields, of a refused message of those before the fault, under the lists of
// the configured writers: how many records there are in all, or the datagram's refusal.
pub fn walk(out: &mut [u8], s: &[u8], w: WriterLists<'_>) -> Result<usize, Refusal>
    ensures { let said = lists_in w.entry in
        (answer_walked result ≡ walk_of said s.now) × (out.new ≡ records_put 0 (walk_records said s.now) out.old) }
{
    let (envelope, places, payload) = network_message::envelope::read(&*s, &*w.sizes)?;
    let header = envelope.payload_header;
    Ok(walk_messages(out, s, w, header, places.payload_header_end, payload))
}
