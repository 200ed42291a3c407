// A PublisherId by value with the bytes of a string, for records that outlive the datagram, and its equality.
ghost use Rattle.std.specs.Prelude.{◌≡◌};
ghost use Rattle.publisher_id.specs.PublisherRecord.{code_of, id_number_of, text_length_of, publisher_of, publisher_fits, same_publisher, lent_record, record_at};

use crate::publisher::PublisherId;
use wire::constants::MOST_TEXT_ID;
use wire::part::part;
use wire_writer::store::put_run;

// Of a string the first bytes of text are its content, as many as the id says. Its equality is `same_publisher`: a derived one would also
// compare the bytes behind the text. The text is an array beside its length, since a record has a fixed size (no heap).
#[derive(Clone, Copy, Debug)]
pub struct PublisherRecord {
    pub id: PublisherId,
    pub text: [u8; MOST_TEXT_ID],
}

// The number of a string's type in records.
const STRING: u64 = 5;

// The number of an id's type in records: 0 absent, 1 Byte, 2 UInt16, 3 UInt32, 4 UInt64, 5 String. A variant with data has no cast to a
// number.
pub fn code(id: PublisherId) -> u64
    ensures { result ≡ code_of id }
{
    match id {
        PublisherId::Absent => 0,
        PublisherId::Byte(_) => 1,
        PublisherId::UInt16(_) => 2,
        PublisherId::UInt32(_) => 3,
        PublisherId::UInt64(_) => 4,
        PublisherId::Text(_) => 5,
    }
}

fn value(id: PublisherId) -> u64
    ensures { result ≡ id_number_of id }
{
    match id {
        PublisherId::Absent => 0,
        PublisherId::Byte(v) => v as u64,
        PublisherId::UInt16(v) => v as u64,
        PublisherId::UInt32(v) => v as u64,
        PublisherId::UInt64(v) => v,
        PublisherId::Text(_) => 0,
    }
}

fn text_length(id: PublisherId) -> usize
    ensures { result ≡ text_length_of id }
{
    match id {
        PublisherId::Text(n) => n,
        _ => 0,
    }
}

// Whether two ids are equal: type and content, or both absent.
pub fn same_publisher(a: PublisherRecord, b: PublisherRecord) -> bool
    ensures { result ≡ same_publisher (publisher_of a) (publisher_of b) }
{
    if code(a.id) != code(b.id) {
        return false;
    }
    if value(a.id) != value(b.id) {
        return false;
    }
    part(&a.text, 0, text_length(a.id)) == part(&b.text, 0, text_length(b.id))
}

// Whether an id whose text is lent equals the id that ends at a position of a datagram. Only where both are strings is a text copied.
pub fn same_lent(id: PublisherId, text: &[u8], s: &[u8], other: PublisherId, end: usize) -> bool
    ensures { let held = lent_record id text.now in
        result ≡ same_publisher (publisher_of held) (publisher_of (record_at other end s.now)) }
{
    if code(id) != code(other) {
        return false;
    }
    if value(id) != value(other) {
        return false;
    }
    if code(id) != STRING {
        return true;
    }
    let mut kept = [0u8; MOST_TEXT_ID];
    put_run(&mut kept, 0, text);
    let held = PublisherRecord { id, text: kept };
    same_publisher(held, publisher_record(s, other, end))
}

// Whether a string id has at most 64 bytes; any other id passes.
#[tactic(auto, unfolding(crate::specs::PublisherRecord::publisher_fits))]
pub fn publisher_fits(p: PublisherRecord) -> bool
    ensures { result ≡ publisher_fits p }
{
    text_length(p.id) <= MOST_TEXT_ID
}

// The record of an id that ends at a position of a datagram.
pub fn publisher_record(s: &[u8], id: PublisherId, end: usize) -> PublisherRecord
    ensures { result ≡ record_at id end s.now }
{
    let mut text = [0u8; MOST_TEXT_ID];
    let n = text_length(id);
    put_run(&mut text, 0, part(s, wire::left(end, n), n));
    PublisherRecord { id, text }
}
