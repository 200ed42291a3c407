// The records of an envelope and of a message's place; those of a probe stand in their own module.
// The C interface has numbers for kinds: here they become the enums and go back. Any number has an answer.
#![tactic(auto)]

pub mod probe_record;

ghost use Rattle.std.specs.Prelude.{◌≡◌, length, ◌+◌, ◌*◌, ◌≤◌};
ghost use Rattle.network_message.specs.Envelope.{NetworkMessage};
ghost use Rattle.records.specs.Sizes.{ENVELOPE_SIZE};
ghost use Rattle.wire_writer.specs.Store.{laid};
ghost use Rattle.records.specs.Numbers.{number_bytes};
ghost use Rattle.records.specs.Items.{has_item};
ghost use Rattle.envelope_record.specs.Envelope.{class_low, class_high, group_items, group_writer, group_version, group_number, group_sequence, header_code, header_number, sizes_code, sizes_place, start_numbers, rest_numbers, envelope_numbers, sizes_by, payload_in, messages_in, messages_laid, payload_header_by, payload_header_in, payload_header_end, writer_number, place_numbers, class_in, group_in, promoted_in, envelope_in, group_fits, header_fits, envelope_fits, EnvelopeBack};

use network_header::envelope::{Envelope, Places};
use network_header::group::GroupFields;
use network_header::header::PayloadHeader;
use network_message::payload::{MessageCursor, MessagePlace, Payload, Sizes};
use publisher_id::publisher_record::code;
use records::items::{at_most, fits_item, flag_number, given, has, is_on, value};
use records::numbers::{number, put_numbers, put_numbers_from};
use records::publisher::{publisher_given, publisher_number, publisher_number_fits};
use records::sizes::ENVELOPE_SIZE;
use wire::Guid;
use wire_writer::store::Store;

// Where the numbers 26 and 27 stand: the cursor's message and its place.
const CURSOR_INDEX: usize = 8 * 26;

const CURSOR_AT: usize = 8 * 27;

// 1 for a part that is there, else 0.
fn present<T: Copy>(x: Option<T>) -> u64
    ensures { result ≡ has_item x }
{
    flag_number(x.is_some())
}

fn class_low(x: Option<Guid>) -> u64
    ensures { result ≡ class_low x }
{
    x.map_or(0, |v| v.low)
}

fn class_high(x: Option<Guid>) -> u64
    ensures { result ≡ class_high x }
{
    x.map_or(0, |v| v.high)
}

fn items_of(g: GroupFields) -> u64
    ensures { result ≡ 16 + has_item g.writer_group + 2 * has_item g.version + 4 * has_item g.number + 8 * has_item g.sequence }
{
    16 + has(g.writer_group) + 2 * has(g.version) + 4 * has(g.number) + 8 * has(g.sequence)
}

fn group_items(x: Option<GroupFields>) -> u64
    ensures { result ≡ group_items x }
{
    x.map_or(0, items_of)
}

fn group_writer(x: Option<GroupFields>) -> u64
    ensures { result ≡ group_writer x }
{
    x.map_or(0, |g| value(g.writer_group))
}

fn group_version(x: Option<GroupFields>) -> u64
    ensures { result ≡ group_version x }
{
    x.map_or(0, |g| value(g.version))
}

fn group_number(x: Option<GroupFields>) -> u64
    ensures { result ≡ group_number x }
{
    x.map_or(0, |g| value(g.number))
}

fn group_sequence(x: Option<GroupFields>) -> u64
    ensures { result ≡ group_sequence x }
{
    x.map_or(0, |g| value(g.sequence))
}

fn header_code(x: PayloadHeader) -> u64
    ensures { result ≡ header_code x }
{
    match x {
        PayloadHeader::Absent => 0,
        PayloadHeader::Ids(_) => 1,
        PayloadHeader::Chunk(_) => 2,
        PayloadHeader::Probe => 3,
    }
}

fn header_number(x: PayloadHeader) -> u64
    ensures { result ≡ header_number x }
{
    match x {
        PayloadHeader::Ids(n) => n as u64,
        PayloadHeader::Chunk(w) => w as u64,
        _ => 0,
    }
}

fn sizes_code(x: Sizes) -> u64
    ensures { result ≡ sizes_code x }
{
    match x {
        Sizes::Rest => 0,
        Sizes::Listed(_) => 1,
        Sizes::Configured => 2,
    }
}

fn sizes_place(x: Sizes) -> u64
    ensures { result ≡ sizes_place x }
{
    match x {
        Sizes::Listed(p) => p as u64,
        _ => 0,
    }
}

// Stores the first half of an envelope record.
fn put_start(out: &mut [u8], e: Envelope, places: Places)
    ensures { out.new ≡ laid out.old 0 (number_bytes (start_numbers e places)) }
{
    let numbers = [
        code(e.publisher),
        publisher_number(e.publisher),
        places.publisher_end as u64,
        present(e.class_id),
        class_low(e.class_id),
        class_high(e.class_id),
        group_items(e.group),
        group_writer(e.group),
        group_version(e.group),
        group_number(e.group),
        group_sequence(e.group),
        flag_number(e.chunk),
        header_code(e.payload_header),
        header_number(e.payload_header),
    ];
    put_numbers(out, &numbers);
}

// Stores the second half, with the cursor before the first message.
fn put_rest(out: &mut [u8], e: Envelope, places: Places, payload: Payload)
    ensures { out.new ≡ laid out.old 112 (number_bytes (rest_numbers e places payload)) }
{
    let numbers = [
        places.payload_header_end as u64,
        has(e.timestamp),
        value(e.timestamp),
        has(e.picoseconds),
        value(e.picoseconds),
        present(e.promoted),
        e.promoted.unwrap_or(0) as u64,
        places.payload as u64,
        payload.count as u64,
        sizes_code(payload.sizes),
        sizes_place(payload.sizes),
        payload.first as u64,
        0,
        payload.first as u64,
        0,
        0,
        0,
        0,
    ];
    put_numbers_from(out, 14, &numbers);
}

// Stores an envelope record, whose cursor stands before the first message; where it does not fit, nothing. Where there is room its parts
// are read back.
pub fn put_envelope(out: &mut [u8], e: Envelope, places: Places, payload: Payload)
    ensures { let m : NetworkMessage = record { envelope = e; places = places; payload = payload } in
        (out.new ≡ laid out.old 0 (number_bytes (envelope_numbers m)))
        × (ENVELOPE_SIZE ≤ length out.old → EnvelopeBack out.new m) }
{
    if out.len() < ENVELOPE_SIZE {
        return;
    }
    put_start(out, e, places);
    put_rest(out, e, places, payload);
}

fn sizes_in(code: u64, place: usize) -> Sizes
    ensures { result ≡ sizes_by code place }
{
    match code {
        1 => Sizes::Listed(place),
        2 => Sizes::Configured,
        _ => Sizes::Rest,
    }
}

// The messages of an envelope record.
pub fn payload_in(s: &[u8]) -> Payload
    ensures { result ≡ payload_in s.now }
{
    Payload {
        count: number(s, 22) as usize,
        sizes: sizes_in(number(s, 23), number(s, 24) as usize),
        first: number(s, 25) as usize,
    }
}

// The message cursor of an envelope record.
pub fn messages_in(s: &[u8]) -> MessageCursor
    ensures { result ≡ messages_in s.now }
{
    MessageCursor {
        index: number(s, 26) as usize,
        at: number(s, 27) as usize,
    }
}

// The PayloadHeader of an envelope record.
pub fn payload_header_in(s: &[u8]) -> PayloadHeader
    ensures { result ≡ payload_header_in s.now }
{
    payload_header_by(number(s, 12), number(s, 13))
}

// Where the PayloadHeader of an envelope record ends in its datagram.
pub fn payload_header_end(s: &[u8]) -> usize
    ensures { result ≡ payload_header_end s.now }
{
    number(s, 14) as usize
}

// Stores the message cursor of an envelope record.
pub fn put_messages(out: &mut [u8], cursor: MessageCursor)
    ensures { out.new ≡ messages_laid cursor out.old }
{
    (cursor.index as u64).put(out, CURSOR_INDEX);
    (cursor.at as u64).put(out, CURSOR_AT);
}

fn writer_number(x: Option<u16>) -> u64
    ensures { result ≡ writer_number x }
{
    x.map_or(65536, |id| id as u64)
}

// Stores a message's place and its DataSetWriterId.
pub fn put_place(out: &mut [u8], p: MessagePlace, writer: Option<u16>)
    ensures { out.new ≡ laid out.old 0 (number_bytes (place_numbers p writer)) }
{
    let numbers = [
        p.index as u64,
        p.offset as u64,
        p.length as u64,
        writer_number(writer),
    ];
    put_numbers(out, &numbers);
}

fn class_in(present: u64, low: u64, high: u64) -> Option<Guid>
    ensures { result ≡ class_in present low high }
{
    if present == 0 {
        return None;
    }
    Some(Guid { low, high })
}

fn group_in(s: &[u8], items: u64) -> Option<GroupFields>
    ensures { result ≡ group_in s.now items }
{
    if items == 0 {
        return None;
    }
    Some(GroupFields {
        writer_group: given(items % 2 == 1, number(s, 7)),
        version: given((items >> 1) % 2 == 1, number(s, 8)),
        number: given((items >> 2) % 2 == 1, number(s, 9)),
        sequence: given((items >> 3) % 2 == 1, number(s, 10)),
    })
}

fn payload_header_by(kind: u64, v: u64) -> PayloadHeader
    ensures { result ≡ payload_header_by kind v }
{
    match kind {
        1 => PayloadHeader::Ids(at_most(65535, v) as u16),
        2 => PayloadHeader::Chunk(at_most(65535, v) as u16),
        3 => PayloadHeader::Probe,
        _ => PayloadHeader::Absent,
    }
}

fn promoted_in(present: u64, size: u64) -> Option<usize>
    ensures { result ≡ promoted_in present size }
{
    if present == 0 {
        return None;
    }
    Some(size as usize)
}

// The envelope of an envelope record; a number that does not fit its item counts as the largest that does.
pub fn envelope_in(s: &[u8]) -> Envelope
    ensures { result ≡ envelope_in s.now }
{
    Envelope {
        publisher: publisher_given(number(s, 0), number(s, 1)),
        class_id: class_in(number(s, 3), number(s, 4), number(s, 5)),
        group: group_in(s, number(s, 6)),
        chunk: is_on(number(s, 11)),
        payload_header: payload_header_in(s),
        timestamp: given(is_on(number(s, 15)), number(s, 16)),
        picoseconds: given(is_on(number(s, 17)), number(s, 18)),
        promoted: promoted_in(number(s, 19), number(s, 20)),
    }
}

fn group_fits(s: &[u8], items: u64) -> bool
    ensures { result ≡ group_fits s.now items }
{
    fits_item(items % 2 == 1, 65535, number(s, 7))
        & (fits_item((items >> 1) % 2 == 1, 4294967295, number(s, 8))
            & (fits_item((items >> 2) % 2 == 1, 65535, number(s, 9))
                & fits_item((items >> 3) % 2 == 1, 65535, number(s, 10))))
}

fn header_fits(kind: u64, v: u64) -> bool
    ensures { result ≡ header_fits kind v }
{
    fits_item(kind == 1, 255, v) & fits_item(kind == 2, 65535, v)
}

// Whether the number of each item that is present in an envelope record fits the item.
pub fn envelope_fits(s: &[u8]) -> bool
    ensures { result ≡ envelope_fits s.now }
{
    publisher_number_fits(number(s, 0), number(s, 1))
        & (group_fits(s, number(s, 6))
            & (header_fits(number(s, 12), number(s, 13))
                & fits_item(is_on(number(s, 17)), 65535, number(s, 18))))
}
