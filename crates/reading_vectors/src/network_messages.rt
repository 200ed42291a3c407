// Datagrams: document 01's section "The envelope", Annex A's header layouts, and each refusal at each place. A line has a letter for the
// configured writers and a datagram: `-` or `N` no writer; `r` one that takes the rest; `s` two, of sizes 3 and 2; `u` two, of which one
// has no size. The answer is the PublisherId and the number of messages, and each message as writer id, offset and length. `P` has a
// datagram and the number of a message: the message's place, and the position after it. `C` has two datagrams and the length of the
// first: whether their PublisherIds, kept by value, are equal.
use crate::or_refused;
use network_header::envelope::{Envelope, Places};
use network_message::envelope::{message, message_place, read};
use network_message::payload::{MessageCursor, MessagePlace, Payload};
use network_message::writer_id::writer_id;
use publisher_id::publisher::PublisherId;
use publisher_id::publisher_record::{PublisherRecord, publisher_record, same_publisher};
use vector_lines::lines::{decimal, letter};
use vector_lines::print::{named, number, optional, put};
use wire::part::{part, tail};
use wire::refusal::Refusal;

// Shows a NetworkMessage of one line of the input.
pub fn vector(rt: &impl Print, line: &[u8], bytes: &[u8]) {
    let shown = match letter(line) {
        b'P' => place(rt, bytes, decimal(line, 2)),
        b'C' => {
            compare(rt, bytes, decimal(line, 2));
            Ok(())
        }
        b'r' => show(rt, bytes, &[0]),
        b's' => show(rt, bytes, &[3, 2]),
        b'u' => show(rt, bytes, &[3, 0]),
        _ => show(rt, bytes, &[]),
    };
    or_refused(rt, shown);
}

fn show(rt: &impl Print, s: &[u8], sizes: &[u16]) -> Result<(), Refusal> {
    let (envelope, places, p) = read(s, sizes)?;
    publisher(rt, envelope.publisher);
    number(rt, p.count);
    show_messages(rt, s, sizes, envelope, places, p);
    Ok(())
}

// The id's type and its number; of a string its length.
pub fn publisher(rt: &impl Print, id: PublisherId) {
    match id {
        PublisherId::Absent => {
            put(rt, b" -");
        }
        PublisherId::Byte(v) => typed(rt, 0, v as usize),
        PublisherId::UInt16(v) => typed(rt, 1, v as usize),
        PublisherId::UInt32(v) => typed(rt, 2, v as usize),
        PublisherId::UInt64(v) => typed(rt, 3, v as usize),
        PublisherId::Text(n) => typed(rt, 4, n),
    }
}

fn typed(rt: &impl Print, k: usize, n: usize) {
    named(rt, b"u8 u16 u32 u64 str", k);
    number(rt, n);
}

fn show_messages(
    rt: &impl Print,
    s: &[u8],
    sizes: &[u16],
    envelope: Envelope,
    places: Places,
    p: Payload,
) {
    let mut cursor = MessageCursor {
        index: 0,
        at: p.first,
    };
    for _ in 0..p.count {
        let step = cursor.step(s, p, sizes);
        if let Ok((m, next)) = step {
            show_message(rt, s, sizes, envelope, places, m);
            cursor = next;
        }
        or_refused(rt, step.map(|_| ()));
    }
}

// A message's part of the datagram has its length.
fn show_message(
    rt: &impl Print,
    s: &[u8],
    sizes: &[u16],
    envelope: Envelope,
    places: Places,
    m: MessagePlace,
) {
    let end = places.payload_header_end;
    put(rt, b",");
    optional(
        rt,
        writer_id(s, envelope.payload_header, end, &[7, 9], m.index),
    );
    number(rt, m.offset);
    number(rt, message(s, sizes, m.index).len());
}

fn place(rt: &impl Print, s: &[u8], k: usize) -> Result<(), Refusal> {
    let (m, next) = message_place(s, &[], k)?;
    number(rt, m.offset);
    number(rt, m.length);
    number(rt, next);
    Ok(())
}

fn compare(rt: &impl Print, s: &[u8], n: usize) {
    if same_publisher(kept(part(s, 0, n)), kept(tail(s, n))) {
        put(rt, b" equal");
    } else {
        put(rt, b" other");
    }
}

// The PublisherId of a datagram under one writer that takes the rest; absent where it is refused.
fn kept(s: &[u8]) -> PublisherRecord {
    match read(s, &[0]) {
        Err(_) => publisher_record(s, PublisherId::Absent, 0),
        Ok((envelope, places, _)) => {
            publisher_record(s, envelope.publisher, places.publisher_end)
        }
    }
}
