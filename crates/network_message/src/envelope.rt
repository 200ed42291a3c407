// The NetworkMessage: its envelope, from byte 0 to the payload, and where its messages stand.
ghost use Rattle.std.specs.Prelude.{◌≡◌};
ghost use Rattle.wire.specs.Answer.{got, and_then};
ghost use Rattle.wire.specs.Refusal.{answer};
ghost use Rattle.network_message.specs.Envelope.{identity_at, times_at, messages_of, envelope_at, envelope_of, envelope_body_at, network_message_at, message_place_at, message_bytes, answer_envelope, answer_network_message};
ghost use Rattle.network_message.specs.Payload.{is_single, rest_only_at, payload_at};

use crate::payload::{MessagePlace, Payload, Sizes, nth, read_payload, rest};
use network_header::envelope::{Envelope, Places};
use network_header::flags::{Flags, read_flags};
use network_header::group::{GroupFields, read_group};
use network_header::header::{PayloadHeader, read_class_id, read_payload_header, read_promoted};
use network_header::numbers::writers;
use publisher_id::publisher::{PublisherId, read_publisher};
use wire::Guid;
use wire::constants::MOST_DATAGRAM;
use wire::optional::{read_optional, read_picoseconds};
use wire::part::part;
use wire::refusal::{Read, Reason, Refusal};

// PublisherId, DataSetClassId and group header, and where the PublisherId ends.
#[derive(Clone, Copy, PartialEq, Eq, Debug)]
pub struct Identity {
    pub publisher: PublisherId,
    pub publisher_end: usize,
    pub class_id: Option<Guid>,
    pub group: Option<GroupFields>,
}

// The last parts of an envelope.
#[derive(Clone, Copy, PartialEq, Eq, Debug)]
pub struct Times {
    pub timestamp: Option<i64>,
    pub picoseconds: Option<u16>,
    pub promoted: Option<usize>,
}

fn read_identity(s: &[u8], flags: Flags, at: usize) -> Read<Identity>
    ensures { answer result ≡ identity_at flags s.now at }
{
    let (publisher, publisher_end) = read_publisher(s, flags.publisher, flags.kind, at)?;
    let (class_id, at) = read_class_id(s, flags.class_id, publisher_end)?;
    let (group, at) = read_group(s, flags.group, at)?;
    let identity = Identity {
        publisher,
        publisher_end,
        class_id,
        group,
    };
    Ok((identity, at))
}

fn read_times(s: &[u8], flags: Flags, messages: usize, at: usize) -> Read<Times>
    ensures { answer result ≡ times_at flags messages s.now at }
{
    let (timestamp, at) = read_optional(s, flags.timestamp, at)?;
    let (picoseconds, at) = read_picoseconds(s, flags.picoseconds, at)?;
    let (promoted, at) = read_promoted(s, flags.promoted, messages, at)?;
    let times = Times {
        timestamp,
        picoseconds,
        promoted,
    };
    Ok((times, at))
}

// The number of messages for the promoted fields: a chunk counts as one, without a PayloadHeader the configured writers count; a probe
// has none.
pub fn messages_of(chunk: bool, header: PayloadHeader, configured: usize) -> usize
    ensures { result ≡ messages_of chunk header configured }
{
    if chunk {
        return 1;
    }
    match header {
        PayloadHeader::Absent => configured,
        PayloadHeader::Ids(n) => n as usize,
        PayloadHeader::Chunk(_) => 1,
        PayloadHeader::Probe => 0,
    }
}

fn envelope_of(flags: Flags, i: Identity, header: PayloadHeader, t: Times) -> Envelope
    ensures { result ≡ envelope_of flags i header t }
{
    Envelope {
        publisher: i.publisher,
        class_id: i.class_id,
        group: i.group,
        chunk: flags.chunk,
        payload_header: header,
        timestamp: t.timestamp,
        picoseconds: t.picoseconds,
        promoted: t.promoted,
    }
}

// The envelope, and where its variable parts end.
fn read_header(
    s: &[u8],
    flags: Flags,
    configured: usize,
    at: usize,
) -> Result<(Envelope, Places), Refusal>
    ensures { answer_envelope result ≡ envelope_at flags configured s.now at }
{
    let (identity, at) = read_identity(s, flags, at)?;
    let (header, payload_header_end) = read_payload_header(
        s,
        flags.payload_header,
        flags.chunk,
        flags.probe,
        at,
    )?;
    let messages = messages_of(flags.chunk, header, configured);
    let (times, payload) = read_times(s, flags, messages, payload_header_end)?;
    let places = Places {
        publisher_end: identity.publisher_end,
        payload_header_end,
        payload,
    };
    Ok((envelope_of(flags, identity, header, times), places))
}

// Whether a payload is one message, with no list of sizes.
fn is_single(header: PayloadHeader) -> bool
    ensures { result ≡ is_single header }
{
    matches!(header, PayloadHeader::Ids(1))
}

// A NetworkMessage whose payload is the rest.
fn with_rest(
    s: &[u8],
    envelope: Envelope,
    places: Places,
) -> Result<(Envelope, Places, Payload), Refusal>
    ensures { answer_network_message result ≡ and_then (rest_only_at s.now places.payload)
        (λ p next. got (record { envelope = envelope; places = places; payload = p }) next) }
{
    let payload = rest(s, places.payload)?;
    Ok((envelope, places, payload))
}

// A NetworkMessage after its header. A single message, the common one, and a chunk have ways of their own, so that where their messages
// stand is not copied in pieces: a tenth of taking a chunk in.
fn with_payload(
    s: &[u8],
    envelope: Envelope,
    places: Places,
    sizes: &[u16],
) -> Result<(Envelope, Places, Payload), Refusal>
    ensures { let payload = payload_at envelope.chunk envelope.payload_header sizes.now s.now places.payload in
        answer_network_message result ≡ and_then payload
        (λ p next. got (record { envelope = envelope; places = places; payload = p }) next) }
{
    let header = envelope.payload_header;
    if is_single(header) {
        return with_rest(s, envelope, places);
    }
    if let PayloadHeader::Chunk(_) = header {
        let payload = Payload {
            count: 0,
            sizes: Sizes::Rest,
            first: places.payload,
        };
        return Ok((envelope, places, payload));
    }
    let payload = read_payload(&*s, envelope.chunk, header, &*sizes, places.payload)?;
    Ok((envelope, places, payload))
}

fn read_body(
    s: &[u8],
    flags: Flags,
    sizes: &[u16],
    at: usize,
) -> Result<(Envelope, Places, Payload), Refusal>
    ensures { answer_network_message result ≡ envelope_body_at flags sizes.now s.now at }
{
    let (envelope, places) = read_header(s, flags, writers(sizes), at)?;
    with_payload(s, envelope, places, sizes)
}

// A datagram under the sizes of the configured writers, 0 for none; of these the first 16 count: its envelope, where its variable parts
// end, and where its messages stand.
pub fn read(s: &[u8], sizes: &[u16]) -> Result<(Envelope, Places, Payload), Refusal>
    ensures { answer_network_message result ≡ network_message_at sizes.now s.now }
{
    if MOST_DATAGRAM < s.len() {
        return Err(Reason::OverLimit.at(0));
    }
    let (flags, at) = read_flags(s)?;
    read_body(s, flags, sizes, at)
}

// Where message k of a datagram stands.
pub fn message_place(s: &[u8], sizes: &[u16], k: usize) -> Read<MessagePlace>
    ensures { answer result ≡ message_place_at sizes.now k s.now }
{
    let (_, _, payload) = read(s, sizes)?;
    nth(s, payload, sizes, k)
}

// Message k as its own part of the datagram; empty where `message_place` refuses.
pub fn message<'a>(s: &'a [u8], sizes: &[u16], k: usize) -> &'a [u8]
    ensures { result.now ≡ message_bytes (message_place_at sizes.now k s.now) s.now }
{
    match message_place(s, sizes, k) {
        Ok((m, _)) => part(s, m.offset, m.length),
        Err(_) => part(s, 0, 0),
    }
}
