// The NetworkMessage: judged first, then written in one pass.
ghost use Rattle.std.specs.Prelude.{◌≡◌, ◌++◌, ◌≤◌, length};
ghost use Rattle.wire_writer.specs.Writing.{Puts, Writes, writing};
ghost use Rattle.network_message.specs.Writer.{given_datagram, given_in, tail_bytes, envelope_bytes, datagram_of, datagram_reading_refusal, shape_refusal, datagram_refusal, again_of, WroteDatagram, RewroteParts};
ghost use Rattle.publisher_id.specs.Publisher.{text_of};
ghost use Rattle.network_header.specs.Header.{ids_of, promoted_of};
ghost use Rattle.wire.specs.Constants.{MOST_DATAGRAM};
ghost use Rattle.wire.specs.Refusal.{rule_number};

use crate::envelope::{messages_of, read};
use crate::writer_payload::{lengths_shape, list_size, payload_refusal, put_payload};
use network_header::envelope::{Envelope, Places};
use network_header::flags::{flags_size, probe_refusal, put_flags, times_refusal};
use network_header::group::{group_refusal, group_size, put_group};
use network_header::header::{
    PayloadHeader, count_refusal, ids_shape, payload_header_size, probe_on, promoted_refusal,
    promoted_shape, promoted_size, put_payload_header, put_promoted,
};
use network_header::numbers::writers;
use publisher_id::publisher::{
    PublisherId, publisher_refusal, publisher_shape, publisher_size, put_publisher,
};
use wire::part::{part, tail};
use wire::refusal::Reason;
use wire_writer::store::put_run;
use wire_writer::writing::{optional_picoseconds_rule, put_optional, room_rule, size_of};

// What is given beside an envelope: the bytes of a string PublisherId, the DataSetWriterIds, the promoted fields, the lengths of several
// messages, and the messages one after the other, a chunk's payload, or a probe.
#[derive(Clone, Copy)]
struct Given<'a> {
    text: &'a [u8],
    ids: &'a [u8],
    promoted: &'a [u8],
    lengths: &'a [u8],
    messages: &'a [u8],
}

fn tail_size(x: Envelope, ids: &[u8], promoted: &[u8]) -> usize
    requires { (length ids.now ≤ MOST_DATAGRAM) × (length promoted.now ≤ MOST_DATAGRAM) }
    ensures { (result ≡ length (tail_bytes ids.now promoted.now x)) × (result ≤ 131090) }
{
    payload_header_size(x.payload_header, ids)
        + (size_of(x.timestamp) + (size_of(x.picoseconds) + promoted_size(x.promoted, promoted)))
}

fn header_size(x: Envelope, text: &[u8], ids: &[u8], promoted: &[u8]) -> usize
    requires { (length text.now ≤ MOST_DATAGRAM) × (length ids.now ≤ MOST_DATAGRAM) × (length promoted.now ≤ MOST_DATAGRAM) }
    ensures { let bytes = envelope_bytes text.now ids.now promoted.now x in
        (result ≡ length bytes) × (result ≤ 200000) }
{
    flags_size(x)
        + (publisher_size(x.publisher, text)
            + (size_of(x.class_id) + (group_size(x.group) + tail_size(x, ids, promoted))))
}

fn put_tail(out: &mut [u8], at: usize, x: Envelope, ids: &[u8], promoted: &[u8]) -> usize
    ensures { let bytes = tail_bytes ids.now promoted.now x in
        Puts bytes out.old at out.new result }
{
    let after_ids = put_payload_header(out, at, x.payload_header, ids);
    let after_time = put_optional(out, after_ids, x.timestamp);
    let after_picoseconds = put_optional(out, after_time, x.picoseconds);
    put_promoted(out, after_picoseconds, x.promoted, promoted)
}

fn put_header(out: &mut [u8], x: Envelope, text: &[u8], ids: &[u8], promoted: &[u8]) -> usize
    ensures { let bytes = envelope_bytes text.now ids.now promoted.now x in
        Puts bytes out.old 0 out.new result }
{
    let after_flags = put_flags(out, 0, x);
    let after_publisher = put_publisher(out, after_flags, x.publisher, text);
    let after_class = put_optional(out, after_publisher, x.class_id);
    let after_group = put_group(out, after_class, x.group);
    put_tail(out, after_group, x, ids, promoted)
}

// Refuses what reading would refuse: the header's parts in reading order, and then the payload.
fn reading_refusal(x: Envelope, g: Given, sizes: &[u16]) -> Result<(), Reason>
    ensures { rule_number result ≡ datagram_reading_refusal (given_in g.entry) x sizes.now }
{
    let announced = messages_of(x.chunk, x.payload_header, writers(sizes));
    times_refusal(x.picoseconds.is_some(), x.timestamp.is_some())?;
    probe_refusal(probe_on(x.payload_header), x.chunk, x.promoted.is_some())?;
    publisher_refusal(x.publisher, g.text.len())?;
    group_refusal(x.group)?;
    count_refusal(x.payload_header)?;
    optional_picoseconds_rule(x.picoseconds)?;
    promoted_refusal(x.promoted, announced)?;
    payload_refusal(x.chunk, x.payload_header, sizes, g.lengths, g.messages)
}

// Refuses what would read back otherwise.
fn shape_refusal(x: Envelope, g: Given, sizes: &[u16], configured: &[u16]) -> Result<(), Reason>
    ensures { rule_number result ≡ shape_refusal (given_in g.entry) x sizes.now configured.now }
{
    publisher_shape(x.publisher, g.text.len())?;
    ids_shape(x.chunk, x.payload_header, g.ids, configured)?;
    promoted_shape(x.promoted, g.promoted.len())?;
    lengths_shape(x.payload_header, g.lengths, sizes)
}

fn put_datagram(out: &mut [u8], x: Envelope, g: Given) -> usize
    ensures { Puts (datagram_of (given_in g.entry) x) out.old 0 out.new result }
{
    let at = put_header(out, x, g.text, g.ids, g.promoted);
    put_payload(out, at, x.payload_header, g.lengths, g.messages)
}

fn datagram_size(x: Envelope, g: Given) -> usize
    requires { (length g.text.now ≤ MOST_DATAGRAM)
        × (length g.ids.now ≤ MOST_DATAGRAM)
        × (length g.promoted.now ≤ MOST_DATAGRAM)
        × (length g.lengths.now ≤ MOST_DATAGRAM) }
    ensures { result ≡ length (datagram_of (given_in g.entry) x) }
{
    header_size(x, g.text, g.ids, g.promoted)
        + (list_size(x.payload_header, g.lengths) + g.messages.len())
}

fn given_refusal(x: Envelope, g: Given, sizes: &[u16], configured: &[u16]) -> Result<(), Reason>
    ensures { rule_number result ≡ datagram_refusal (given_in g.entry) x sizes.now configured.now }
{
    reading_refusal(x, g, sizes)?;
    shape_refusal(x, g, sizes, configured)
}

// Refuses these parts as `write` does before it looks at the room: what reading would refuse of what would be written, in reading order;
// then what would read back otherwise.
pub fn refusal(
    x: Envelope,
    text: &[u8],
    ids: &[u8],
    promoted: &[u8],
    lengths: &[u8],
    messages: &[u8],
    sizes: &[u16],
    configured: &[u16],
) -> Result<(), Reason>
    ensures { let lists = given_datagram text.now ids.now promoted.now in
        let g = lists lengths.now messages.now in
        rule_number result ≡ datagram_refusal g x sizes.now configured.now }
{
    let g = Given {
        text,
        ids,
        promoted,
        lengths,
        messages,
    };
    given_refusal(x, g, sizes, configured)
}

// Writes a NetworkMessage from the start of a buffer. `text` has the bytes of a string PublisherId, `ids` the
// DataSetWriterIds and `lengths` the lengths of several messages, each as 2 bytes, lowest first; for one message and for a
// chunk `lengths` is empty. `messages` has the messages one after the other, a chunk's payload, or a probe. `sizes` and
// `configured` are the sizes and ids of the configured writers. They are parameters of their own, as the C interface lends them.
pub fn write(
    out: &mut [u8],
    x: Envelope,
    text: &[u8],
    ids: &[u8],
    promoted: &[u8],
    lengths: &[u8],
    messages: &[u8],
    sizes: &[u16],
    configured: &[u16],
) -> Result<usize, Reason>
    ensures { let lists = given_datagram text.now ids.now promoted.now in
        let g = lists lengths.now messages.now in
        let wrote = WroteDatagram g x sizes.now configured.now in
        wrote out.old out.new result }
{
    let g = Given {
        text,
        ids,
        promoted,
        lengths,
        messages,
    };
    given_refusal(x, g, sizes, configured)?;
    let size = datagram_size(x, g);
    room_rule(size, out.len())?;
    put_datagram(out, x, g);
    Ok(size)
}

// The parts of a datagram as reading found them.
fn text_of<'a>(s: &'a [u8], p: PublisherId, end: usize) -> &'a [u8]
    ensures { result.now ≡ text_of s.now p end }
{
    match p {
        PublisherId::Text(n) => part(s, wire::left(end, n), n),
        _ => part(s, 0, 0),
    }
}

fn ids_of<'a>(s: &'a [u8], x: PayloadHeader, end: usize) -> &'a [u8]
    ensures { result.now ≡ ids_of s.now x end }
{
    match x {
        PayloadHeader::Ids(n) => part(s, wire::left(end, 2 * (n as usize)), 2 * (n as usize)),
        _ => part(s, 0, 0),
    }
}

fn promoted_of<'a>(s: &'a [u8], x: Option<usize>, end: usize) -> &'a [u8]
    ensures { result.now ≡ promoted_of s.now x end }
{
    match x {
        None => part(s, 0, 0),
        Some(n) => part(s, wire::left(end, n), n),
    }
}

// Writes header parts, and a payload as it stands.
fn put_again(
    out: &mut [u8],
    x: Envelope,
    text: &[u8],
    ids: &[u8],
    promoted: &[u8],
    payload: &[u8],
) -> Result<usize, Reason>
    requires { (length text.now ≤ MOST_DATAGRAM)
        × (length ids.now ≤ MOST_DATAGRAM)
        × (length promoted.now ≤ MOST_DATAGRAM)
        × (length payload.now ≤ MOST_DATAGRAM) }
    ensures { let header = envelope_bytes text.now ids.now promoted.now x in
        Writes (writing (header ++ payload.now)) out.old out.new result }
{
    let size = header_size(x, text, ids, promoted) + payload.len();
    room_rule(size, out.len())?;
    let at = put_header(out, x, text, ids, promoted);
    put_run(out, at, payload);
    Ok(size)
}

fn again(out: &mut [u8], s: &[u8], x: Envelope, places: Places) -> Result<usize, Reason>
    requires { length s.now ≤ MOST_DATAGRAM }
    ensures { Writes (writing (again_of s.now x places)) out.old out.new result }
{
    put_again(
        out,
        x,
        text_of(s, x.publisher, places.publisher_end),
        ids_of(s, x.payload_header, places.payload_header_end),
        promoted_of(s, x.promoted, places.payload),
        tail(s, places.payload),
    )
}

// Reads a datagram under the sizes of the configured writers and writes it again from the start of a buffer. Only where
// PublisherId is off can the bytes differ: its type bits are then written as 0.
pub fn rewrite(out: &mut [u8], s: &[u8], sizes: &[u16]) -> Result<usize, Reason>
    ensures { RewroteParts sizes.now s.now out.old out.new result }
{
    // a `?` behind `map_err` left the goal open
    match read(s, sizes) {
        Ok((x, places, _)) => again(out, s, x, places),
        Err(refusal) => Err(refusal.reason),
    }
}
