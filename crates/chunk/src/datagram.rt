// A chunk read from a datagram: its envelope, and then its payload.
ghost use Rattle.std.specs.Prelude.{◌≡◌};
ghost use Rattle.chunk.specs.Datagram.{chunk_writer_of, chunk_group_of, chunk_from, chunk_at, chunk_data};
ghost use Rattle.wire.specs.Refusal.{answer};

use crate::payload::{ChunkPayload, read_payload};
use network_header::envelope::Envelope;
use network_header::group::GroupFields;
use network_header::header::PayloadHeader;
use publisher_id::publisher::PublisherId;
use wire::part::part;
use wire::refusal::{Read, Reason};

// Whose chunk it is, where a string PublisherId ends, its WriterGroupId where it has one, and the chunk's payload.
#[derive(Clone, Copy, PartialEq, Eq, Debug)]
pub struct ChunkPlace {
    pub publisher: PublisherId,
    pub publisher_end: usize,
    pub group: Option<u16>,
    pub writer: u16,
    pub payload: ChunkPayload,
}

// The DataSetWriterId of a chunk's PayloadHeader.
fn writer_of(header: PayloadHeader) -> u16
    ensures { result ≡ chunk_writer_of header }
{
    match header {
        PayloadHeader::Chunk(writer) => writer,
        _ => 0,
    }
}

// The WriterGroupId of a chunk's group header: none without a header, or where its flag is off.
fn group_of(header: Option<GroupFields>) -> Option<u16>
    ensures { result ≡ chunk_group_of header }
{
    header.and_then(|fields| fields.writer_group)
}

// The chunk of an envelope whose payload starts at a position.
fn read_chunk(s: &[u8], e: Envelope, publisher_end: usize, at: usize) -> Read<ChunkPlace>
    ensures { answer result ≡ chunk_from e publisher_end s.now at }
{
    if !e.chunk {
        return Err(Reason::NotTaken.at(0));
    }
    let (payload, next) = read_payload(s, at)?;
    let place = ChunkPlace {
        publisher: e.publisher,
        publisher_end,
        group: group_of(e.group),
        writer: writer_of(e.payload_header),
        payload,
    };
    Ok((place, next))
}

// The chunk of a datagram under the sizes of the configured writers: the envelope's refusals first, then 4 without the chunk bit.
pub fn read(s: &[u8], sizes: &[u16]) -> Read<ChunkPlace>
    ensures { answer result ≡ chunk_at sizes.now s.now }
{
    let (envelope, places, messages) = network_message::envelope::read(&*s, &*sizes)?;
    read_chunk(s, envelope, places.publisher_end, messages.first)
}

// A chunk's data as its own part of the datagram; empty where `read` refuses.
pub fn data<'a>(s: &'a [u8], sizes: &[u16]) -> &'a [u8]
    ensures { result.now ≡ chunk_data (chunk_at sizes.now s.now) s.now }
{
    match read(s, sizes) {
        Ok((c, _)) => part(s, c.payload.first, c.payload.length),
        Err(_) => part(s, 0, 0),
    }
}
