// A chunk's payload: MessageSequenceNumber, ChunkOffset, TotalSize and ChunkData.
ghost use Rattle.std.specs.Prelude.{◌≡◌, ◌+◌, ltb};
ghost use Rattle.chunk.specs.Payload.{total_at, sized_data, data_length_at, data_of, data_at, after_number_at, chunk_payload_at};
ghost use Rattle.wire.specs.Refusal.{answer};

use wire::Length;
use wire::constants::MOST_TOTAL;
use wire::item::Item;
use wire::refusal::{Read, Reason};

// The numbers of a chunk, and where its data stands.
#[derive(Clone, Copy, PartialEq, Eq, Debug)]
pub struct ChunkPayload {
    pub number: u16,
    pub offset: usize,
    pub total: usize,
    pub first: usize,
    pub length: usize,
}

// Where data stands.
#[derive(Clone, Copy, PartialEq, Eq, Debug)]
pub struct ChunkData {
    first: usize,
    length: usize,
}

// TotalSize: 0 is 6, above 16,384 is 10.
fn read_total(s: &[u8], at: usize) -> Read<usize>
    ensures { answer result ≡ total_at s.now at }
{
    let (v, next) = u32::read(s, at)?;
    let total = v as usize;
    if total == 0 {
        return Err(Reason::Disagree.at(at));
    }
    if MOST_TOTAL < total {
        return Err(Reason::OverLimit.at(0));
    }
    Ok((total, next))
}

// Whether n bytes at an offset reach above total.
fn above(offset: usize, n: usize, total: usize) -> bool
    ensures { result ≡ ltb total (offset + n) }
{
    if total < n {
        return true;
    }
    total - n < offset
}

// A data length of n, read at a position.
fn sized_data(offset: usize, total: usize, n: usize, at: usize, next: usize) -> Read<usize>
    ensures { answer result ≡ sized_data offset total n at next }
{
    if n == 0 {
        return Err(Reason::Disagree.at(at));
    }
    if above(offset, n, total) {
        return Err(Reason::Disagree.at(at));
    }
    Ok((n, next))
}

// The data's length: below -1 is 5; null, 0, or above total from the offset on is 6.
fn read_data_length(s: &[u8], offset: usize, total: usize, at: usize) -> Read<usize>
    ensures { answer result ≡ data_length_at offset total s.now at }
{
    let (length, next) = wire::read_length(s, at)?;
    match length {
        Length::Null => Err(Reason::Disagree.at(at)),
        Length::Of(n) => sized_data(offset, total, n, at, next),
        Length::Negative => Err(Reason::BadLength.at(at)),
    }
}

// The data of a length, after which nothing may follow.
fn data_of(s: &[u8], length: usize, first: usize) -> Read<ChunkData>
    ensures { answer result ≡ data_of length s.now first }
{
    let end = wire::skip(s, first, length)?;
    if end != s.len() {
        return Err(Reason::LeftOver.at(end));
    }
    Ok((ChunkData { first, length }, end))
}

fn read_data(s: &[u8], offset: usize, total: usize, at: usize) -> Read<ChunkData>
    ensures { answer result ≡ data_at offset total s.now at }
{
    let (length, first) = read_data_length(s, offset, total, at)?;
    data_of(s, length, first)
}

// What stands after the number: offset, total and data.
fn read_rest(s: &[u8], number: u16, at: usize) -> Read<ChunkPayload>
    ensures { answer result ≡ after_number_at number s.now at }
{
    let (offset, next) = u32::read(s, at)?;
    let (total, next) = read_total(s, next)?;
    let (data, end) = read_data(s, offset as usize, total, next)?;
    let payload = ChunkPayload {
        number,
        offset: offset as usize,
        total,
        first: data.first,
        length: data.length,
    };
    Ok((payload, end))
}

// A chunk's payload at a position, to the slice's end.
pub fn read_payload(s: &[u8], at: usize) -> Read<ChunkPayload>
    ensures { answer result ≡ chunk_payload_at s.now at }
{
    let (number, next) = u16::read(s, at)?;
    read_rest(s, number, next)
}
