// The chunk record (include/uadp.h): whose chunk a datagram is, and where its data stands.
ghost use Rattle.std.specs.Prelude.{◌≡◌};
ghost use Rattle.wire_writer.specs.Store.{laid};
ghost use Rattle.records.specs.Numbers.{number_bytes};
ghost use Rattle.partial_record.specs.Chunk.{chunk_numbers};

use chunk::datagram::ChunkPlace;
use publisher_id::publisher_record::code;
use records::items::{has, value};
use records::numbers::put_numbers;
use records::publisher::publisher_number;

// Stores a chunk's record at the buffer's start; where it does not fit, nothing.
pub fn put_chunk(out: &mut [u8], c: ChunkPlace)
    ensures { out.new ≡ laid out.old 0 (number_bytes (chunk_numbers c)) }
{
    let payload = c.payload;
    let numbers = [
        code(c.publisher),
        publisher_number(c.publisher),
        c.publisher_end as u64,
        c.writer as u64,
        payload.number as u64,
        payload.offset as u64,
        payload.total as u64,
        payload.first as u64,
        payload.length as u64,
        has(c.group),
        value(c.group),
        0,
        0,
        0,
        0,
        0,
    ];
    put_numbers(out, &numbers);
}
