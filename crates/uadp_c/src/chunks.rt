// A chunk read, and how many chunks a message has.
ghost use Rattle.std.specs.Prelude.{◌≡◌};
ghost use Rattle.chunk.specs.Datagram.{chunk_at};
ghost use Rattle.records.specs.Result.{result_in, filled_in};
ghost use Rattle.records.specs.Writers.{sizes_in};
ghost use Rattle.uadp_c.specs.Chunks.{chunk_filling, chunks_result};

use crate::refusals::{refused, refused_for};
use config::first;
use partial_record::chunk_record::put_chunk;
use records::result::result;
use records::sizes::CHUNK_SIZE;
use records::writers::{sizes, writer_count};
use wire::constants::MOST_TOTAL;
use wire::refusal::Reason;

// Reads a chunk's datagram into a chunk record.
#[unsafe(no_mangle)]
pub extern "C" fn uadp_chunk(datagram: &[u8], config: &[u8], chunk: &mut [u8]) -> u64
    ensures { let read = chunk_filling (chunk_at (sizes_in config.now) datagram.now) in
        (result ≡ result_in read chunk.old) × (chunk.new ≡ filled_in read chunk.old) }
{
    let n = writer_count(config);
    let list = sizes(config);
    match chunk::datagram::read(datagram, first(&list, n)) {
        Err(refusal) => refused(refusal),
        Ok((c, _)) => {
            if chunk.len() < CHUNK_SIZE {
                return refused_for(Reason::NoRoom);
            }
            put_chunk(chunk, c);
            result(0, c.payload.number as usize)
        }
    }
}

// How many chunks with so many bytes of data a message of so many bytes has.
#[unsafe(no_mangle)]
pub extern "C" fn uadp_chunks(total: u64, size: u64) -> u64
    ensures { result ≡ chunks_result total size }
{
    if size == 0 {
        return refused_for(Reason::Disagree);
    }
    if total == 0 {
        return refused_for(Reason::Disagree);
    }
    if (MOST_TOTAL as u64) < total {
        return refused_for(Reason::OverLimit);
    }
    let last = (total - 1) / size;
    result(0, last as usize + 1)
}
