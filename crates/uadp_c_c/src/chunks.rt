// A chunk read, and how many chunks a message has.
ghost use Rattle.std.specs.Prelude.{◌≡◌};
ghost use Rattle.chunk.specs.Datagram.{chunk_at};
ghost use Rattle.records.specs.Result.{result_in, filled_in};
ghost use Rattle.records.specs.Writers.{sizes_in};
ghost use Rattle.uadp_c.specs.Chunks.{chunk_filling, chunks_result};

// Reads a chunk's datagram into a chunk record.
#[unsafe(no_mangle)]
pub extern "C" fn uadp_chunk(datagram: &[u8], config: &[u8], chunk: &mut [u8]) -> u64
    ensures { let read = chunk_filling (chunk_at (sizes_in config.now) datagram.now) in
        (result ≡ result_in read chunk.old) × (chunk.new ≡ filled_in read chunk.old) }
{
    uadp_c::chunks::uadp_chunk(datagram, config, chunk)
}

// How many chunks with so many bytes of data a message of so many bytes has.
#[unsafe(no_mangle)]
pub extern "C" fn uadp_chunks(total: u64, size: u64) -> u64
    ensures { result ≡ chunks_result total size }
{
    uadp_c::chunks::uadp_chunks(total, size)
}
