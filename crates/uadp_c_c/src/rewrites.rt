// Datagrams and messages read and written again.
ghost use Rattle.std.specs.Prelude.{◌≡◌};
ghost use Rattle.wire_writer.specs.Writing.{buffer_after};
ghost use Rattle.rewriting.specs.Same.{message_same, datagram_same};
ghost use Rattle.records.specs.Writers.{sizes_in, types_for};
ghost use Rattle.uadp_c.specs.Writing.{output_result};

// Writes an accepted datagram again.
#[unsafe(no_mangle)]
pub extern "C" fn uadp_rewrite(datagram: &[u8], config: &[u8], out: &mut [u8]) -> u64
    ensures { let same = datagram_same (sizes_in config.now) datagram.now in
        (result ≡ output_result out.old same) × (out.new ≡ buffer_after out.old same) }
{
    uadp_c::rewrites::uadp_rewrite(datagram, config, out)
}

// Writes an accepted, valid DataSetMessage again.
#[unsafe(no_mangle)]
pub extern "C" fn uadp_rewrite_message(
    message: &[u8],
    config: &[u8],
    writer: u32,
    out: &mut [u8],
) -> u64
    ensures { let same = message_same (types_for config.now writer) message.now in
        (result ≡ output_result out.old same) × (out.new ≡ buffer_after out.old same) }
{
    uadp_c::rewrites::uadp_rewrite_message(message, config, writer, out)
}
