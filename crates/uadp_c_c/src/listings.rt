// A datagram's listing.
ghost use Rattle.std.specs.Prelude.{◌≡◌};
ghost use Rattle.wire_writer.specs.Writing.{answer_written};
ghost use Rattle.listing.specs.Text.{text_written, text_after, length_in};
ghost use Rattle.uadp_c.specs.Listings.{listing_text, length_result, MOST_VALUE};
ghost use Rattle.uadp_c.specs.Writing.{writer_result};

// Puts the whole listing of a datagram at the buffer's start.
#[unsafe(no_mangle)]
pub extern "C" fn uadp_list(datagram: &[u8], config: &[u8], out: &mut [u8]) -> u64
    ensures { let text = listing_text config.now datagram.now in
        (result ≡ writer_result (answer_written (text_written out.old text)))
        × (out.new ≡ text_after out.old text) }
{
    uadp_c::listings::uadp_list(datagram, config, out)
}

// How many bytes the whole listing of a datagram has.
#[unsafe(no_mangle)]
pub extern "C" fn uadp_list_length(datagram: &[u8], config: &[u8]) -> u64
    ensures { result ≡ length_result (length_in MOST_VALUE (listing_text config.now datagram.now)) }
{
    uadp_c::listings::uadp_list_length(datagram, config)
}
