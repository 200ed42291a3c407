// A datagram's listing.
ghost use Rattle.std.specs.Prelude.{◌≡◌};
ghost use Rattle.wire_writer.specs.Writing.{answer_written};
ghost use Rattle.listing.specs.Text.{text_written, text_after, length_in};
ghost use Rattle.uadp_c.specs.Listings.{listing_text, length_result, MOST_VALUE};
ghost use Rattle.uadp_c.specs.Writing.{writer_result};

use crate::refusals::refused_for;
use crate::rewrites::written_result;
use config::{WriterLists, first};
use listing::whole::{listing_length, put_listing};
use records::result::result;
use records::writers::{ids, sizes, starts, types, writer_count};
use wire::refusal::Reason;

// Puts the whole listing of a datagram at the buffer's start.
#[unsafe(no_mangle)]
pub extern "C" fn uadp_list(datagram: &[u8], config: &[u8], out: &mut [u8]) -> u64
    ensures { let text = listing_text config.now datagram.now in
        (result ≡ writer_result (answer_written (text_written out.old text)))
        × (out.new ≡ text_after out.old text) }
{
    let n = writer_count(config);
    let all_ids = ids(config);
    let all_sizes = sizes(config);
    let lists = WriterLists {
        ids: first(&all_ids, n),
        sizes: first(&all_sizes, n),
        starts: starts(config),
        types: types(config),
    };
    written_result(put_listing(out, datagram, 0, 0, lists))
}

// The largest value that a result holds.
const MOST_VALUE: usize = 72057594037927935;

// How many bytes the whole listing of a datagram has.
#[unsafe(no_mangle)]
pub extern "C" fn uadp_list_length(datagram: &[u8], config: &[u8]) -> u64
    ensures { result ≡ length_result (length_in MOST_VALUE (listing_text config.now datagram.now)) }
{
    let writers = writer_count(config);
    let all_ids = ids(config);
    let all_sizes = sizes(config);
    let lists = WriterLists {
        ids: first(&all_ids, writers),
        sizes: first(&all_sizes, writers),
        starts: starts(config),
        types: types(config),
    };
    match listing_length(MOST_VALUE, datagram, 0, 0, lists) {
        None => refused_for(Reason::OverLimit),
        Some(bytes) => result(0, bytes),
    }
}
