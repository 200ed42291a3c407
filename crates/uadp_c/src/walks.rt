// A datagram walked in one call.
ghost use Rattle.std.specs.Prelude.{◌≡◌};
ghost use Rattle.walk_records.specs.Walk.{answer_walked, records_put, walk_records, walk_of};
ghost use Rattle.uadp_c.specs.Walks.{configured, walk_result};

use crate::refusals::refused;
use config::{WriterLists, first};
use records::result::result;
use records::writers::{ids, sizes, starts, types, writer_count};
use walk_records::walk;
use wire::refusal::Refusal;

fn walked_result(walked: Result<usize, Refusal>) -> u64
    ensures { result ≡ walk_result (answer_walked walked) }
{
    match walked {
        Ok(k) => result(0, k),
        Err(refusal) => refused(refusal),
    }
}

// Puts a record for each message of a datagram and each of its fields, of a refused message of those before the fault.
#[unsafe(no_mangle)]
pub extern "C" fn uadp_walk(datagram: &[u8], config: &[u8], records: &mut [u8]) -> u64
    ensures { let w = configured config.now in
        (result ≡ walk_result (walk_of w datagram.now))
        × (records.new ≡ records_put 0 (walk_records w datagram.now) records.old) }
{
    let n = writer_count(config);
    let all_ids = ids(config);
    let all_sizes = sizes(config);
    let lists = WriterLists {
        ids: first(&all_ids, n),
        sizes: first(&all_sizes, n),
        starts: starts(config),
        types: types(config),
    };
    walked_result(walk(records, datagram, lists))
}
