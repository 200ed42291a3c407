// A datagram walked in one call.
ghost use Rattle.std.specs.Prelude.{◌≡◌};
ghost use Rattle.walk_records.specs.Walk.{records_put, walk_records, walk_of};
ghost use Rattle.uadp_c.specs.Walks.{configured, walk_result};

// Puts a record for each message of a datagram and each of its fields, of a refused message of those before the fault.
#[unsafe(no_mangle)]
pub extern "C" fn uadp_walk(datagram: &[u8], config: &[u8], records: &mut [u8]) -> u64
    ensures { let w = configured config.now in
        (result ≡ walk_result (walk_of w datagram.now))
        × (records.new ≡ records_put 0 (walk_records w datagram.now) records.old) }
{
    uadp_c::walks::uadp_walk(datagram, config, records)
}
