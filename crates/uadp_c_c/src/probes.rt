// A probe read, its ids and strings one after the other, and a probe's body written.
ghost use Rattle.std.specs.Prelude.{◌≡◌};
ghost use Rattle.wire_writer.specs.Writing.{buffer_after};
ghost use Rattle.uadp_c.specs.Writing.{output_result};
ghost use Rattle.uadp_c.specs.Probes.{ProbeRead, item_step, item_result, probe_after, item_after, probe_put};

// Reads a probe's datagram into a probe record, whose cursor stands before the first id or string.
#[unsafe(no_mangle)]
pub extern "C" fn uadp_probe(datagram: &[u8], config: &[u8], probe: &mut [u8]) -> u64
    ensures { let read = ProbeRead datagram.now config.now in
        read probe.old result probe.new }
{
    uadp_c::probes::uadp_probe(datagram, config, probe)
}

// The id or string that a probe record's cursor stands before, as an item record; the cursor then stands before the next one.
#[unsafe(no_mangle)]
pub extern "C" fn uadp_next_probe_item(datagram: &[u8], probe: &mut [u8], item: &mut [u8]) -> u64
    ensures { let step = item_step probe.old datagram.now in
        (result ≡ item_result step probe.old item.old)
        × (probe.new ≡ probe_after step probe.old item.old)
        × (item.new ≡ item_after step probe.old item.old) }
{
    uadp_c::probes::uadp_next_probe_item(datagram, probe, item)
}

// Writes a probe's body from a probe record and the bytes of its ids or strings, as they are to stand. A number of the record that does
// not fit its item is 6, after reading's numbers.
#[unsafe(no_mangle)]
pub extern "C" fn uadp_put_probe(probe: &[u8], list: &[u8], out: &mut [u8]) -> u64
    ensures { let output = probe_put probe.now list.now in
        (result ≡ output_result out.old output) × (out.new ≡ buffer_after out.old output) }
{
    uadp_c::probes::uadp_put_probe(probe, list, out)
}
