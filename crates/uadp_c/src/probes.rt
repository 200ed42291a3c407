// A probe read, its ids and strings one after the other, and a probe's body written.
ghost use Rattle.std.specs.Prelude.{◌≡◌};
ghost use Rattle.wire_writer.specs.Writing.{buffer_after};
ghost use Rattle.probe.specs.Items.{answer_item_step};
ghost use Rattle.uadp_c.specs.Writing.{output_result};
ghost use Rattle.uadp_c.specs.Probes.{ProbeRead, item_step, item_result, probe_after, item_after, probe_put};

use crate::refusals::{refused, refused_for};
use crate::rewrites::{not_fitting, written_result};
use config::first;
use envelope_record::probe_record::{
    cursor_in, probe_fits, probe_in, put_cursor, put_item, put_probe, type_rule,
};
use network_message::probe_message::read_probe;
use probe::items::{ProbeCursor, ProbeItem};
use records::result::result;
use records::sizes::{ITEM_SIZE, PROBE_SIZE};
use records::writers::{sizes, writer_count};
use wire::refusal::{Reason, Refusal};

// Reads a probe's datagram into a probe record, whose cursor stands before the first id or string.
#[unsafe(no_mangle)]
pub extern "C" fn uadp_probe(datagram: &[u8], config: &[u8], probe: &mut [u8]) -> u64
    ensures { let read = ProbeRead datagram.now config.now in
        read probe.old result probe.new }
{
    let n = writer_count(config);
    let list = sizes(config);
    match read_probe(datagram, first(&list, n)) {
        Err(refusal) => refused(refusal),
        Ok((_, places, p)) => {
            if probe.len() < PROBE_SIZE {
                return refused_for(Reason::NoRoom);
            }
            put_probe(probe, p, places.payload);
            result(0, places.payload)
        }
    }
}

fn step(datagram: &[u8], probe: &[u8]) -> Result<(ProbeItem, ProbeCursor), Refusal>
    ensures { answer_item_step result ≡ item_step probe.now datagram.now }
{
    let p = probe_in(probe);
    let cursor = cursor_in(probe);
    cursor.step(datagram, p)
}

// The id or string that a probe record's cursor stands before, as an item record; the cursor then stands before the next one.
#[unsafe(no_mangle)]
pub extern "C" fn uadp_next_probe_item(datagram: &[u8], probe: &mut [u8], item: &mut [u8]) -> u64
    ensures { let step = item_step probe.old datagram.now in
        (result ≡ item_result step probe.old item.old)
        × (probe.new ≡ probe_after step probe.old item.old)
        × (item.new ≡ item_after step probe.old item.old) }
{
    match step(datagram, probe) {
        Err(refusal) => refused(refusal),
        Ok((x, next)) => {
            if probe.len() < PROBE_SIZE {
                return refused_for(Reason::NoRoom);
            }
            if item.len() < ITEM_SIZE {
                return refused_for(Reason::NoRoom);
            }
            put_cursor(probe, next);
            put_item(item, x);
            result(0, x.index)
        }
    }
}

// Writes a probe's body from a probe record and the bytes of its ids or strings, as they are to stand. A number of the record that does
// not fit its item is 6, after reading's numbers.
#[unsafe(no_mangle)]
pub extern "C" fn uadp_put_probe(probe: &[u8], list: &[u8], out: &mut [u8]) -> u64
    ensures { let output = probe_put probe.now list.now in
        (result ≡ output_result out.old output) × (out.new ≡ buffer_after out.old output) }
{
    if let Err(reason) = type_rule(probe) {
        return refused_for(reason);
    }
    let p = probe_in(probe);
    if !probe_fits(probe) {
        return not_fitting(probe::put::refusal(p, list));
    }
    written_result(probe::put::write(out, p, list))
}
