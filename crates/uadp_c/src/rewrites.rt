// Datagrams and messages read and written again.
ghost use Rattle.std.specs.Prelude.{◌≡◌};
ghost use Rattle.wire.specs.Constants.{DISAGREE};
ghost use Rattle.wire.specs.Refusal.{rule_number};
ghost use Rattle.wire_writer.specs.Writing.{answer_written, buffer_after, or_else};
ghost use Rattle.records.specs.Result.{result_of};
ghost use Rattle.rewriting.specs.Same.{message_same, datagram_same};
ghost use Rattle.records.specs.Writers.{sizes_in, types_for};
ghost use Rattle.uadp_c.specs.Writing.{writer_result, output_result};

use crate::refusals::refused_for;
use config::first;
use records::result::result;
use records::writers::{sizes, types_for, writer_count};
use wire::refusal::Reason;

// How many bytes were written, or the number of the refusal, whose place is 0.
pub(crate) fn written_result(w: Result<usize, Reason>) -> u64
    ensures { result ≡ writer_result (answer_written w) }
{
    match w {
        Ok(n) => result(0, n),
        Err(reason) => refused_for(reason),
    }
}

// The result where a number of a record does not fit its item: the number of another refusal, or else 6.
pub(crate) fn not_fitting(rule: Result<(), Reason>) -> u64
    ensures { result ≡ result_of (or_else (rule_number rule) DISAGREE) 0 }
{
    match rule {
        Err(reason) => refused_for(reason),
        Ok(()) => refused_for(Reason::Disagree),
    }
}

// Writes an accepted datagram again.
#[unsafe(no_mangle)]
pub extern "C" fn uadp_rewrite(datagram: &[u8], config: &[u8], out: &mut [u8]) -> u64
    ensures { let same = datagram_same (sizes_in config.now) datagram.now in
        (result ≡ output_result out.old same) × (out.new ≡ buffer_after out.old same) }
{
    let n = writer_count(config);
    let list = sizes(config);
    let configured = first(&list, n);
    let written = rewriting::rewrite_datagram(out, datagram, configured);
    written_result(written)
}

// Writes an accepted, valid DataSetMessage again.
#[unsafe(no_mangle)]
pub extern "C" fn uadp_rewrite_message(
    message: &[u8],
    config: &[u8],
    writer: u32,
    out: &mut [u8],
) -> u64
    ensures { let same = message_same (types_for config.now writer) message.now in
        (result ≡ output_result out.old same) × (out.new ≡ buffer_after out.old same) }
{
    let types = types_for(config, writer);
    let written = rewriting::rewrite_message(out, message, types);
    written_result(written)
}
