// The payload: the list of sizes, and the messages.
ghost use Rattle.std.specs.Prelude.{◌≡◌, ◌++◌, ◌≤◌, length};
ghost use Rattle.network_message.specs.Payload.{payload_at};
ghost use Rattle.wire.specs.Refusal.{rule_number};
ghost use Rattle.wire_writer.specs.Writing.{Puts};
ghost use Rattle.network_message.specs.WriterPayload.{list_bytes, refusal_number, payload_refusal, lengths_shape, listed_refusal};

use crate::payload::{read_payload, tally_listed};
use network_header::header::PayloadHeader;
use network_header::numbers::{same_numbers, writers};
use wire::refusal::Reason;
use wire_writer::store::put_run;
use wire_writer::writing::agreement_rule;

// Refuses these bytes as reading them as a payload does.
fn payload_number(
    messages: &[u8],
    chunk: bool,
    x: PayloadHeader,
    sizes: &[u16],
) -> Result<(), Reason>
    ensures { rule_number result ≡ refusal_number (payload_at chunk x sizes.now messages.now 0) }
{
    match read_payload(messages, chunk, x, sizes, 0) {
        Ok(_) => Ok(()),
        Err(refusal) => Err(refusal.reason),
    }
}

// Refuses a payload of these lengths and messages as reading does.
pub(crate) fn payload_refusal(
    chunk: bool,
    x: PayloadHeader,
    sizes: &[u16],
    lengths: &[u8],
    messages: &[u8],
) -> Result<(), Reason>
    ensures { rule_number result ≡ payload_refusal chunk x sizes.now lengths.now messages.now }
{
    match x {
        PayloadHeader::Absent => payload_number(messages, chunk, x, sizes),
        PayloadHeader::Ids(n) => {
            if chunk {
                return Ok(());
            }
            if n <= 1 {
                return payload_number(messages, false, PayloadHeader::Ids(1), sizes);
            }
            listed_refusal(n, lengths, messages.len())
        }
        PayloadHeader::Chunk(_) => Ok(()),
        PayloadHeader::Probe => payload_number(messages, chunk, x, sizes),
    }
}

// Refuses lengths that would read back otherwise.
pub(crate) fn lengths_shape(x: PayloadHeader, lengths: &[u8], sizes: &[u16]) -> Result<(), Reason>
    ensures { rule_number result ≡ lengths_shape x lengths.now sizes.now }
{
    match x {
        PayloadHeader::Absent => {
            if writers(sizes) <= 1 {
                return agreement_rule(lengths.len() == 0);
            }
            agreement_rule(same_numbers(lengths, sizes))
        }
        PayloadHeader::Ids(n) if 1 < n => Ok(()),
        _ => agreement_rule(lengths.len() == 0),
    }
}

// How many bytes the list of sizes takes.
pub(crate) fn list_size(x: PayloadHeader, lengths: &[u8]) -> usize
    ensures { (result ≡ length (list_bytes x lengths.now)) × (result ≤ length lengths.now) }
{
    match x {
        PayloadHeader::Ids(n) if 1 < n => lengths.len(),
        _ => 0,
    }
}

fn put_list(out: &mut [u8], at: usize, x: PayloadHeader, lengths: &[u8]) -> usize
    ensures { Puts (list_bytes x lengths.now) out.old at out.new result }
{
    match x {
        PayloadHeader::Ids(n) if 1 < n => put_run(out, at, lengths),
        _ => at,
    }
}

// Stores the list of sizes and the messages, and answers the position after them.
pub(crate) fn put_payload(
    out: &mut [u8],
    at: usize,
    x: PayloadHeader,
    lengths: &[u8],
    messages: &[u8],
) -> usize
    ensures { Puts (list_bytes x lengths.now ++ messages.now) out.old at out.new result }
{
    let first = put_list(out, at, x, lengths);
    put_run(out, first, messages)
}

// Refuses lengths that are not those of n messages of so many bytes.
fn listed_refusal(n: u16, lengths: &[u8], rest: usize) -> Result<(), Reason>
    ensures { rule_number result ≡ listed_refusal n lengths.now rest }
{
    let count = n as usize;
    if lengths.len() != 2 * count {
        return Err(Reason::Disagree);
    }
    let tally = tally_listed(lengths, n);
    if !tally.positive {
        return Err(Reason::Disagree);
    }
    agreement_rule(tally.total == rest)
}
