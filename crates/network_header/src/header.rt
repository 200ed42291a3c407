// DataSetClassId, PayloadHeader and promoted fields.
ghost use Rattle.std.specs.Prelude.{◌≡◌, cond, ◌+◌, ◌≤◌, eqb, leb, length};
ghost use Rattle.network_header.specs.Header.{class_at, payload_header_at, ids_at, promoted_at, count_rule, payload_header_on, probe_on, payload_header_bytes, promoted_bytes, count_refusal, promoted_refusal, count_shape, ids_shape, promoted_shape};
ghost use Rattle.wire_writer.specs.Store.{Stored};
ghost use Rattle.wire.specs.Constants.{DISAGREE};
ghost use Rattle.wire.specs.Refusal.{answer, rule_number};

use crate::numbers::same_numbers;
use wire::item::Item;
use wire::optional::read_optional;
use wire::refusal::{Read, Reason};
use wire::{Guid, has};
use wire_writer::store::{Store, put_run};
use wire_writer::writing::agreement_rule;

// The PayloadHeader: how many DataSetWriterIds it has, at most 255 in a datagram, or a chunk's DataSetWriterId. The ids end where the
// part ends. A probe has none, and its payload is a probe.
#[derive(Clone, Copy, PartialEq, Eq, Debug)]
pub enum PayloadHeader {
    Absent,
    Ids(u16),
    Chunk(u16),
    Probe,
}

// Reads the DataSetClassId, where the flags announce one.
pub fn read_class_id(s: &[u8], on: bool, at: usize) -> Read<Option<Guid>>
    ensures { answer result ≡ class_at on s.now at }
{
    read_optional(s, on, at)
}

// Refuses a Count of 0.
fn count_rule(n: u16) -> Result<(), Reason>
    ensures { rule_number result ≡ count_rule n }
{
    if n == 0 {
        return Err(Reason::Disagree);
    }
    Ok(())
}

fn ids(s: &[u8], at: usize) -> Read<PayloadHeader>
    ensures { answer result ≡ ids_at s.now at }
{
    let (count, start) = u8::read(s, at)?;
    count_rule(count as u16).map_err(|reason| reason.at(at))?;
    let next = wire::skip(s, start, 2 * (count as usize))?;
    Ok((PayloadHeader::Ids(count as u16), next))
}

// Reads the PayloadHeader, where the flags announce one; a chunk has one writer id, a probe none.
pub fn read_payload_header(
    s: &[u8],
    on: bool,
    chunk: bool,
    probe: bool,
    at: usize,
) -> Read<PayloadHeader>
    ensures { answer result ≡ payload_header_at on chunk probe s.now at }
{
    if probe {
        return Ok((PayloadHeader::Probe, at));
    }
    if !on {
        return Ok((PayloadHeader::Absent, at));
    }
    if !chunk {
        return ids(s, at);
    }
    let (writer, next) = u16::read(s, at)?;
    Ok((PayloadHeader::Chunk(writer), next))
}

// The size of the promoted fields of a datagram with so many messages, and the position after them.
pub fn read_promoted(s: &[u8], on: bool, messages: usize, at: usize) -> Read<Option<usize>>
    ensures { answer result ≡ promoted_at on messages s.now at }
{
    if !on {
        return Ok((None, at));
    }
    let (size, start) = u16::read(s, at)?;
    if messages != 1 {
        return Err(Reason::Disagree.at(at));
    }
    let next = wire::skip(s, start, size as usize)?;
    Ok((Some(size as usize), next))
}

// Whether there is a PayloadHeader.
pub(crate) fn payload_header_on(x: PayloadHeader) -> bool
    ensures { result ≡ payload_header_on x }
{
    matches!(x, PayloadHeader::Ids(_) | PayloadHeader::Chunk(_))
}

// Whether the payload is a probe.
pub fn probe_on(x: PayloadHeader) -> bool
    ensures { result ≡ probe_on x }
{
    matches!(x, PayloadHeader::Probe)
}

// How many bytes a PayloadHeader with these ids takes.
pub fn payload_header_size(x: PayloadHeader, ids: &[u8]) -> usize
    ensures { (result ≡ length (payload_header_bytes ids.now x)) × (result ≤ length ids.now + 2) }
{
    match x {
        PayloadHeader::Ids(_) => 1 + ids.len(),
        PayloadHeader::Chunk(_) => 2,
        _ => 0,
    }
}

// Stores a PayloadHeader with these ids, all or nothing: answers the position after it, or `at` where it does not fit.
pub fn put_payload_header(out: &mut [u8], at: usize, x: PayloadHeader, ids: &[u8]) -> usize
    ensures { Stored (payload_header_bytes ids.now x) out.old at out.new result }
{
    match x {
        PayloadHeader::Ids(n) => {
            if !has(out.len(), at, 1 + ids.len()) {
                return at;
            }
            let start = ((n % 256) as u8).put(out, at);
            put_run(out, start, ids)
        }
        PayloadHeader::Chunk(w) => w.put(out, at),
        _ => at,
    }
}

// How many bytes promoted fields take, with their size.
pub fn promoted_size(x: Option<usize>, bytes: &[u8]) -> usize
    ensures { (result ≡ length (promoted_bytes bytes.now x)) × (result ≤ length bytes.now + 2) }
{
    match x {
        None => 0,
        Some(_) => 2 + bytes.len(),
    }
}

// Stores promoted fields with their size, all or nothing: answers the position after them, or `at` where they do not fit.
pub fn put_promoted(out: &mut [u8], at: usize, x: Option<usize>, bytes: &[u8]) -> usize
    ensures { Stored (promoted_bytes bytes.now x) out.old at out.new result }
{
    match x {
        None => at,
        Some(_) => {
            let n = bytes.len();
            if !has(out.len(), at, 2 + n) {
                return at;
            }
            let start = ((n % 65536) as u16).put(out, at);
            put_run(out, start, bytes)
        }
    }
}

// Refuses a PayloadHeader as reading does.
pub fn count_refusal(x: PayloadHeader) -> Result<(), Reason>
    ensures { rule_number result ≡ count_refusal x }
{
    match x {
        PayloadHeader::Ids(n) => count_rule(n),
        _ => Ok(()),
    }
}

// Refuses promoted fields of so many messages as reading does.
pub fn promoted_refusal(x: Option<usize>, messages: usize) -> Result<(), Reason>
    ensures { rule_number result ≡ promoted_refusal x messages }
{
    match x {
        None => Ok(()),
        Some(_) => agreement_rule(messages == 1),
    }
}

// A Count that its byte can hold, and as many ids.
fn count_shape(n: u16, len: usize) -> Result<(), Reason>
    ensures { rule_number result ≡ count_shape n len }
{
    if 256 <= n {
        return Err(Reason::Disagree);
    }
    agreement_rule(len == 2 * (n as usize))
}

// Refuses ids that would read back otherwise: with a PayloadHeader as many as its Count, which is at most 255, without one the
// configured ones, for a probe none.
pub fn ids_shape(
    chunk: bool,
    x: PayloadHeader,
    ids: &[u8],
    configured: &[u16],
) -> Result<(), Reason>
    ensures { rule_number result ≡ ids_shape chunk x ids.now configured.now }
{
    match x {
        PayloadHeader::Absent => agreement_rule(same_numbers(ids, configured)),
        PayloadHeader::Ids(n) => {
            if chunk {
                return Err(Reason::Disagree);
            }
            count_shape(n, ids.len())
        }
        PayloadHeader::Chunk(_) => {
            if chunk {
                return agreement_rule(ids.len() == 0);
            }
            Err(Reason::Disagree)
        }
        PayloadHeader::Probe => agreement_rule(ids.len() == 0),
    }
}

// A size of promoted fields that its 2 bytes can hold, and as many bytes.
fn size_shape(n: usize, len: usize) -> Result<(), Reason>
    ensures { rule_number result ≡ cond (leb 65536 n) DISAGREE (cond (eqb n len) 0 DISAGREE) }
{
    if 65536 <= n {
        return Err(Reason::Disagree);
    }
    agreement_rule(n == len)
}

// Refuses promoted fields of this length where they would read back otherwise.
pub fn promoted_shape(x: Option<usize>, len: usize) -> Result<(), Reason>
    ensures { rule_number result ≡ promoted_shape x len }
{
    match x {
        None => agreement_rule(len == 0),
        Some(n) => size_shape(n, len),
    }
}
