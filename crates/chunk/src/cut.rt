// Cutting a payload into chunks.
ghost use Rattle.std.specs.Prelude.{◌≡◌, ◌+◌, ◌≤◌, ◌<◌, length};
ghost use Rattle.wire.specs.Refusal.{rule_number};
ghost use Rattle.wire_writer.specs.Store.{laid};
ghost use Rattle.chunk.specs.Cutting.{payload_bytes, cut_rule, CutWrote};

use wire::constants::MOST_TOTAL;
use wire::part::part;
use wire::refusal::Reason;
use wire_writer::store::{Store, put_run};

// Refuses a cut of a payload of total bytes by the first rule that it breaks.
#[tactic(auto, using(crate::proofs::CutLaws::past_yes, crate::proofs::CutLaws::past_no), unfolding(crate::specs::Cutting::cut_rule))]
fn cut_rule(total: usize, size: usize, k: usize) -> Result<(), Reason>
    ensures { rule_number result ≡ cut_rule total size k }
{
    if size == 0 {
        return Err(Reason::Disagree);
    }
    if total == 0 {
        return Err(Reason::Disagree);
    }
    if MOST_TOTAL < total {
        return Err(Reason::OverLimit);
    }
    if (total - 1) / size < k {
        return Err(Reason::OverLimit);
    }
    Ok(())
}

// Stores a chunk's payload from the buffer's start.
fn put_payload(out: &mut [u8], number: u16, offset: usize, total: usize, bytes: &[u8])
    requires { (offset < 65536) × (total < 65536) × (length bytes.now < 65536) × (14 + length bytes.now ≤ length out.old) }
    ensures { out.new ≡ laid out.old 0 (payload_bytes number offset total bytes.now) }
{
    number.put(out, 0);
    (offset as u32).put(out, 2);
    (total as u32).put(out, 6);
    (bytes.len() as u32).put(out, 10);
    put_run(out, 14, bytes);
}

// Writes the payload of chunk k, of chunks with so many bytes of data: data size 0 or payload empty 6, payload above 16,384 or k past the
// last 10, then 11.
pub fn cut(
    out: &mut [u8],
    payload: &[u8],
    number: u16,
    size: usize,
    k: usize,
) -> Result<usize, Reason>
    ensures { CutWrote payload.now number size k out.old out.new result }
{
    cut_rule(payload.len(), size, k)?;
    let offset = k * size;
    let bytes = part(payload, offset, size);
    let length = 14 + bytes.len();
    if out.len() < length {
        return Err(Reason::NoRoom);
    }
    put_payload(out, number, offset, payload.len(), bytes);
    Ok(length)
}
