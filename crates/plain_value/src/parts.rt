// A DataValue's parts after its Variant.
ghost use Rattle.std.specs.Prelude.{◌≡◌};
ghost use Rattle.wire.specs.Answer.{when_on};
ghost use Rattle.wire.specs.Refusal.{answer_to};
ghost use Rattle.plain_value.specs.Plain.{bytes};
ghost use Rattle.plain_value.specs.Parts.{parts, parts_width};

use crate::plain::bytes_at;
use wire::has;
use wire::refusal::Refusal;

// A part of w bytes, where the mask's bit is on.
fn part_if(s: &[u8], on: bool, at: usize, w: usize) -> Result<usize, Refusal>
    ensures { answer_to tt result ≡ when_on on tt (bytes w) s.now at }
{
    if !on {
        return Ok(at);
    }
    bytes_at(s, at, w)
}

// A DataValue's parts after its Variant, in wire order, up to the first that does not fit.
#[tactic(auto, unfolding(crate::specs::Parts::parts))]
fn parts_in_order(s: &[u8], at: usize, m: u8) -> Result<usize, Refusal>
    ensures { answer_to tt result ≡ parts m s.now at }
{
    let status_end = part_if(s, (m >> 1) % 2 == 1, at, 4)?;
    let source_end = part_if(s, (m >> 2) % 2 == 1, status_end, 8)?;
    let source_picoseconds_end = part_if(s, (m >> 4) % 2 == 1, source_end, 2)?;
    let server_end = part_if(s, (m >> 3) % 2 == 1, source_picoseconds_end, 8)?;
    part_if(s, (m >> 5) % 2 == 1, server_end, 2)
}

// How many bytes a DataValue's parts after its Variant have together.
pub fn parts_width(m: u8) -> usize
    ensures { result ≡ parts_width m }
{
    let bits = m as usize;
    ((bits >> 1) % 4 * 4 + (bits >> 3) % 2 * 8) + ((bits >> 4) % 2 * 2 + (bits >> 5) % 2 * 2)
}

// A DataValue's parts after its Variant. Most have none, or all fit, and then only their width counts.
#[tactic(auto, using(crate::proofs::PartLaws::no_parts, crate::proofs::PartLaws::parts_fit))]
pub fn parts_at(s: &[u8], at: usize, m: u8) -> Result<usize, Refusal>
    ensures { answer_to tt result ≡ parts m s.now at }
{
    if m < 2 {
        return Ok(at);
    }
    let w = parts_width(m);
    if has(s.len(), at, w) {
        return Ok(at + w);
    }
    parts_in_order(&*s, at, m)
}
