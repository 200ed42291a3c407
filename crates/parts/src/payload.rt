// What handing out answers, with the complete payload: that part of the lent area.
ghost use Rattle.std.specs.Prelude.{◌≡◌};
ghost use Rattle.reassembly.specs.Record.{partial};
ghost use Rattle.reassembly.specs.Operations.{judge_hand_out, hand_out};
ghost use Rattle.parts.specs.Part.{located, part_lent, part_at, payload_located};

use crate::part::Span;
use reassembly::{PartialRecord, hand_out_verdict};
use wire::refusal::Refusal;

// Where the complete payload of a partial stands: at the area's start.
pub fn locate(rec: PartialRecord, payload: &[u8], marks: &[u8]) -> Result<Span, Refusal>
    ensures { let before = partial rec payload.now marks.now in
        located result ≡ payload_located rec.message.total (judge_hand_out before) }
{
    hand_out_verdict(rec, payload, marks)?;
    Ok(Span {
        offset: 0,
        length: rec.message.total,
    })
}

// The complete payload of a partial.
pub fn lent_part<'a>(
    rec: PartialRecord,
    payload: &'a [u8],
    marks: &[u8],
) -> Result<&'a [u8], Refusal>
    ensures { let before = partial rec payload.now marks.now in
        part_lent result ≡ part_at (payload_located rec.message.total (judge_hand_out before)) (hand_out before) }
{
    Ok(locate(rec, payload, marks)?.of(payload))
}
