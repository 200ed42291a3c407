// Reassembly: a partial is a lent record and two lent areas, payload and marks.
ghost use Rattle.std.specs.Prelude.{ℕ, ◌≡◌, List};
ghost use Rattle.uadp_c.specs.Reassembling.{lent, partial_of, progress_in};
ghost use Rattle.reassembly.specs.Operations.{progress_of};
ghost use Rattle.uadp_c.specs.History.{Called};
ghost use Rattle.uadp_c.specs.History.LentCall.{Empty, Take, Combine, Ask, HandOut};

// Empties a partial.
#[unsafe(no_mangle)]
pub extern "C" fn uadp_empty(rec: &mut [u8]) -> u64
    ensures { let before = rec.old in
        let after = rec.new in
        ((payload marks : List ℕ) → Called Empty (lent 0 before payload marks) (lent result after payload marks)) }
{
    uadp_c::reassembling::uadp_empty(rec)
}

// Takes a chunk in from a datagram.
#[unsafe(no_mangle)]
pub extern "C" fn uadp_take_in(
    rec: &mut [u8],
    payload: &mut [u8],
    marks: &mut [u8],
    datagram: &[u8],
    config: &[u8],
) -> u64
    ensures { let before = lent 0 rec.old payload.old marks.old in
        let after = lent result rec.new payload.new marks.new in
        Called (Take datagram.now config.now) before after }
{
    uadp_c::reassembling::uadp_take_in(rec, payload, marks, datagram, config)
}

// Combines another partial into this one; the other stays as it is.
#[unsafe(no_mangle)]
pub extern "C" fn uadp_combine(
    rec: &mut [u8],
    payload: &mut [u8],
    marks: &mut [u8],
    source: &[u8],
    source_payload: &[u8],
    source_marks: &[u8],
) -> u64
    ensures { let before = lent 0 rec.old payload.old marks.old in
        let after = lent result rec.new payload.new marks.new in
        Called (Combine source.now source_payload.now source_marks.now) before after }
{
    uadp_c::reassembling::uadp_combine(rec, payload, marks, source, source_payload, source_marks)
}

// Whether a partial is complete.
#[unsafe(no_mangle)]
pub extern "C" fn uadp_complete(rec: &[u8], payload: &[u8], marks: &[u8]) -> u64
    ensures { let before = lent 0 rec.now payload.now marks.now in
        let after = lent result rec.now payload.now marks.now in
        Called Ask before after }
{
    uadp_c::reassembling::uadp_complete(rec, payload, marks)
}

// How many bytes of a partial's message have come in.
#[unsafe(no_mangle)]
pub extern "C" fn uadp_progress(rec: &[u8], payload: &[u8], marks: &[u8]) -> u64
    ensures { let held = partial_of rec.now payload.now marks.now in
        result ≡ progress_in rec.now (progress_of held) }
{
    uadp_c::reassembling::uadp_progress(rec, payload, marks)
}

// How many bytes at the payload area's start are the complete payload.
#[unsafe(no_mangle)]
pub extern "C" fn uadp_hand_out(rec: &[u8], payload: &[u8], marks: &[u8]) -> u64
    ensures { let before = lent 0 rec.now payload.now marks.now in
        let after = lent result rec.now payload.now marks.now in
        Called HandOut before after }
{
    uadp_c::reassembling::uadp_hand_out(rec, payload, marks)
}
