// Reassembly: a partial is a lent record and two lent areas, payload and marks.
ghost use Rattle.std.specs.Prelude.{ℕ, ◌≤◌, ◌≡◌, List, true, length};
ghost use Rattle.uadp_c.specs.Reassembling.{lent, Steps, taken_over, partial_of, progress_in};
ghost use Rattle.partial_record.specs.Partial.{partial_in};
ghost use Rattle.records.specs.Sizes.{PARTIAL_SIZE};
ghost use Rattle.reassembly.specs.Operations.{take_in, progress_of};
ghost use Rattle.reassembly.specs.Reading.{reading_at};
ghost use Rattle.uadp_c.specs.History.{Called};
ghost use Rattle.uadp_c.specs.History.LentCall.{Empty, Take, Combine, Ask, HandOut};

use crate::refusals::{refused, refused_for};
use config::first;
use partial_record::{COVERED, asked_in, partial_in, put_partial, started_in, text_in};
use reassembly::quick::take_more;
use reassembly::{PartialRecord, ask_complete, combine_in, hand_out_verdict, progress, take_in};
use records::numbers::number;
use records::result::result;
use records::sizes::PARTIAL_SIZE;
use records::writers::{sizes, writer_count};
use wire::refusal::Reason;
use wire_writer::store::Store;

// Empties a partial.
#[unsafe(no_mangle)]
pub extern "C" fn uadp_empty(rec: &mut [u8]) -> u64
    ensures { let before = rec.old in
        let after = rec.new in
        ((payload marks : List ℕ) → Called Empty (lent 0 before payload marks) (lent result after payload marks)) }
{
    0u64.put(rec, 0);
    result(0, 0)
}

// Stores the record where a partial not started took it over, and of a started one its number of covered bytes; no other byte changes.
fn keep_record(rec: &mut [u8], after: PartialRecord)
    ensures { rec.new ≡ taken_over rec.old after }
{
    if number(rec, 0) == 1 {
        (after.covered as u64).put(rec, 8 * COVERED);
        return;
    }
    if !after.started {
        return;
    }
    put_partial(rec, after);
}

// Takes a chunk into a started partial: of its record only the number of covered bytes changes.
fn take_further(
    rec: &mut [u8],
    payload: &mut [u8],
    marks: &mut [u8],
    datagram: &[u8],
    sizes: &[u16],
) -> u64
    requires { (PARTIAL_SIZE ≤ length rec.old) × ((partial_in rec.old).started ≡ true) }
    ensures { let held = partial_of rec.old payload.old marks.old in
        let step = take_in held (reading_at sizes.now datagram.now) in
        let after = lent result rec.new payload.new marks.new in
        Steps rec.old payload.old marks.old step after }
{
    match take_more(
        started_in(rec),
        text_in(rec),
        payload,
        marks,
        datagram,
        sizes,
    ) {
        Err(refusal) => refused(refusal),
        Ok(covered) => {
            (covered as u64).put(rec, 8 * COVERED);
            result(0, 0)
        }
    }
}

// Takes a chunk into a partial that is not started: its record is handed on by value, and stored where the chunk is accepted.
fn take_first(
    rec: &mut [u8],
    payload: &mut [u8],
    marks: &mut [u8],
    datagram: &[u8],
    sizes: &[u16],
) -> u64
    requires { PARTIAL_SIZE ≤ length rec.old }
    ensures { let held = partial_of rec.old payload.old marks.old in
        let step = take_in held (reading_at sizes.now datagram.now) in
        let after = lent result rec.new payload.new marks.new in
        Steps rec.old payload.old marks.old step after }
{
    let taken = take_in(partial_in(rec), payload, marks, datagram, sizes);
    match taken.verdict {
        Err(refusal) => refused(refusal),
        Ok(()) => {
            keep_record(rec, taken.rec);
            result(0, 0)
        }
    }
}

// Takes a chunk in from a datagram.
#[unsafe(no_mangle)]
pub extern "C" fn uadp_take_in(
    rec: &mut [u8],
    payload: &mut [u8],
    marks: &mut [u8],
    datagram: &[u8],
    config: &[u8],
) -> u64
    ensures { let before = lent 0 rec.old payload.old marks.old in
        let after = lent result rec.new payload.new marks.new in
        Called (Take datagram.now config.now) before after }
{
    if rec.len() < PARTIAL_SIZE {
        return refused_for(Reason::Unsound);
    }
    let n = writer_count(config);
    let list = sizes(config);
    if number(rec, 0) != 1 {
        return take_first(rec, payload, marks, datagram, first(&list, n));
    }
    take_further(rec, payload, marks, datagram, first(&list, n))
}

// Combines another partial into this one; the other stays as it is.
#[unsafe(no_mangle)]
pub extern "C" fn uadp_combine(
    rec: &mut [u8],
    payload: &mut [u8],
    marks: &mut [u8],
    source: &[u8],
    source_payload: &[u8],
    source_marks: &[u8],
) -> u64
    ensures { let before = lent 0 rec.old payload.old marks.old in
        let after = lent result rec.new payload.new marks.new in
        Called (Combine source.now source_payload.now source_marks.now) before after }
{
    if source.len() < PARTIAL_SIZE {
        return refused_for(Reason::Unsound);
    }
    if rec.len() < PARTIAL_SIZE {
        return refused_for(Reason::Unsound);
    }
    let joined = combine_in(
        partial_in(rec),
        payload,
        marks,
        partial_in(source),
        source_payload,
        source_marks,
    );
    match joined.verdict {
        Err(refusal) => refused(refusal),
        Ok(()) => {
            keep_record(rec, joined.rec);
            result(0, 0)
        }
    }
}

// Whether a partial is complete.
#[unsafe(no_mangle)]
pub extern "C" fn uadp_complete(rec: &[u8], payload: &[u8], marks: &[u8]) -> u64
    ensures { let before = lent 0 rec.now payload.now marks.now in
        let after = lent result rec.now payload.now marks.now in
        Called Ask before after }
{
    if rec.len() < PARTIAL_SIZE {
        return refused_for(Reason::Unsound);
    }
    match ask_complete(asked_in(rec), payload, marks) {
        Err(refusal) => refused(refusal),
        Ok(true) => result(0, 1),
        Ok(false) => result(0, 0),
    }
}

// How many bytes of a partial's message have come in.
#[unsafe(no_mangle)]
pub extern "C" fn uadp_progress(rec: &[u8], payload: &[u8], marks: &[u8]) -> u64
    ensures { let held = partial_of rec.now payload.now marks.now in
        result ≡ progress_in rec.now (progress_of held) }
{
    if rec.len() < PARTIAL_SIZE {
        return refused_for(Reason::Unsound);
    }
    match progress(asked_in(rec), payload, marks) {
        Err(refusal) => refused(refusal),
        Ok((covered, _)) => result(0, covered),
    }
}

// How many bytes at the payload area's start are the complete payload.
#[unsafe(no_mangle)]
pub extern "C" fn uadp_hand_out(rec: &[u8], payload: &[u8], marks: &[u8]) -> u64
    ensures { let before = lent 0 rec.now payload.now marks.now in
        let after = lent result rec.now payload.now marks.now in
        Called HandOut before after }
{
    if rec.len() < PARTIAL_SIZE {
        return refused_for(Reason::Unsound);
    }
    let held = asked_in(rec);
    match hand_out_verdict(held, payload, marks) {
        Err(refusal) => refused(refusal),
        Ok(()) => result(0, held.message.total),
    }
}
