// The five operations on a partial. Every refusal leaves the record and both areas as they were.
ghost use Rattle.std.specs.Prelude.{◌≡◌, true, length, ℕ, ◌+◌, ◌<◌, ◌^◌, List};
ghost use Rattle.reassembly.specs.Record.{partial, sound};
ghost use Rattle.reassembly.specs.Reading.{GoodChunk, chunk_message, reading_at};
ghost use Rattle.reassembly.specs.Reading.Reading.{chunk};
ghost use Rattle.reassembly.specs.Verdict.{verdict_told, completeness_told, progress_told};
ghost use Rattle.reassembly.specs.Operations.{step_of, outcome_of, begun, begun_marks, with_new, take_in, combine, hand_out, progress_of};
ghost use Rattle.reassembly.specs.Machine.{reply_of, handed_of};
ghost use Rattle.reassembly.specs.Machine.Call.{Empty, Take, Combine, Ask, HandOut};
ghost use Rattle.reassembly.specs.Machine.Reply.{done};
ghost use Rattle.reassembly.specs.Calls.{Does, said_of, answers};

use crate::areas::{Areas, store_covered, store_data};
use crate::judge::{judge_chunk, judge_combine};
use crate::record::{Message, MessageOrigin, PartialRecord, is_sound};
use chunk::datagram::ChunkPlace;
use marks::{clear, count_marked, mark_marked, mark_range};
use publisher_id::publisher_record::publisher_record;
use wire::part::part;
use wire::refusal::{Reason, Refusal};

// An answer, and the record afterwards.
#[derive(Clone, Copy)]
pub struct Outcome {
    pub verdict: Result<(), Refusal>,
    pub rec: PartialRecord,
}

// The outcome of a call on a partial: the record that it made, or a refusal, which leaves the record.
fn outcome_of(rec: PartialRecord, made: Result<PartialRecord, Refusal>) -> Outcome
    ensures { result ≡ outcome_of rec made }
{
    match made {
        Ok(made) => Outcome {
            verdict: Ok(()),
            rec: made,
        },
        Err(refusal) => Outcome {
            verdict: Err(refusal),
            rec,
        },
    }
}

// A partial not started takes over the message, nothing of it covered, and every mark is cleared; a started one stays as it is.
fn begin(rec: PartialRecord, marks: &mut [u8], message: Message) -> PartialRecord
    ensures { (result ≡ begun rec message) × (marks.new ≡ begun_marks rec marks.old) }
{
    if rec.started {
        return rec;
    }
    clear(marks);
    PartialRecord {
        started: true,
        message,
        covered: 0,
    }
}

// A record with so many bytes more covered.
fn with_new(rec: PartialRecord, fresh: usize) -> PartialRecord
    requires { rec.covered + fresh < 2 ^ 64 }
    ensures { result ≡ with_new rec fresh }
{
    PartialRecord {
        covered: rec.covered + fresh,
        ..rec
    }
}

// Takes in the data of a chunk without a fault of its own, in a sound partial: 11, 13, 14.
fn take_chunk(
    rec: PartialRecord,
    payload: &mut [u8],
    marks: &mut [u8],
    m: Message,
    offset: usize,
    bytes: &[u8],
) -> Result<PartialRecord, Refusal>
    requires { (sound (partial rec payload.old marks.old) ≡ true) × GoodChunk m offset (length bytes.now) }
    ensures { let before = partial rec payload.old marks.old in
        step_of (outcome_of rec result) payload.new marks.new ≡ take_in before (chunk m offset bytes.now) }
{
    judge_chunk(rec, payload, marks, m, offset, bytes)?;
    let end = offset + bytes.len();
    let next = begin(rec, marks, m);
    store_data(payload, offset, bytes);
    let fresh = mark_range(marks, offset, end);
    Ok(with_new(next, fresh))
}

// The record of a chunk's message.
fn message_of(s: &[u8], c: ChunkPlace) -> Message
    ensures { result ≡ chunk_message c s.now }
{
    let origin = MessageOrigin {
        publisher: publisher_record(s, c.publisher, c.publisher_end),
        group: c.group,
        writer: c.writer,
        number: c.payload.number,
    };
    Message {
        origin,
        total: c.payload.total,
    }
}

// Takes a chunk in from a datagram: the record afterwards, or 12, the chunk's own numbers, 11, 13, 14.
fn taken(
    rec: PartialRecord,
    payload: &mut [u8],
    marks: &mut [u8],
    datagram: &[u8],
    sizes: &[u16],
) -> Result<PartialRecord, Refusal>
    ensures { let before = partial rec payload.old marks.old in
        step_of (outcome_of rec result) payload.new marks.new ≡ take_in before (reading_at sizes.now datagram.now) }
{
    if !is_sound(rec, payload.len(), marks.len()) {
        return Err(Reason::Unsound.at(0));
    }
    let (c, _) = chunk::datagram::read(&*datagram, &*sizes)?;
    let bytes = part(datagram, c.payload.first, c.payload.length);
    let message = message_of(datagram, c);
    take_chunk(rec, payload, marks, message, c.payload.offset, bytes)
}

// Takes a chunk in from a datagram: 12, the chunk's own numbers, 11, 13, 14.
pub fn take_in(
    rec: PartialRecord,
    payload: &mut [u8],
    marks: &mut [u8],
    datagram: &[u8],
    sizes: &[u16],
) -> Outcome
    ensures { let before = partial rec payload.old marks.old in
        let after = partial result.rec payload.new marks.new in
        Does (Take datagram.now sizes.now) before (reply_of (verdict_told result.verdict)) after }
{
    let made = taken(rec, payload, marks, datagram, sizes);
    outcome_of(rec, made)
}

// Combines another partial into this one: the record afterwards, or 12 for either, 11, 13, 14.
fn combined(
    rec: PartialRecord,
    payload: &mut [u8],
    marks: &mut [u8],
    source: PartialRecord,
    from: &[u8],
    from_marks: &[u8],
) -> Result<PartialRecord, Refusal>
    ensures { let before = partial rec payload.old marks.old in
        step_of (outcome_of rec result) payload.new marks.new ≡ combine before (partial source «from».now from_marks.now) }
{
    judge_combine(rec, payload, marks, source, from, from_marks)?;
    if !source.started {
        return Ok(rec);
    }
    let m = source.message;
    let next = begin(rec, marks, m);
    let other = Areas {
        payload: from,
        marks: from_marks,
    };
    store_covered(payload, m.total, other);
    let fresh = mark_marked(marks, m.total, from_marks);
    Ok(with_new(next, fresh))
}

// Combines another partial into this one: 12 for either, 11, 13, 14. The source stays as it is.
pub fn combine_in(
    rec: PartialRecord,
    payload: &mut [u8],
    marks: &mut [u8],
    source: PartialRecord,
    from: &[u8],
    from_marks: &[u8],
) -> Outcome
    ensures { let before = partial rec payload.old marks.old in
        let after = partial result.rec payload.new marks.new in
        Does (Combine (partial source «from».now from_marks.now)) before (reply_of (verdict_told result.verdict)) after }
{
    let made = combined(rec, payload, marks, source, from, from_marks);
    outcome_of(rec, made)
}

// Empties a partial: not started, and no area changes. Never refused.
pub fn empty(rec: PartialRecord) -> PartialRecord
    ensures { (payload marks : List ℕ) → Does Empty (partial rec payload marks) done (partial result payload marks) }
{
    PartialRecord {
        started: false,
        ..rec
    }
}

// Whether a partial is complete, by its number of covered bytes: yes, no, or 12.
pub fn ask_complete(rec: PartialRecord, payload: &[u8], marks: &[u8]) -> Result<bool, Refusal>
    ensures { said_of (completeness_told result) ≡ answers Ask (partial rec payload.now marks.now) }
{
    if !is_sound(rec, payload.len(), marks.len()) {
        return Err(Reason::Unsound.at(0));
    }
    Ok(rec.started && rec.covered == rec.message.total)
}

// How far a partial is, for a progress bar: covered and total bytes of a started one, 0 and 0 of one not started; or 12.
pub fn progress(rec: PartialRecord, payload: &[u8], marks: &[u8]) -> Result<(usize, usize), Refusal>
    ensures { progress_told result ≡ progress_of (partial rec payload.now marks.now) }
{
    if !is_sound(rec, payload.len(), marks.len()) {
        return Err(Reason::Unsound.at(0));
    }
    if !rec.started {
        return Ok((0, 0));
    }
    Ok((rec.covered, rec.message.total))
}

// What handing out answers: 12, 12 where the number is not that of the marks, 15, or done.
pub fn hand_out_verdict(rec: PartialRecord, payload: &[u8], marks: &[u8]) -> Result<(), Refusal>
    ensures { let before = partial rec payload.now marks.now in
        handed_of (verdict_told result) (hand_out before) ≡ answers HandOut before }
{
    if !is_sound(rec, payload.len(), marks.len()) {
        return Err(Reason::Unsound.at(0));
    }
    if !rec.started {
        return Err(Reason::NotComplete.at(0));
    }
    if count_marked(marks, rec.message.total) != rec.covered {
        return Err(Reason::Unsound.at(0));
    }
    if rec.covered != rec.message.total {
        return Err(Reason::NotComplete.at(0));
    }
    Ok(())
}

// The complete payload, as a part of the lent area; nothing where `hand_out_verdict` refuses.
pub fn hand_out<'a>(rec: PartialRecord, payload: &'a [u8], marks: &[u8]) -> &'a [u8]
    ensures { result.now ≡ hand_out (partial rec payload.now marks.now) }
{
    if hand_out_verdict(rec, payload, marks).is_err() {
        return &payload[..0];
    }
    &payload[..rec.message.total]
}
