// A further chunk taken in, quickly. The record of a started partial comes without its publisher's text, which stays lent: it is looked at
// where both publishers are strings, and nothing of the record is handed back but its number of covered bytes. Where no offset of the chunk
// is marked, as in most chunks, its marks are looked at once. The law is the contract of `take_more`: what it answers and leaves is what
// `operations::take_in` answers and leaves. Worth: three tenths of taking in a chunk of 1,024 bytes.
ghost use Rattle.std.specs.Prelude.{◌≡◌, Some, None, Ok, Err, true, cond, ◌+◌, ◌≤◌, length, take, drop, replicate};
ghost use Rattle.wire.specs.Constants.{MOST_TEXT_ID};
ghost use Rattle.marks.specs.Marks.{in_use, marks_for, mark_all, new_marks};
ghost use Rattle.marks.specs.Offsets.{in_range};
ghost use Rattle.reassembly.specs.Areas.{marked_view};
ghost use Rattle.reassembly.specs.Views.{data_view, overlaid, clash};
ghost use Rattle.reassembly.specs.Record.{identity_of, same_message, partial, sound};
ghost use Rattle.reassembly.specs.Reading.{GoodChunk, chunk_message, reading_at};
ghost use Rattle.reassembly.specs.Reading.Reading.{chunk};
ghost use Rattle.reassembly.specs.Operations.{step_of, take_in};
ghost use Rattle.reassembly.specs.Quick.{record_with, held_record, more_of};
ghost use Rattle.reassembly.specs.Verdict.{at_zero};
ghost use Rattle.wire.specs.declared.refusal.Reason.{Reason};

use crate::areas::{Areas, clash_data, store_data};
use crate::record::{Message, MessageOrigin, PartialRecord, is_sound, same_group};
use chunk::datagram::ChunkPlace;
use marks::{mark_if_none, mark_range};
use publisher_id::publisher::PublisherId;
use publisher_id::publisher_record::{PublisherRecord, same_lent};
use wire::constants::MOST_TEXT_ID;
use wire::part::part;
use wire::refusal::{Reason, Refusal};

// The record of a started partial, but for its publisher's text.
#[derive(Clone, Copy, PartialEq, Eq, Debug)]
pub struct Held {
    pub publisher: PublisherId,
    pub group: Option<u16>,
    pub writer: u16,
    pub number: u16,
    pub total: usize,
    pub covered: usize,
}

// The record with a text of zeros, for a question that looks at no text.
fn without_text(held: Held) -> PartialRecord
    ensures { result ≡ record_with held (record { id = held.publisher; text = replicate MOST_TEXT_ID 0 }) }
{
    let publisher = PublisherRecord {
        id: held.publisher,
        text: [0u8; MOST_TEXT_ID],
    };
    let origin = MessageOrigin {
        publisher,
        group: held.group,
        writer: held.writer,
        number: held.number,
    };
    let message = Message {
        origin,
        total: held.total,
    };
    PartialRecord {
        started: true,
        message,
        covered: held.covered,
    }
}

// Whether a chunk of a datagram is of the message held.
#[tactic(auto, unfolding(crate::specs::Record::same_message, crate::specs::Record::same_origin))]
fn is_same(held: Held, text: &[u8], s: &[u8], c: ChunkPlace) -> bool
    ensures { let own = identity_of (held_record held text.now).message in
        result ≡ same_message own (identity_of (chunk_message c s.now)) }
{
    same_lent(held.publisher, text, s, c.publisher, c.publisher_end)
        && same_group(held.group, c.group)
        && held.writer == c.writer
        && held.number == c.payload.number
        && held.total == c.payload.total
}

// Marks the offsets of a chunk's bytes, and tells how many were not marked, unless a covered byte differs.
fn add_marks(payload: &[u8], marks: &mut [u8], offset: usize, bytes: &[u8]) -> Option<usize>
    requires { let end = offset + length bytes.now in
        (end ≤ length payload.now) × (marks_for in_use end ≤ length marks.old) }
    ensures { let before = marks.old in
        let end = offset + length bytes.now in
        let clashes = clash end (marked_view in_use end payload.now before) (data_view offset bytes.now) in
        (result ≡ cond clashes None (Some (new_marks in_use (in_range offset end) before)))
        × (marks.new ≡ cond clashes before (mark_all in_use (in_range offset end) before)) }
{
    let end = offset + bytes.len();
    if mark_if_none(marks, offset, end) {
        return Some(bytes.len());
    }
    let held = Areas {
        payload,
        marks: &*marks,
    };
    if clash_data(held, offset, bytes) {
        return None;
    }
    Some(mark_range(marks, offset, end))
}

// Stores and marks the bytes of a chunk of the message held, of which so many are covered: 14.
fn add_data(
    covered: usize,
    payload: &mut [u8],
    marks: &mut [u8],
    offset: usize,
    bytes: &[u8],
) -> Result<usize, Refusal>
    requires { let end = offset + length bytes.now in
        (end ≤ length payload.old) × (marks_for in_use end ≤ length marks.old) × (covered ≤ length payload.old) }
    ensures { let before = marks.old in
        let end = offset + length bytes.now in
        let content = data_view offset bytes.now in
        let clashes = clash end (marked_view in_use end payload.old before) content in
        (result ≡ cond clashes (Err (at_zero Reason.ByteDiffers)) (Ok (covered + new_marks in_use (in_range offset end) before)))
        × (payload.new ≡ cond clashes payload.old (overlaid content payload.old))
        × (marks.new ≡ cond clashes before (mark_all in_use (in_range offset end) before)) }
{
    let Some(fresh) = add_marks(payload, marks, offset, bytes) else {
        return Err(Reason::ByteDiffers.at(0));
    };
    store_data(payload, offset, bytes);
    Ok(covered + fresh)
}

// Takes in a chunk without a fault of its own, in a sound partial: 11, 13, 14.
fn add_chunk(
    held: Held,
    text: &[u8],
    payload: &mut [u8],
    marks: &mut [u8],
    datagram: &[u8],
    c: ChunkPlace,
) -> Result<usize, Refusal>
    requires { let content = take c.payload.length (drop c.payload.first datagram.now) in
        (sound (partial (held_record held text.now) payload.old marks.old) ≡ true)
        × GoodChunk (chunk_message c datagram.now) c.payload.offset (length content) }
    ensures { let own = held_record held text.now in
        let content = take c.payload.length (drop c.payload.first datagram.now) in
        let read = chunk (chunk_message c datagram.now) c.payload.offset content in
        let before = partial own payload.old marks.old in
        step_of (more_of result own) payload.new marks.new ≡ take_in before read }
{
    let p = c.payload;
    if payload.len() < p.total {
        return Err(Reason::NoRoom.at(0));
    }
    if !is_same(held, text, datagram, c) {
        return Err(Reason::OtherMessage.at(0));
    }
    let bytes = part(datagram, p.first, p.length);
    add_data(held.covered, payload, marks, p.offset, bytes)
}

// Takes a chunk in from a datagram, into a started partial: 12, the chunk's own numbers, 11, 13, 14.
pub fn take_more(
    held: Held,
    text: &[u8],
    payload: &mut [u8],
    marks: &mut [u8],
    datagram: &[u8],
    sizes: &[u16],
) -> Result<usize, Refusal>
    ensures { let own = held_record held text.now in
        let before = partial own payload.old marks.old in
        let read = reading_at sizes.now datagram.now in
        step_of (more_of result own) payload.new marks.new ≡ take_in before read }
{
    if !is_sound(without_text(held), payload.len(), marks.len()) {
        return Err(Reason::Unsound.at(0));
    }
    let (c, _) = chunk::datagram::read(&*datagram, &*sizes)?;
    add_chunk(held, text, payload, marks, datagram, c)
}
