// The covered front of a message: `area` is the payload area's first bytes, as many as the message has, and `front` those before its first
// hole. The shape of a field is a `value::Shape`.
ghost use Rattle.std.specs.Prelude.{◌≡◌, eqb, length};
ghost use Rattle.wire.specs.Constants.{CUT_SHORT};
ghost use Rattle.wire.specs.Refusal.{reason_number};
ghost use Rattle.dataset_fields.specs.Fields.{field_at, padding_at};
ghost use Rattle.dataset_message.specs.Message.{front_to};
ghost use Rattle.salvage.specs.Front.{numbered, past_by, open_at, last_by, next_shown, salvage_from, tally_from, tally_by};
ghost use Rattle.salvage.specs.Quick.{PassedTo};

use crate::quick::{alike, field_end};
use dataset_fields::fields::{Cursor, Field, padding, read_field};
use dataset_message::message::front_to;
use wire::left;
use wire::refusal::{Reason, Refusal};

// The cursor before the first field; or that the count is missing, or the message not valid.
#[derive(Clone, Copy, PartialEq, Eq, Debug)]
pub enum Opening {
    Missing,
    NotValid,
    At(Cursor),
}

// A field that lies whole in the front, with the cursor after it; or that the reading ends at a hole, or was after the last field.
#[derive(Clone, Copy, PartialEq, Eq, Debug)]
pub enum FieldShown {
    Is(Field, Cursor),
    Ends,
    Last,
}

fn is_cut_short(reason: Reason) -> bool
    ensures { result ≡ eqb (reason_number reason) CUT_SHORT }
{
    matches!(reason, Reason::CutShort)
}

// Whether the item at a place, which the front cuts short, is past total: one of the header, or the count.
fn front_past(area: &[u8], types: &[u8], place: usize) -> bool
    ensures { let s = area.now in
        result ≡ past_by place (front_to (length s) types.now s) }
{
    match front_to(area, types, area.len()) {
        Ok(_) => false,
        Err(refusal) => is_cut_short(refusal.reason) & (refusal.place == place),
    }
}

// The same of the field that the cursor stands before.
fn field_past(area: &[u8], c: Cursor, types: &[u8], place: usize) -> bool
    ensures { result ≡ past_by place (field_at c.delta c.encoding types.now c.next area.now c.at) }
{
    match read_field(area, c.encoding, c.delta, types, c.next, c.at) {
        Ok((_, _)) => false,
        Err(refusal) => is_cut_short(refusal.reason) & (refusal.place == place),
    }
}

// The header of a message and its count, as far as the front shows them.
pub fn open(front: &[u8], area: &[u8], types: &[u8]) -> Result<Opening, Refusal>
    ensures { let s = area.now in
        numbered result ≡ open_at (length s) types.now front.now s }
{
    match front_to(front, types, area.len()) {
        Ok(None) => Ok(Opening::NotValid),
        Ok(Some((_, c, _))) => Ok(Opening::At(c)),
        Err(refusal) => {
            if !is_cut_short(refusal.reason) {
                return Err(refusal);
            }
            if front_past(area, types, refusal.place) {
                return Err(Reason::CutShort.at(refusal.place));
            }
            Ok(Opening::Missing)
        }
    }
}

// After the last field only zero bytes may stand in the front.
fn last(front: &[u8], at: usize) -> Result<FieldShown, Refusal>
    ensures { numbered result ≡ last_by (padding_at front.now at) }
{
    padding(front, at)?;
    Ok(FieldShown::Last)
}

// The field that the cursor stands before. A made-up cursor is read at the byte it names.
pub fn next(front: &[u8], area: &[u8], types: &[u8], c: Cursor) -> Result<FieldShown, Refusal>
    ensures { numbered result ≡ next_shown types.now front.now area.now c }
{
    if c.count <= c.next {
        return last(front, c.at);
    }
    match read_field(front, c.encoding, c.delta, types, c.next, c.at) {
        Ok((field, end)) => {
            let after = Cursor {
                next: c.next + 1,
                at: end,
                ..c
            };
            Ok(FieldShown::Is(field, after))
        }
        Err(refusal) => {
            if !is_cut_short(refusal.reason) {
                return Err(refusal);
            }
            if field_past(area, c, types, refusal.place) {
                return Err(Reason::CutShort.at(refusal.place));
            }
            Ok(FieldShown::Ends)
        }
    }
}

// The cursor before the first field from `first` on that is not whole in the front, or after the last.
fn pass_whole(front: &[u8], types: &[u8], first: Cursor) -> Cursor
    ensures { PassedTo types.now front.now first result }
{
    let run = alike(front, first);
    let mut at = run.end;
    let mut k = first.next + run.count;
    // a `while`, since k is handed out where the loop breaks off
    while k < first.count {
        let end = field_end(front, first.encoding, first.delta, types, k, at);
        if end <= at {
            break;
        }
        at = end;
        k += 1;
    }
    Cursor {
        next: k,
        at,
        ..first
    }
}

// How many fields there are, if not refused: so many, where none is left that is whole.
fn ending(front: &[u8], area: &[u8], types: &[u8], c: Cursor, told: usize) -> Result<usize, Refusal>
    ensures { numbered result ≡ tally_by told (next_shown types.now front.now area.now c) }
{
    next(front, area, types, c)?;
    Ok(told)
}

// How many fields from the cursor on lie whole in the front.
pub fn count_fields(
    front: &[u8],
    area: &[u8],
    types: &[u8],
    first: Cursor,
) -> Result<usize, Refusal>
    ensures { numbered result ≡ tally_from 0 (salvage_from types.now front.now area.now first) }
{
    let c = pass_whole(front, types, first);
    ending(front, area, types, c, left(c.next, first.next))
}
