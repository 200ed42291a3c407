// What is salvaged of a partial, put into lent buffers: a record of 8 numbers that tells of it, and a list of its holes and fields, 8
// numbers each (include/uadp.h, `uadp_salvage`).
// A type goes by its number: any byte may stand for one, on the wire and in the lists of types that are lent, and each is answered. An enum
// would have to be made of it at each field, and is no plainer.
ghost use Rattle.std.specs.Prelude.{◌+◌, ◌*◌, ◌≤◌, ◌≡◌, Ok, cond, eqb, leb, length};
ghost use Rattle.wire_writer.specs.Store.{laid};
ghost use Rattle.marks.specs.Marks.{in_use, marked};
ghost use Rattle.dataset_header.specs.Flags.{encoding_number};
ghost use Rattle.dataset_fields.specs.Fields.{field_at};
ghost use Rattle.records.specs.Numbers.{number_bytes};
ghost use Rattle.message_record.specs.Message.{field_numbers};
ghost use Rattle.salvage.specs.Holes.{hole, holes_of};
ghost use Rattle.salvage.specs.Front.{numbered, salvaged, open_at};
ghost use Rattle.salvage.specs.Quick.{EndsAt};
ghost use Rattle.salvage.specs.declared.front.Opening.{Opening};
ghost use Rattle.partial_record.specs.List.{hole_numbers, hole_entries, scalar_numbers, field_entries, entry_laid, entries_put, promised_number, told_numbers, saved_put, put_saved, salvage_put, promise_by, none_at};
ghost use Rattle.partial_record.specs.Steps.{field_put, whole_fields, Finds};

use dataset_fields::fields::{Cursor, Field, read_field};
use dataset_header::flags::Encoding;
use marks::next_unmarked;
use message_record::message::{elements_number, encoding_number, shape_number};
use records::items::flag_number;
use records::numbers::put_numbers;
use salvage::front::{Opening, count_fields, open};
use salvage::holes::{count_holes, next_hole};
use salvage::quick::fixed_to;
use value::dimensions;
use wire::left;
use wire::part::part;
use wire::refusal::{Reason, Refusal};

// How many bytes an entry of the list has, and the record that tells of it.
const ENTRY_SIZE: usize = 64;

const SALVAGE_SIZE: usize = 64;

// What the front tells: whether the count is known, the cursor before the first field, and how many fields are whole.
#[derive(Clone, Copy, PartialEq, Eq, Debug)]
struct Found {
    known: bool,
    first: Cursor,
    fields: usize,
}

// Puts entry k, which has 8 numbers, where it fits whole.
fn put_entry(out: &mut [u8], k: usize, numbers: &[u64])
    requires { length numbers.now ≡ 8 }
    ensures { out.new ≡ entry_laid k numbers.now out.old }
{
    if out.len() / ENTRY_SIZE <= k {
        return;
    }
    let at = ENTRY_SIZE * k;
    let end = at + ENTRY_SIZE;
    put_numbers(&mut out[at..end], numbers);
}

// Puts the entry of a hole by its offset and where it ends: its length, which is lent beside the offset, would be loaded with it as one
// word right after the two were stored, which stalls.
fn put_hole(out: &mut [u8], k: usize, offset: usize, end: usize)
    ensures { out.new ≡ entry_laid k (hole_numbers (hole offset end)) out.old }
{
    let numbers = [0, 0, 0, 0, offset as u64, left(end, offset) as u64, 0, 0];
    put_entry(out, k, &numbers);
}

fn put_field(out: &mut [u8], k: usize, f: Field)
    ensures { out.new ≡ entry_laid k (field_numbers f) out.old }
{
    let numbers = [
        f.kind as u64,
        shape_number(f.shape),
        elements_number(f.shape),
        f.index as u64,
        f.offset as u64,
        f.length as u64,
        dimensions(f.shape) as u64,
        0,
    ];
    put_entry(out, k, &numbers);
}

// Puts the entries of the holes below total, from the first entry on, and answers how many there are.
fn put_holes(out: &mut [u8], marks: &[u8], total: usize) -> usize
    ensures { let holes = holes_of (marked in_use marks.now) total in
        (out.new ≡ entries_put 0 (hole_entries holes) out.old) × (result ≡ length holes) }
{
    let mut at = 0;
    let mut k = 0;
    while let Some((hole, end)) = next_hole(marks, total, at) {
        put_hole(out, k, hole.offset, end);
        at = end;
        k += 1;
    }
    k
}

// Puts the entry of a scalar.
fn put_scalar(out: &mut [u8], k: usize, kind: u8, index: usize, offset: usize, length: usize)
    ensures { out.new ≡ entry_laid k (scalar_numbers kind index offset length) out.old }
{
    let numbers = [
        kind as u64,
        0,
        0,
        index as u64,
        offset as u64,
        length as u64,
        0,
        0,
    ];
    put_entry(out, k, &numbers);
}

// Puts entry k, of field i, which starts at a position, and answers where the field ends; of a refused one that position, and nothing is
// put. A scalar of a fixed type is told by its first byte.
fn put_next(
    out: &mut [u8],
    k: usize,
    front: &[u8],
    encoding: Encoding,
    delta: bool,
    types: &[u8],
    i: usize,
    at: usize,
) -> usize
    ensures { let x = field_at delta encoding types.now i front.now at in
        EndsAt at x result × (out.new ≡ field_put k x out.old) }
{
    let end = fixed_to(front, encoding, delta, at);
    if at < end {
        put_scalar(out, k, front[at], i, at, end - at);
        return end;
    }
    match read_field(&*front, encoding, delta, &*types, i, at) {
        Err(_) => at,
        Ok((f, end)) => {
            put_field(out, k, f);
            end
        }
    }
}

// Puts the entries of the fields from a cursor on that are whole in the front, the first of them as entry `start`, and answers how many
// entries there are then.
fn put_fields(out: &mut [u8], start: usize, front: &[u8], types: &[u8], first: Cursor) -> usize
    requires { start + length (whole_fields types.now front.now first) ≤ 18446744073709551615 }
    ensures { let fields = whole_fields types.now front.now first in
        (out.new ≡ entries_put start (field_entries fields) out.old) × (result ≡ start + length fields) }
{
    let mut at = first.at;
    let mut k = start;
    for i in first.next..first.count {
        let end = put_next(out, k, front, first.encoding, first.delta, types, i, at);
        if end <= at {
            return k;
        }
        at = end;
        k += 1;
    }
    k
}

fn promised_number(known: bool, count: usize) -> usize
    ensures { result ≡ promised_number (promise_by known count) }
{
    if known {
        return count;
    }
    0
}

// Stores the record.
fn put_told(told: &mut [u8], holes: usize, found: Found, covered: usize, total: usize)
    ensures { let c = found.first in
        let numbers = told_numbers holes found.fields (promise_by found.known c.count) covered total (encoding_number c.encoding) in
        told.new ≡ laid told.old 0 (number_bytes numbers) }
{
    let numbers = [
        holes as u64,
        found.fields as u64,
        flag_number(found.known),
        promised_number(found.known, found.first.count) as u64,
        covered as u64,
        total as u64,
        encoding_number(found.first.encoding),
        0,
    ];
    put_numbers(told, &numbers);
}

// A cursor that stands behind the front, before no field.
fn none_at(at: usize) -> Cursor
    ensures { result ≡ none_at at }
{
    Cursor {
        encoding: Encoding::Variant,
        delta: false,
        next: 0,
        count: 0,
        at,
    }
}

// Whether a list with room for so many entries has room for the holes below total and so many fields. Two holes have a byte between them,
// so that there is often no need to count them.
fn has_room(room: usize, marks: &[u8], total: usize, fields: usize) -> bool
    ensures { result ≡ leb (length (holes_of (marked in_use marks.now) total) + fields) room }
{
    if room < fields {
        return false;
    }
    let left = room - fields;
    if total / 2 < left {
        return true;
    }
    count_holes(marks, total) <= left
}

// Stores the record and the list, where both fit: the holes, and the fields from a cursor on that are whole in the front.
fn store(
    told: &mut [u8],
    list: &mut [u8],
    front: &[u8],
    types: &[u8],
    marks: &[u8],
    total: usize,
    covered: usize,
    found: Found,
) -> Result<usize, Refusal>
    requires { found.fields ≡ length (whole_fields types.now front.now found.first) }
    ensures { let c = found.first in
        let fs = whole_fields types.now front.now c in
        let hs = holes_of (marked in_use marks.now) total in
        saved_put (numbered result) told.new list.new
        ≡ put_saved hs covered total (encoding_number c.encoding) told.old list.old
        (salvaged (promise_by found.known c.count) fs) }
{
    if told.len() < SALVAGE_SIZE {
        return Err(Reason::NoRoom.at(0));
    }
    if !has_room(list.len() / ENTRY_SIZE, marks, total, found.fields) {
        return Err(Reason::NoRoom.at(0));
    }
    let holes = put_holes(list, marks, total);
    let entries = put_fields(list, holes, front, types, found.first);
    put_told(told, holes, found, covered, total);
    Ok(entries)
}

// The front opened; that of a partial not started, whose total is 0, has no count.
fn open_in(front: &[u8], area: &[u8], types: &[u8], total: usize) -> Result<Opening, Refusal>
    ensures { let s = area.now in
        numbered result ≡ cond (eqb total 0) (Ok Opening.Missing) (open_at (length s) types.now front.now s) }
{
    if total == 0 {
        return Ok(Opening::Missing);
    }
    open(front, area, types)
}

// What the front of a message of so many bytes tells.
fn find(front: &[u8], area: &[u8], types: &[u8], total: usize) -> Result<Found, Refusal>
    ensures { let s = area.now in
        let opened = cond (eqb total 0) (Ok Opening.Missing) (open_at (length s) types.now front.now s) in
        Finds types.now front.now s opened result }
{
    let nothing = none_at(front.len());
    match open_in(front, area, types, total)? {
        Opening::Missing => Ok(Found {
            known: false,
            first: nothing,
            fields: 0,
        }),
        Opening::NotValid => Ok(Found {
            known: true,
            first: nothing,
            fields: 0,
        }),
        Opening::At(first) => {
            let fields = count_fields(front, area, types, first)?;
            Ok(Found {
                known: true,
                first,
                fields,
            })
        }
    }
}

// What is salvaged of a partial of so many bytes, by its two areas and the configured field types of its writer.
pub fn salvage(
    told: &mut [u8],
    list: &mut [u8],
    payload: &[u8],
    marks: &[u8],
    types: &[u8],
    total: usize,
) -> Result<usize, Refusal>
    ensures { saved_put (numbered result) told.new list.new
        ≡ salvage_put types.now payload.now marks.now total told.old list.old }
{
    let covered = next_unmarked(marks, 0, total);
    let front = part(payload, 0, covered);
    let area = part(payload, 0, total);
    let found = find(front, area, types, total)?;
    store(told, list, front, types, marks, total, covered, found)
}
