// A quick way to a field of the front: a Variant that is a scalar of a fixed type is told by its first byte, with no call. It answers what
// `read_field` does. Worth: a quarter of the time of salvaging such fields. And one over those of one type at the start. Worth: two fifths
// of the time of salvaging 1,000 UInt32.
ghost use Rattle.std.specs.Prelude.{◌≡◌, List, ℕ, ◌-◌, ◌≤◌};
ghost use Rattle.wire.specs.Answer.{got};
ghost use Rattle.dataset_fields.specs.Fields.{field_at, fields_at};
ghost use Rattle.salvage.specs.Quick.{FixedTo, EndsAt};

use dataset_fields::fields::{Cursor, read_field};
use dataset_fields::quick::{MANY, Run, leading};
use dataset_header::flags::Encoding;
use value::quick::fixed_end;
use wire::left;

// The position after a field that is a Variant of a fixed type without an index; for any other the position itself.
pub fn fixed_to(front: &[u8], encoding: Encoding, delta: bool, at: usize) -> usize
    ensures { FixedTo delta encoding front.now at result }
{
    if delta {
        return at;
    }
    match encoding {
        Encoding::Variant => fixed_end(front, at),
        Encoding::RawData => at,
        Encoding::DataValue => at,
    }
}

// The position after field k, which starts at a position; that position itself where it is refused.
pub(crate) fn field_end(
    front: &[u8],
    encoding: Encoding,
    delta: bool,
    types: &[u8],
    k: usize,
    at: usize,
) -> usize
    ensures { EndsAt at (field_at delta encoding types.now k front.now at) result }
{
    let end = fixed_to(front, encoding, delta, at);
    if at < end {
        return end;
    }
    match read_field(&*front, encoding, delta, &*types, k, at) {
        Err(_) => at,
        Ok((_, end)) => end,
    }
}

// Of the fields that are left from the cursor on, those that are passed over together: Variants of one fixed type, without indices.
pub(crate) fn alike(front: &[u8], c: Cursor) -> Run
    ensures { let s = front.now in
        (result.count ≤ c.count - c.next)
        × ((types : List ℕ) → fields_at c.delta c.encoding types result.count c.next s c.at ≡ got tt result.end) }
{
    let none = Run {
        count: 0,
        end: c.at,
    };
    let n = left(c.count, c.next);
    if (n < MANY) | c.delta {
        return none;
    }
    match c.encoding {
        Encoding::Variant => leading(&*front, c.at, n),
        Encoding::RawData | Encoding::DataValue => none,
    }
}
