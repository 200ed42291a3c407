// Whole bytes of marks, eight offsets each. They are counted 32 bytes at a time, as four numbers: in an area that is complete nearly all
// are full, and four tests joined by & spare the counts of their bits. That is two thirds of the time of counting such an area, and a
// quarter of combining. The other loops have no exit inside, so that each is compiled to vectors.
ghost use Rattle.std.specs.Prelude.{◌≡◌, ◌+◌, ◌*◌, ◌-◌, ◌^◌, ◌≤◌, ◌<◌, length};
ghost use Rattle.wire.specs.Number.{le};
ghost use Rattle.marks.specs.Offsets.{count_below, count_from, any_from, in_range_and, always};
ghost use Rattle.marks.specs.Marks.{in_use, marked, mark_all};

use wire::item::Item;

// A byte whose eight offsets are all marked.
pub(crate) const FULL: u8 = u8::MAX;

// Eight full bytes as one number.
pub(crate) const FULL_EIGHT: u64 = u64::MAX;

// Marks every offset of the bytes from first up to last.
pub(crate) fn fill(marks: &mut [u8], first: usize, last: usize)
    requires { (first ≤ last) × (last ≤ length marks.old) }
    ensures { marks.new ≡ mark_all in_use (in_range_and always (8 * first) (8 * last)) marks.old }
{
    marks[first..last].fill(FULL);
}

// Marks those offsets of the first bytes that are marked in another area.
pub(crate) fn mark_whole_marked(marks: &mut [u8], last: usize, other: &[u8])
    requires { (last ≤ length marks.old) × (last ≤ length other.now) }
    ensures { let source = in_range_and (marked in_use other.now) 0 (8 * last) in
        marks.new ≡ mark_all in_use source marks.old }
{
    for k in 0..last {
        marks[k] |= other[k];
    }
}

// Eight bytes of marks as one number: the lowest position is in the lowest bit.
pub(crate) fn eight(marks: &[u8], at: usize) -> u64
    requires { at + 8 ≤ length marks.now }
    ensures { result ≡ le 8 marks.now at }
{
    u64::of(&marks[at..at + 8], 0)
}

// How many offsets of 32 bytes are marked. Where all are, as in most of an area that comes in in order, no bit is counted.
fn count_four(marks: &[u8], at: usize) -> u64
    requires { at + 32 ≤ length marks.now }
    ensures { (result ≡ count_from (marked in_use marks.now) (8 * at) 256) × (result ≤ 256) }
{
    let a = eight(marks, at);
    let b = eight(marks, at + 8);
    let c = eight(marks, at + 16);
    let d = eight(marks, at + 24);
    if (a == FULL_EIGHT) & (b == FULL_EIGHT) & (c == FULL_EIGHT) & (d == FULL_EIGHT) {
        return 256;
    }
    (a.count_ones() + b.count_ones() + c.count_ones() + d.count_ones()) as u64
}

// How many offsets of so many times 32 bytes are marked.
fn count_fours(marks: &[u8], first: usize, fours: usize) -> usize
    requires { (first + 32 * fours ≤ length marks.now) × (256 * fours < 2 ^ 64) }
    ensures { result ≡ count_below (256 * fours) (λ j. marked in_use marks.now (8 * first + j)) }
{
    let mut count = 0u64;
    for k in 0..fours {
        count += count_four(marks, first + 32 * k);
    }
    count as usize
}

// How many offsets of the bytes from first up to last are marked, byte by byte.
fn count_bytes(marks: &[u8], first: usize, last: usize) -> usize
    requires { (first ≤ last) × (last ≤ length marks.now) × (8 * last < 2 ^ 64) }
    ensures { result ≡ count_below (8 * (last - first)) (λ j. marked in_use marks.now (8 * first + j)) }
{
    let mut count = 0;
    for k in first..last {
        count += marks[k].count_ones() as usize;
    }
    count
}

// How many offsets of the bytes from first up to last are marked: 32 bytes at a time, and those that are left byte by byte.
pub(crate) fn count_whole(marks: &[u8], first: usize, last: usize) -> usize
    requires { (first ≤ last) × (last ≤ length marks.now) × (8 * last < 2 ^ 64) }
    ensures { result ≡ count_below (8 * (last - first)) (λ j. marked in_use marks.now (8 * first + j)) }
{
    let fours = (last - first) / 32;
    let rest = first + 32 * fours;
    count_fours(marks, first, fours) + count_bytes(marks, rest, last)
}

// Whether an offset of the bytes from first up to last is marked.
pub(crate) fn any_whole(marks: &[u8], first: usize, last: usize) -> bool
    requires { (first ≤ last) × (last ≤ length marks.now) }
    ensures { result ≡ any_from (8 * first) (8 * last) (marked in_use marks.now) }
{
    let mut any = 0u8;
    for k in first..last {
        any |= marks[k];
    }
    any != 0
}
