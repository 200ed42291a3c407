// The marks of a partial: a bit for each byte of the payload area, eight to a byte, the lowest position in the lowest bit, set where the
// byte is covered. How they are held is known here only.
#![tactic(auto)]

mod bits;
pub mod by_one;
mod each;
mod next;
mod whole;

ghost use Rattle.std.specs.Prelude.{◌≡◌, cond, not, ◌+◌, ◌-◌, ◌<◌, ◌≤◌};
ghost use Rattle.marks.specs.Offsets.{count_below, any_from, next_passing, in_range, in_range_and, always};
ghost use Rattle.marks.specs.Marks.{in_use, marks_for, capacity, marked, cleared, marked_below, mark_all, count_marked, new_marks};

use bits::bit_of;
use each::{any_each, count_in, mark_each, mark_each_marked};
use next::next_wanted;
pub use next::{Run, gap};
use whole::{any_whole, count_whole, fill, mark_whole_marked};

// How many bytes of marks a payload area of n bytes has.
pub fn marks_for(n: usize) -> usize
    ensures { result ≡ marks_for in_use n }
{
    n.div_ceil(8)
}

// The smaller of n and the number of offsets that a marks area has.
pub fn within(marks: &[u8], n: usize) -> usize
    ensures { let most = capacity in_use marks.now in
        (result ≤ n) × (result ≤ most) × (result < n → result ≡ most) }
{
    if n / 8 < marks.len() {
        n
    } else {
        8 * marks.len()
    }
}

// Whether an offset is marked; one past the area is not.
pub fn is_marked(marks: &[u8], i: usize) -> bool
    ensures { result ≡ marked in_use marks.now i }
{
    let at = i / 8;
    if marks.len() <= at {
        return false;
    }
    bit_of(marks[at], i % 8)
}

// One of two values.
pub fn choose<T: Copy>(b: bool, x: T, y: T) -> T
    ensures { result ≡ cond b x y }
{
    if b { x } else { y }
}

// Clears every mark.
#[tactic(auto, unfolding(crate::specs::Marks::cleared))]
pub fn clear(marks: &mut [u8])
    ensures { marks.new ≡ cleared marks.old }
{
    marks.fill(0);
}

// Marks the offsets from start up to end: whole bytes inside, and bits at the ends.
fn mark_run(marks: &mut [u8], start: usize, end: usize)
    requires { (start ≤ end) × (end ≤ capacity in_use marks.old) }
    ensures { marks.new ≡ mark_all in_use (in_range_and always start end) marks.old }
{
    let first = marks_for(start);
    let last = end / 8;
    if last <= first {
        mark_each(marks, start, end);
        return;
    }
    mark_each(marks, start, 8 * first);
    fill(marks, first, last);
    mark_each(marks, 8 * last, end);
}

// Marks the offsets from start up to end, and tells how many were not marked; those past the area are left out.
pub fn mark_range(marks: &mut [u8], start: usize, end: usize) -> usize
    ensures { let before = marks.old in
        (marks.new ≡ mark_all in_use (in_range start end) before) × (result ≡ new_marks in_use (in_range start end) before) }
{
    let stop = within(marks, end);
    if stop <= start {
        return 0;
    }
    let held = count_between(marks, start, stop);
    mark_run(marks, start, stop);
    stop - start - held
}

// Marks the offsets from start up to end where none of them is marked, and tells whether it did; those past the area are left out. It
// spares the count of those that are marked.
pub fn mark_if_none(marks: &mut [u8], start: usize, end: usize) -> bool
    ensures { let before = marks.old in
        let none = not (any_from start end (marked in_use before)) in
        (result ≡ none) × (marks.new ≡ cond none (mark_all in_use (in_range start end) before) before) }
{
    if any_marked(marks, start, end) {
        return false;
    }
    let stop = within(marks, end);
    if stop <= start {
        return true;
    }
    mark_run(marks, start, stop);
    true
}

// Marks the offsets below n that are marked in another area, and tells how many were not marked; those past either area are left out.
pub fn mark_marked(marks: &mut [u8], n: usize, other: &[u8]) -> usize
    ensures { let before = marks.old in
        let source = marked_below in_use n other.now in
        (marks.new ≡ mark_all in_use source before) × (result ≡ new_marks in_use source before) }
{
    let stop = within(other, within(marks, n));
    let held = count_marked(marks, stop);
    let last = stop / 8;
    mark_whole_marked(marks, last, other);
    mark_each_marked(marks, 8 * last, stop, other);
    count_marked(marks, stop) - held
}

// How many offsets from start up to end are marked; one past the area is not. Whole bytes inside, and bits at the ends.
pub fn count_between(marks: &[u8], start: usize, end: usize) -> usize
    ensures { result ≡ count_below (end - start) (λ j. marked in_use marks.now (start + j)) }
{
    let stop = within(marks, end);
    let first = marks_for(start);
    let last = stop / 8;
    if last < first {
        return count_in(marks, start, stop);
    }
    let head = count_in(marks, start, 8 * first);
    let inside = count_whole(marks, first, last);
    head + inside + count_in(marks, 8 * last, stop)
}

// How many offsets below n are marked; one past the area is not.
pub fn count_marked(marks: &[u8], n: usize) -> usize
    ensures { result ≡ count_marked in_use n marks.now }
{
    count_between(marks, 0, n)
}

// Whether an offset from start up to end is marked; one past the area is not. Whole bytes inside, and bits at the ends.
pub fn any_marked(marks: &[u8], start: usize, end: usize) -> bool
    ensures { result ≡ any_from start end (marked in_use marks.now) }
{
    let stop = within(marks, end);
    let first = marks_for(start);
    let last = stop / 8;
    if last <= first {
        return any_each(marks, start, stop);
    }
    let head = any_each(marks, start, 8 * first);
    let inside = any_whole(marks, first, last);
    head | inside | any_each(marks, 8 * last, stop)
}

// The first offset from `from` on and below end that is marked; end where none is. Those past the area are not.
pub fn next_marked(marks: &[u8], from: usize, end: usize) -> usize
    ensures { result ≡ next_passing (marked in_use marks.now) end from }
{
    let stop = within(marks, end);
    let i = next_wanted(marks, from, stop, true);
    if i < stop {
        return i;
    }
    if i < end {
        return end;
    }
    i
}

// The first offset from `from` on and below end that is not marked; end where each is. Those past the area are not.
pub fn next_unmarked(marks: &[u8], from: usize, end: usize) -> usize
    ensures { result ≡ next_passing (λ i. not (marked in_use marks.now i)) end from }
{
    let stop = within(marks, end);
    next_wanted(marks, from, stop, false)
}
