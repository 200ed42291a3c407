// The ends of a range: fewer than eight offsets, which fill no byte. They are counted at once, as bits of their byte. They are marked and
// looked for one after another, in a loop with a second way out, so that the compiler does not unroll it: a thousand bytes of code.
ghost use Rattle.std.specs.Prelude.{◌≡◌, ◌+◌, ◌-◌, ◌%◌, ◌≤◌};
ghost use Rattle.marks.specs.Offsets.{count_below, any_from, in_range_and, always};
ghost use Rattle.marks.specs.Marks.{in_use, capacity, marked, mark_all};

use crate::bits::mark_if;
use crate::is_marked;

// Marks the offsets from start up to end.
pub(crate) fn mark_each(marks: &mut [u8], start: usize, end: usize)
    requires { (start ≤ end) × (end ≤ capacity in_use marks.old) }
    ensures { marks.new ≡ mark_all in_use (in_range_and always start end) marks.old }
{
    for i in start..end {
        if marks.len() <= i / 8 {
            return;
        }
        mark_if(marks, i, true);
    }
}

// Marks those of the offsets from start up to end that are marked in another area.
pub(crate) fn mark_each_marked(marks: &mut [u8], start: usize, end: usize, other: &[u8])
    requires { (start ≤ end) × (end ≤ capacity in_use marks.old) }
    ensures { let source = in_range_and (marked in_use other.now) start end in
        marks.new ≡ mark_all in_use source marks.old }
{
    for i in start..end {
        mark_if(marks, i, is_marked(other, i));
    }
}

// How many offsets from start up to end are marked, where they lie in one byte: the ones among so many of its bits.
pub(crate) fn count_in(marks: &[u8], start: usize, end: usize) -> usize
    requires { start % 8 + (end - start) ≤ 8 }
    ensures { result ≡ count_below (end - start) (λ j. marked in_use marks.now (start + j)) }
{
    if end <= start {
        return 0;
    }
    let at = start / 8;
    if marks.len() <= at {
        return 0;
    }
    let bits = (marks[at] as usize >> (start % 8)) % (1 << (end - start));
    (bits as u8).count_ones() as usize
}

// Whether an offset from start up to end is marked.
pub(crate) fn any_each(marks: &[u8], start: usize, end: usize) -> bool
    ensures { result ≡ any_from start end (marked in_use marks.now) }
{
    for i in start..end {
        if is_marked(marks, i) {
            return true;
        }
    }
    false
}
