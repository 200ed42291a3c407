// The next offset that is marked, or is not: bits of eight bytes of marks, as one number, from its own byte on; where they have none that
// is wanted, eight bytes that are alike are passed over at once. A hole that those bits show whole is told from them alone: half of the
// time of finding a thousand small ones.
ghost use Rattle.std.specs.Prelude.{◌≡◌, IfSome, ℕ, ◌+◌, ◌%◌, ◌<◌, ◌≤◌, false, cond, not};
ghost use Rattle.marks.specs.Offsets.{next_passing, wanted, Looked};
ghost use Rattle.marks.specs.Marks.{in_use, capacity, marked};

use crate::whole::{FULL, FULL_EIGHT, eight};
use crate::{choose, within};

// How many offsets a byte has.
const EIGHT: usize = 8;

// How many offsets eight bytes have.
const IN_EIGHT: usize = 64;

// Offsets one after the other, from start up to end.
#[derive(Clone, Copy, PartialEq, Eq, Debug)]
pub struct Run {
    pub start: usize,
    pub end: usize,
}

// Some offsets one after the other: a bit for each, set where it is wanted, and how many they are.
#[derive(Clone, Copy)]
struct Seen {
    bits: u64,
    told: usize,
}

// The offsets from i on, up to the end of eight bytes of marks, or of one where there are not as many.
fn look(marks: &[u8], i: usize, want: bool) -> Seen
    requires { i < capacity in_use marks.now }
    ensures { let before = marks.now in
        Looked (λ j. wanted want (marked in_use before j)) i result.told result.bits × ((i + result.told) % 8 ≡ 0) }
{
    let at = i / 8;
    if marks.len() - at < EIGHT {
        let b = marks[at];
        return Seen {
            bits: (choose(want, b, FULL - b) >> (i % 8)) as u64,
            told: EIGHT - i % 8,
        };
    }
    let number = eight(marks, at);
    Seen {
        bits: choose(want, number, FULL_EIGHT - number) >> (i % 8),
        told: IN_EIGHT - i % 8,
    }
}

// Passes over eight bytes of marks after another, as long as they lie below stop and have no offset that is wanted.
// The place where it breaks off is the answer, eight bytes at a time: `position` of an iterator would be no plainer, over pieces of eight.
fn pass_eights(marks: &[u8], start: usize, stop: usize, want: bool) -> usize
    requires { (start % 8 ≡ 0) × (start ≤ stop) × (stop ≤ capacity in_use marks.now) }
    ensures { let before = marks.now in
        (start ≤ result) × (result ≤ stop) × ((j : ℕ) → start ≤ j → j < result → wanted want (marked in_use before j) ≡ false) }
{
    let unwanted = choose(want, 0, FULL_EIGHT);
    let mut i = start;
    // a `while`, as the next one: i is handed out where it breaks off, and goes on by as much as was looked at
    while IN_EIGHT <= stop - i {
        if eight(marks, i / 8) != unwanted {
            return i;
        }
        i += IN_EIGHT;
    }
    i
}

// The first offset from `from` on and below stop that is marked, or, if told so, is not; stop where there is none.
// It goes on by as many offsets as each look told.
pub(crate) fn next_wanted(marks: &[u8], from: usize, stop: usize, want: bool) -> usize
    requires { stop ≤ capacity in_use marks.now }
    ensures { result ≡ next_passing (λ j. wanted want (marked in_use marks.now j)) stop from }
{
    let mut i = from;
    while i < stop {
        let seen = look(marks, i, want);
        if seen.bits != 0 {
            return i + (seen.bits.trailing_zeros() as usize).min(stop - i);
        }
        if stop - i <= seen.told {
            return stop;
        }
        i = pass_eights(marks, i + seen.told, stop, want);
    }
    i
}

// The first run of offsets from `from` on and below end that are not marked, where one look shows it and the marked offset after it.
pub fn gap(marks: &[u8], from: usize, end: usize) -> Option<Run>
    ensures { let held = marked in_use marks.now in
        let start = next_passing (λ i. not (held i)) end from in
        IfSome result (λ run. (run.start < run.end) × (run.start < end) × (run.start ≡ start) × (run.end ≡ next_passing held end start)) }
{
    let stop = within(marks, end);
    if stop <= from {
        return None;
    }
    let seen = look(marks, from, false);
    if seen.bits == 0 {
        return None;
    }
    let skip = seen.bits.trailing_zeros() as usize;
    let run = (FULL_EIGHT - (seen.bits >> skip)).trailing_zeros() as usize;
    if skip + run < seen.told.min(stop - from) {
        return Some(Run {
            start: from + skip,
            end: from + skip + run,
        });
    }
    None
}
