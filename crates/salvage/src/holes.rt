// The holes of a partial, one after the other.
ghost use Rattle.std.specs.Prelude.{◌≡◌, length};
ghost use Rattle.marks.specs.Marks.{in_use, marked};
ghost use Rattle.salvage.specs.Holes.{next_hole, holes_of};

use marks::{gap, next_marked, next_unmarked};

// A hole: where it starts, and how long it is.
#[derive(Clone, Copy, PartialEq, Eq, Debug)]
pub struct Hole {
    pub offset: usize,
    pub length: usize,
}

// The first hole from a position on, below total, with the position after it. A made-up position is one like any other; from total on there
// is no hole. A hole that one look at the marks shows whole is told by it.
pub fn next_hole(marks: &[u8], total: usize, at: usize) -> Option<(Hole, usize)>
    ensures { result ≡ next_hole (marked in_use marks.now) total at }
{
    if let Some(run) = gap(marks, at, total) {
        let hole = Hole {
            offset: run.start,
            length: run.end - run.start,
        };
        return Some((hole, run.end));
    }
    let start = next_unmarked(marks, at, total);
    if total <= start {
        return None;
    }
    let end = next_marked(marks, start, total);
    let hole = Hole {
        offset: start,
        length: end - start,
    };
    Some((hole, end))
}

// How many holes there are below total.
pub fn count_holes(marks: &[u8], total: usize) -> usize
    ensures { result ≡ length (holes_of (marked in_use marks.now) total) }
{
    let mut at = 0;
    let mut n = 0;
    while let Some((_, end)) = next_hole(marks, total, at) {
        at = end;
        n += 1;
    }
    n
}
