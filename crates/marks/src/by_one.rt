// The benchmark's own: how many offsets are marked, one after another, beside the library's way, 32 bytes of marks at a time, by which
// handing out counts (Req 03 and Req 11 of document 02). Both promise the same. No part of the library.
ghost use Rattle.std.specs.Prelude.{◌≡◌};
ghost use Rattle.marks.specs.Marks.{in_use, count_marked};

use crate::{count_marked, is_marked, within};

// How many offsets below n are marked, by a loop that looks at one mark in each turn.
fn count_each(marks: &[u8], n: usize) -> usize
    ensures { result ≡ count_marked in_use n marks.now }
{
    let stop = within(marks, n);
    let mut count = 0;
    for i in 0..stop {
        count += is_marked(marks, i) as usize;
    }
    count
}

// How many offsets below n are marked: one after another.
#[unsafe(no_mangle)]
pub extern "C" fn marks_one_by_one(marks: &[u8], n: usize) -> u64
    ensures { result ≡ count_marked in_use n marks.now }
{
    count_each(marks, n) as u64
}

// The same, by the library.
#[unsafe(no_mangle)]
pub extern "C" fn marks_by_eight_bytes(marks: &[u8], n: usize) -> u64
    ensures { result ≡ count_marked in_use n marks.now }
{
    count_marked(marks, n) as u64
}
