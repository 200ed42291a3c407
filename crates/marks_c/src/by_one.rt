// The benchmark's own: how many offsets are marked, one after another, beside the library's way, 32 bytes of marks at a time, by which
// handing out counts (Req 03 and Req 11 of document 02). Both promise the same. No part of the library.
ghost use Rattle.std.specs.Prelude.{◌≡◌};
ghost use Rattle.marks.specs.Marks.{in_use, count_marked};

// How many offsets below n are marked: one after another.
#[unsafe(no_mangle)]
pub extern "C" fn marks_one_by_one(marks: &[u8], n: usize) -> u64
    ensures { result ≡ count_marked in_use n marks.now }
{
    marks::by_one::marks_one_by_one(marks, n)
}

// The same, by the library.
#[unsafe(no_mangle)]
pub extern "C" fn marks_by_eight_bytes(marks: &[u8], n: usize) -> u64
    ensures { result ≡ count_marked in_use n marks.now }
{
    marks::by_one::marks_by_eight_bytes(marks, n)
}
