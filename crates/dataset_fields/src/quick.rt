// A quick way over the fields of one type at the start of a message (proofs/Alike).
ghost use Rattle.std.specs.Prelude.{◌≡◌, false, List, ℕ, ◌≤◌};
ghost use Rattle.wire.specs.Answer.{got};
ghost use Rattle.dataset_fields.specs.Fields.{fields_at};
ghost use Rattle.dataset_header.specs.declared.flags.Encoding.{Encoding};

use value::quick::fixed_end;
use wire::has;

// From how many fields on `leading` is called: for fewer it costs more than it spares.
pub const MANY: usize = 16;

// How many fields stand one after the other, and where the last of them ends.
#[derive(Clone, Copy, PartialEq, Eq, Debug)]
pub struct Run {
    pub count: usize,
    pub end: usize,
}

// Of n Variants from a position on, without indices, the leading ones that are a null or a scalar of a fixed type and have the first one's
// first byte: each is as long as the first, so that no width is looked up again. Worth: three quarters of the time to pass over 1,000
// UInt32; 2,000 fields of random types take a thirtieth longer.
pub fn leading(s: &[u8], at: usize, n: usize) -> Run
    ensures { (result.count ≤ n)
        × ((types : List ℕ) (k : ℕ) → fields_at false Encoding.Variant types result.count k s.now at ≡ got tt result.end) }
{
    let first = fixed_end(s, at);
    if first <= at {
        return Run { count: 0, end: at };
    }
    let b = s[at];
    let size = first - at;
    let mut p = at;
    for k in 0..n {
        if !has(s.len(), p, size) {
            return Run { count: k, end: p };
        }
        if s[p] != b {
            return Run { count: k, end: p };
        }
        p += size;
    }
    Run { count: n, end: p }
}
