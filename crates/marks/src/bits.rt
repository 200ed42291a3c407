// The bits of a byte: bit 0 is the lowest.
ghost use Rattle.std.specs.Prelude.{◌≡◌, cond, ◌<◌};
ghost use Rattle.wire.specs.Answer.{bit};
ghost use Rattle.marks.specs.Marks.{in_use, capacity, with_bit, mark_if};

// Whether bit k of a byte is set.
pub(crate) fn bit_of(b: u8, k: usize) -> bool
    requires { k < 8 }
    ensures { result ≡ bit k b }
{
    (b >> k) % 2 == 1
}

// A byte with bit k set if told so.
fn with_bit(b: u8, k: usize, on: bool) -> u8
    requires { k < 8 }
    ensures { result ≡ cond on (with_bit k b) b }
{
    if on {
        return b | (1 << k);
    }
    b
}

// Marks an offset if told so.
pub(crate) fn mark_if(marks: &mut [u8], i: usize, on: bool)
    requires { i < capacity in_use marks.old }
    ensures { marks.new ≡ mark_if in_use on i marks.old }
{
    let at = i / 8;
    marks[at] = with_bit(marks[at], i % 8, on);
}
