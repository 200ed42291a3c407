// The parts of a line, each put after a tab. The caller has tested the room.
ghost use Rattle.std.specs.Prelude.{◌+◌, ◌*◌, ◌≤◌, ◌≡◌, length, set};
ghost use Rattle.text.specs.Decimal.{decimal_text};
ghost use Rattle.text.specs.Hex.{hex_text};
ghost use Rattle.listing.specs.Columns.{tabbed, line_end, optional_text, shape_text, Put};
ghost use Rattle.wire.specs.Constants.{MOST_TEXT_ID};

use crate::quick_decimal::put_number;
use text::hex::put_hex;
use text::words::put_bytes;
use value::Shape;

// A line's first word.
pub(crate) fn first(out: &mut [u8], at: usize, text: &[u8]) -> usize
    requires { (length text.now ≤ 5) × (at + 5 ≤ length out.old) }
    ensures { Put 5 text.now out.old at out.new result }
{
    put_bytes(out, at, text)
}

fn tab(out: &mut [u8], at: usize)
    requires { at + 1 ≤ length out.old }
    ensures { out.new ≡ set out.old at 9 }
{
    out[at] = b'\t';
}

pub(crate) fn word(out: &mut [u8], at: usize, text: &[u8]) -> usize
    requires { (length text.now ≤ 7) × (at + 8 ≤ length out.old) }
    ensures { Put 8 (tabbed text.now) out.old at out.new result }
{
    tab(out, at);
    put_bytes(out, at + 1, text)
}

pub(crate) fn decimal(out: &mut [u8], at: usize, n: u64) -> usize
    requires { at + 21 ≤ length out.old }
    ensures { Put 21 (tabbed (decimal_text n)) out.old at out.new result }
{
    tab(out, at);
    put_number(out, at + 1, n)
}

pub(crate) fn hex(out: &mut [u8], at: usize, bytes: &[u8]) -> usize
    requires { (length bytes.now ≤ MOST_TEXT_ID) × (at + 129 ≤ length out.old) }
    ensures { Put 129 (tabbed (hex_text bytes.now)) out.old at out.new result }
{
    tab(out, at);
    put_hex(out, at + 1, bytes)
}

// A number, or `-` where it is absent.
pub(crate) fn optional(out: &mut [u8], at: usize, x: Option<u16>) -> usize
    requires { at + 21 ≤ length out.old }
    ensures { Put 21 (tabbed (optional_text x)) out.old at out.new result }
{
    match x {
        None => word(out, at, b"-"),
        Some(v) => decimal(out, at, v as u64),
    }
}

// An element count, `-` for a scalar, `-1` for a null array.
pub(crate) fn shape(out: &mut [u8], at: usize, x: Shape) -> usize
    requires { at + 21 ≤ length out.old }
    ensures { Put 21 (tabbed (shape_text x)) out.old at out.new result }
{
    match x {
        Shape::Scalar => word(out, at, b"-"),
        Shape::NullArray => word(out, at, b"-1"),
        Shape::Array(n) => decimal(out, at, n as u64),
        Shape::Matrix(n, _) => decimal(out, at, n as u64),
    }
}

// The newline that ends a line.
pub(crate) fn end(out: &mut [u8], at: usize) -> usize
    requires { at + 1 ≤ length out.old }
    ensures { Put 1 line_end out.old at out.new result }
{
    out[at] = b'\n';
    at + 1
}
