// Decimals of up to five digits by a branch on their size, without a loop: what `text::decimal::put_decimal` puts. The caller has tested
// the room. Worth: a fifteenth of the time of a listing.
ghost use Rattle.std.specs.Prelude.{◌+◌, ◌≤◌, ◌<◌, ◌%◌, [], ◌∷◌, length};
ghost use Rattle.text.specs.Decimal.{decimal_text};
ghost use Rattle.listing.specs.Columns.{Put};

use text::decimal::put_decimal;

// A number of one digit.
fn one(out: &mut [u8], at: usize, n: u64) -> usize
    requires { (n < 10) × (at + 1 ≤ length out.old) }
    ensures { Put 1 (decimal_text n) out.old at out.new result }
{
    out[at] = 48 + n as u8;
    at + 1
}

// A number's last digit.
fn last(out: &mut [u8], at: usize, n: u64) -> usize
    requires { at + 1 ≤ length out.old }
    ensures { Put 1 ((48 + n % 10) ∷ []) out.old at out.new result }
{
    out[at] = 48 + (n % 10) as u8;
    at + 1
}

fn two(out: &mut [u8], at: usize, n: u64) -> usize
    requires { (10 ≤ n) × (n < 100) × (at + 2 ≤ length out.old) }
    ensures { Put 2 (decimal_text n) out.old at out.new result }
{
    let p = one(out, at, n / 10);
    last(out, p, n)
}

fn three(out: &mut [u8], at: usize, n: u64) -> usize
    requires { (100 ≤ n) × (n < 1000) × (at + 3 ≤ length out.old) }
    ensures { Put 3 (decimal_text n) out.old at out.new result }
{
    let p = two(out, at, n / 10);
    last(out, p, n)
}

fn four(out: &mut [u8], at: usize, n: u64) -> usize
    requires { (1000 ≤ n) × (n < 10000) × (at + 4 ≤ length out.old) }
    ensures { Put 4 (decimal_text n) out.old at out.new result }
{
    let p = three(out, at, n / 10);
    last(out, p, n)
}

fn five(out: &mut [u8], at: usize, n: u64) -> usize
    requires { (10000 ≤ n) × (n < 100000) × (at + 5 ≤ length out.old) }
    ensures { Put 5 (decimal_text n) out.old at out.new result }
{
    let p = four(out, at, n / 10);
    last(out, p, n)
}

// A number of two digits or more.
fn put_tens(out: &mut [u8], at: usize, n: u64) -> usize
    requires { (10 ≤ n) × (at + 20 ≤ length out.old) }
    ensures { Put 20 (decimal_text n) out.old at out.new result }
{
    if n < 100 {
        return two(out, at, n);
    }
    if n < 1000 {
        return three(out, at, n);
    }
    if n < 10000 {
        return four(out, at, n);
    }
    if n < 100000 {
        return five(out, at, n);
    }
    put_decimal(out, at, n)
}

// A number, put as a decimal.
pub(crate) fn put_number(out: &mut [u8], at: usize, n: u64) -> usize
    requires { at + 20 ≤ length out.old }
    ensures { Put 20 (decimal_text n) out.old at out.new result }
{
    if n < 10 {
        return one(out, at, n);
    }
    put_tens(out, at, n)
}
