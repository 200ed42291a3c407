// Decimals without leading zeros.
ghost use Rattle.std.specs.Prelude.{◌≡◌, ◌+◌, ◌≤◌, length};
ghost use Rattle.std.proofs.lemmas.List.Edits.{sets};
ghost use Rattle.wire_writer.specs.Store.{Stored};
ghost use Rattle.text.specs.Decimal.{is_digit, digits_at, decimal_at, decimal_text};

// Whether a byte is a decimal digit.
pub fn is_digit(b: u8) -> bool
    ensures { result ≡ is_digit b }
{
    (b'0' <= b) & (b <= b'9')
}

// Digits up to the byte `end`: the number that they stand for where it is at most `limit`, and the position after `end`.
fn read_digits(s: &[u8], at: usize, end: u8, limit: u64) -> Option<(u64, usize)>
    ensures { result ≡ digits_at limit end s.now at }
{
    let mut n: u64 = 0;
    for i in at..s.len() {
        let b = s[i];
        if b == end {
            return Some((n, i + 1));
        }
        if !is_digit(b) {
            return None;
        }
        if limit / 10 < n {
            return None;
        }
        let d = (b - b'0') as u64;
        if limit - n * 10 < d {
            return None;
        }
        n = n * 10 + d;
    }
    None
}

// The decimal from a position up to the byte `end`, at most `limit`, and the position after `end`.
pub fn read_decimal(s: &[u8], at: usize, end: u8, limit: u64) -> Option<(u64, usize)>
    ensures { result ≡ decimal_at limit end s.now at }
{
    let first = *s.get(at)?;
    if first == end {
        return None;
    }
    if first != b'0' {
        return read_digits(s, at, end, limit);
    }
    if *s.get(at + 1)? != end {
        return None;
    }
    Some((0, at + 2))
}

// How many digits a number has.
// It divides until one digit is left, which no iterator does more plainly.
fn count_digits(n: u64) -> usize
    ensures { result ≡ length (decimal_text n) }
{
    let mut k = 1;
    let mut m = n;
    while 10 <= m {
        m = m / 10;
        k += 1;
    }
    k
}

// The k digits of a number, from the last one back.
// It divides as it goes back, which no iterator does more plainly.
fn store_digits(out: &mut [u8], at: usize, n: u64, k: usize)
    requires { (at + k ≤ length out.old) × (k ≡ length (decimal_text n)) }
    ensures { out.new ≡ sets out.old at (decimal_text n) }
{
    let mut m = n;
    let mut i = k;
    while 10 <= m {
        i -= 1;
        out[at + i] = b'0' + (m % 10) as u8;
        m = m / 10;
    }
    out[at] = b'0' + m as u8;
}

// A number, put as a decimal.
pub fn put_decimal(out: &mut [u8], at: usize, n: u64) -> usize
    ensures { Stored (decimal_text n) out.old at out.new result }
{
    let k = count_digits(n);
    if !wire::has(out.len(), at, k) {
        return at;
    }
    store_digits(out, at, n, k);
    at + k
}
