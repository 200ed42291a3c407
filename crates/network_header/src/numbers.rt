// Lists of numbers as bytes, 2 bytes each.
ghost use Rattle.std.specs.Prelude.{◌≡◌, ◌+◌, ◌*◌, ◌≤◌, length, get_or, take};
ghost use Rattle.wire.specs.Number.{le};
ghost use Rattle.network_header.specs.Numbers.{agree, same_numbers, configured_sizes};
ghost use Rattle.wire.specs.Constants.{MOST_WRITERS};

use wire::constants::MOST_WRITERS;
use wire::item::Item;

// The byte at a position, 0 where there is none.
fn byte_at(bytes: &[u8], at: usize) -> u8
    ensures { result ≡ get_or bytes.now at 0 }
{
    bytes.get(at).copied().unwrap_or(0)
}

// The number of the two bytes at a position; a byte that is not there counts as 0.
pub fn number_at(bytes: &[u8], at: usize) -> usize
    ensures { (result ≡ le 2 bytes.now at) × (result ≤ 65535) }
{
    match u16::read(bytes, at) {
        Ok((v, _)) => v as usize,
        Err(_) => byte_at(bytes, at) as usize,
    }
}

// Whether bytes, of the right length, are the first n of these numbers.
fn numbers_agree(bytes: &[u8], numbers: &[u16], n: usize) -> bool
    requires { (n ≤ length numbers.now) × (length bytes.now ≡ 2 * n) × (n ≤ MOST_WRITERS) }
    ensures { result ≡ agree (take n numbers.now) bytes.now 0 }
{
    for i in 0..n {
        if number_at(bytes, 2 * i) != numbers[i] as usize {
            return false;
        }
    }
    true
}

// Whether bytes are the first 16 of these numbers, 2 bytes each.
#[tactic(auto, unfolding(crate::specs::Numbers::same_numbers))]
pub fn same_numbers(bytes: &[u8], numbers: &[u16]) -> bool
    ensures { result ≡ same_numbers bytes.now (take MOST_WRITERS numbers.now) }
{
    let n = writers(numbers);
    if bytes.len() != 2 * n {
        return false;
    }
    numbers_agree(bytes, numbers, n)
}

// How many of the configured writers count.
pub fn writers(sizes: &[u16]) -> usize
    ensures { let counted = configured_sizes sizes.now in
        (result ≡ length counted)
        × (result ≤ MOST_WRITERS)
        × (result ≤ length sizes.now)
        × (take result sizes.now ≡ counted) }
{
    sizes.len().min(MOST_WRITERS)
}
