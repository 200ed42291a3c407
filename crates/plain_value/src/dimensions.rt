// The dimensions list that follows an array's elements.
ghost use Rattle.std.specs.Prelude.{◌≡◌, cond, ◌+◌, ◌*◌, ◌≤◌, ◌<◌, ltb, length};
ghost use Rattle.wire.specs.Number.{le, signed};
ghost use Rattle.wire.specs.Refusal.{answer, rule_number};
ghost use Rattle.plain_value.specs.Dimensions.{fours, below_one, sizes_rule, sizes, dimensions, given_sizes_rule};

use wire::item::{Item, signed32};
use wire::refusal::{Read, Reason};
use wire::{Length, has, read_length};

// Whether a dimension is below 1.
fn below_one(d: u32) -> bool
    ensures { result ≡ below_one (signed 4 d) }
{
    signed32(d) < 1
}

// The product with a further dimension; one that is above the count already stays, so that nothing wraps.
fn times(product: u64, d: u32, n: u32) -> u64
    ensures { result ≡ cond (ltb n product) product (product * d) }
{
    if (n as u64) < product {
        return product;
    }
    product * (d as u64)
}

// Refuses the k dimensions at a position, of an array of n elements, by the first rule that they break.
fn sizes_rule(s: &[u8], at: usize, k: usize, n: u32) -> Result<(), Reason>
    requires { at + 4 * k ≤ length s.now }
    ensures { rule_number result ≡ sizes_rule n (fours k (le (4 * k) s.now at)) }
{
    let mut product: u64 = 1;
    for i in 0..k {
        let d = u32::of(s, at + 4 * i);
        if below_one(d) {
            return Err(Reason::BadLength);
        }
        product = times(product, d, n);
    }
    if product == (n as u64) {
        return Ok(());
    }
    Err(Reason::Disagree)
}

// How many dimensions an array of n elements has, by the k dimensions at a position.
fn sizes_at(s: &[u8], at: usize, k: u32, n: u32) -> Read<u32>
    ensures { answer result ≡ sizes n k s.now at }
{
    let size = 4 * (k as usize);
    if !has(s.len(), at, size) {
        return Err(Reason::CutShort.at(at));
    }
    match sizes_rule(s, at, k as usize, n) {
        Ok(_) => Ok((k, at + size)),
        Err(reason) => Err(reason.at(at)),
    }
}

// How many dimensions an array of n elements has, by their list.
#[tactic(auto, unfolding(crate::specs::Dimensions::dimensions))]
pub fn dimensions_at(s: &[u8], at: usize, n: u32) -> Read<u32>
    ensures { answer result ≡ dimensions n s.now at }
{
    let (length, next) = read_length(s, at)?;
    match length {
        Length::Of(k) if 0 < k => sizes_at(s, next, k as u32, n),
        _ => Err(Reason::BadLength.at(at)),
    }
}

// Refuses dimensions that are handed over as they are to stand, 4 bytes each, of an array of n elements, by the first rule that they break.
pub fn given_sizes_rule(sizes: &[u8], n: u32) -> Result<(), Reason>
    ensures { rule_number result ≡ given_sizes_rule n sizes.now }
{
    if sizes.len() % 4 != 0 {
        return Err(Reason::Disagree);
    }
    if sizes.is_empty() {
        return Err(Reason::BadLength);
    }
    sizes_rule(sizes, 0, sizes.len() / 4, n)
}
