// What a function of the library answers.
ghost use Rattle.std.specs.Prelude.{◌≡◌};
ghost use Rattle.records.specs.Result.{result_of};

// The largest value that stands above a number.
const MOST: usize = 72057594037927935;

// Document 01's number, and above it the value or the place, at most 2^56 - 1.
pub fn result(number: u8, value: usize) -> u64
    ensures { result ≡ result_of number value }
{
    number as u64 + 256 * (value.min(MOST) as u64)
}
