// The sequence record: the last sequence number that was newer.
ghost use Rattle.std.specs.Prelude.{◌≡◌};
ghost use Rattle.records.specs.LastNumber.{last_in, last_laid};

use crate::numbers::{number, put_numbers};
use sequence::LastSequenceNumber;

// The record of the last number.
pub fn last_in(s: &[u8]) -> LastSequenceNumber
    ensures { result ≡ last_in s.now }
{
    LastSequenceNumber {
        seen: number(s, 0) != 0,
        number: (number(s, 1) % 65536) as u16,
    }
}

// Stores the last number in a sequence record.
pub fn put_last(out: &mut [u8], number: u16)
    ensures { out.new ≡ last_laid number out.old }
{
    let numbers = [1, number as u64];
    put_numbers(out, &numbers);
}
