// Judging a sequence number.
ghost use Rattle.std.specs.Prelude.{◌≡◌};
ghost use Rattle.uadp_c.specs.Sequence.{newness_result, newness_after};

use crate::refusals::refused_for;
use records::last_number::{last_in, put_last};
use records::result::result;
use records::sizes::SEQUENCE_SIZE;
use sequence::{Newness, noted};
use wire::refusal::Reason;

// Judges a received number by the record of the last one; "newer" alone changes the record.
#[unsafe(no_mangle)]
pub extern "C" fn uadp_newness(last: &mut [u8], received: u16) -> u64
    ensures { (result ≡ newness_result last.old received) × (last.new ≡ newness_after last.old received) }
{
    if last.len() < SEQUENCE_SIZE {
        return refused_for(Reason::NoRoom);
    }
    let judged = noted(last_in(last), received);
    match judged.newness {
        Newness::Newer => {
            put_last(last, judged.last.number);
            result(0, 0)
        }
        Newness::OldOrSame => result(0, 1),
        Newness::Invalid => result(0, 2),
    }
}
