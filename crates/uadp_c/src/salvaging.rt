// What is salvaged of a partial that never completes.
ghost use Rattle.std.specs.Prelude.{◌≡◌};
ghost use Rattle.salvage.specs.Front.{numbered};
ghost use Rattle.uadp_c.specs.Salvaging.{salvaged_result, salvage_lent, Salvages};

use crate::refusals::{refused, refused_for};
use partial_record::partial_in;
use partial_record::salvage_record::salvage;
use reassembly::progress;
use records::result::result;
use records::sizes::PARTIAL_SIZE;
use records::writers::types_for;
use wire::refusal::{Reason, Refusal};

fn salvaged_result(s: Result<usize, Refusal>) -> u64
    ensures { result ≡ salvaged_result (numbered s) }
{
    match s {
        Ok(n) => result(0, n),
        Err(refusal) => refused(refusal),
    }
}

// Puts the holes of a partial and its leading fields that are whole into a list, and what is to be told of them into a record. The partial
// stays as it is.
#[unsafe(no_mangle)]
pub extern "C" fn uadp_salvage(
    rec: &[u8],
    payload: &[u8],
    marks: &[u8],
    config: &[u8],
    told: &mut [u8],
    list: &mut [u8],
) -> u64
    ensures { let saved = salvage_lent rec.now payload.now marks.now config.now in
        Salvages (saved told.old list.old) result told.new list.new }
{
    if rec.len() < PARTIAL_SIZE {
        return refused_for(Reason::Unsound);
    }
    let held = partial_in(rec);
    match progress(held, payload, marks) {
        Err(refusal) => refused(refusal),
        Ok((_, total)) => {
            let types = types_for(config, held.message.origin.writer as u32);
            salvaged_result(salvage(told, list, payload, marks, types, total))
        }
    }
}
