// Refusals as results.
ghost use Rattle.std.specs.Prelude.{◌≡◌};
ghost use Rattle.records.specs.Result.{result_of};
ghost use Rattle.wire.specs.Refusal.{reason_number};

use records::result::result;
use wire::refusal::{Reason, Refusal};

// The number and the place of a refusal.
pub(crate) fn refused(r: Refusal) -> u64
    ensures { result ≡ result_of (reason_number r.reason) r.place }
{
    result(r.reason.number(), r.place)
}

// The number of a reason, with place 0.
pub(crate) fn refused_for(reason: Reason) -> u64
    ensures { result ≡ result_of (reason_number reason) 0 }
{
    refused(reason.at(0))
}
