// Judging a sequence number.
ghost use Rattle.std.specs.Prelude.{◌≡◌};
ghost use Rattle.uadp_c.specs.Sequence.{newness_result, newness_after};

// Judges a received number by the record of the last one; "newer" alone changes the record.
#[unsafe(no_mangle)]
pub extern "C" fn uadp_newness(last: &mut [u8], received: u16) -> u64
    ensures { (result ≡ newness_result last.old received) × (last.new ≡ newness_after last.old received) }
{
    uadp_c::newness::uadp_newness(last, received)
}
