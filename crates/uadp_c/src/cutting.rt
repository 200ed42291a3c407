// Cutting a payload into chunks.
ghost use Rattle.std.specs.Prelude.{◌≡◌, length};
ghost use Rattle.chunk.specs.Cutting.{cut_answer, cut_buffer};
ghost use Rattle.uadp_c.specs.Cutting.{cut_result};

use crate::rewrites::written_result;
use chunk::cut::cut;

// Writes chunk k of a payload, cut into chunks of size bytes of data.
#[unsafe(no_mangle)]
pub extern "C" fn uadp_cut(payload: &[u8], number: u16, size: u64, k: u64, out: &mut [u8]) -> u64
    ensures { (result ≡ cut_result (cut_answer payload.now number size k (length out.old)))
        × (out.new ≡ cut_buffer payload.now number size k out.old) }
{
    written_result(cut(out, payload, number, size as usize, k as usize))
}
