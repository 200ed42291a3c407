// A Variant that is an array with dimensions, put into a lent buffer from its elements' bytes and its dimensions.
// A type goes by its number: any byte may stand for one, on the wire and in the lists of types that are lent, and each is answered. An enum
// would have to be made of it at each field, and is no plainer.
ghost use Rattle.std.specs.Prelude.{◌≡◌, ◌<◌, length};
ghost use Rattle.wire.specs.Refusal.{rule_number};
ghost use Rattle.wire_writer.specs.Writing.{Puts, Writes};
ghost use Rattle.value_parts.specs.PutMatrix.{matrix_head, sizes_bytes, matrix_rule, matrix_output};

use crate::put::{array_form, array_rule, elements};
use plain_value::dimensions::given_sizes_rule;
use wire::constants::MOST_DATAGRAM;
use wire::refusal::Reason;
use wire_writer::store::{Store, put_run};
use wire_writer::writing::room_rule;

// How many bytes a matrix has beside its elements and dimensions: its first byte, and both counts.
const FRAME: usize = 9;

// Refuses a matrix by the first rule that it breaks.
#[tactic(auto, using(crate::proofs::StoringNames::matrix_as_array))]
fn matrix_rule(t: u8, sizes: &[u8], n: usize) -> Result<(), Reason>
    ensures { rule_number result ≡ matrix_rule t sizes.now n }
{
    if 64 <= t {
        return Err(Reason::NotTaken);
    }
    array_rule(t)?;
    array_form(t, n)?;
    if MOST_DATAGRAM < n {
        return Err(Reason::OverLimit);
    }
    given_sizes_rule(sizes, elements(t, n) as u32)
}

// Stores what stands before a matrix's elements, which have n bytes, at the buffer's start, and answers the position after it.
fn put_matrix_head(out: &mut [u8], t: u8, n: usize) -> usize
    requires { (t < 64) × (n < 65536) }
    ensures { Puts (matrix_head t n) out.old 0 out.new result }
{
    let at = (t + 192).put(out, 0);
    (elements(t, n) as u32).put(out, at)
}

// Stores a dimensions list at a position, and answers the position after it.
fn put_sizes(out: &mut [u8], at: usize, sizes: &[u8]) -> usize
    requires { length sizes.now < 65536 }
    ensures { Puts (sizes_bytes sizes.now) out.old at out.new result }
{
    let next = ((sizes.len() / 4) as u32).put(out, at);
    put_run(out, next, sizes)
}

// Puts a Variant that is an array of a fixed type with dimensions at the buffer's start: the bytes of its elements, the last dimension's
// index rising first, and its dimensions, 4 bytes each, as they are to stand. What reading would refuse is refused by the same number,
// other types by 4, bytes that are not whole elements or dimensions by 6, more than 65,535 bytes by 10, then 11.
pub fn put_matrix(out: &mut [u8], t: u8, sizes: &[u8], bytes: &[u8]) -> Result<usize, Reason>
    ensures { let output = matrix_output t sizes.now bytes.now in
        Writes output out.old out.new result }
{
    matrix_rule(t, sizes, bytes.len())?;
    if MOST_DATAGRAM < sizes.len() {
        return Err(Reason::OverLimit);
    }
    let size = FRAME + bytes.len() + sizes.len();
    room_rule(size, out.len())?;
    let at = put_matrix_head(out, t, bytes.len());
    let next = put_run(out, at, bytes);
    put_sizes(out, next, sizes);
    Ok(size)
}
