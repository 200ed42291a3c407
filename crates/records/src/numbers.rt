// The numbers of a record.
ghost use Rattle.std.specs.Prelude.{◌≡◌, ◌+◌, ◌*◌, ◌≤◌, length};
ghost use Rattle.std.proofs.lemmas.List.Edits.{sets};
ghost use Rattle.wire_writer.specs.Store.{laid};
ghost use Rattle.records.specs.Numbers.{number_at, number_bytes, all_bytes};

use wire::item::Item;
use wire_writer::store::Store;

// Number i of a record, 0 where it does not fit. The test keeps 8 * i in range; for a constant i it costs nothing.
pub fn number(s: &[u8], i: usize) -> u64
    ensures { result ≡ number_at s.now i }
{
    if 2305843009213693951 < i {
        return 0;
    }
    match u64::read(s, 8 * i) {
        Ok((v, _)) => v,
        Err(_) => 0,
    }
}

// Stores items of the same type, one after the other.
pub(crate) fn put_each<T: Store>(out: &mut [u8], start: usize, items: &[T])
    requires { start + length (all_bytes T.bytes items.now) ≤ length out.old }
    ensures { out.new ≡ sets out.old start (all_bytes T.bytes items.now) }
{
    let mut at = start;
    for item in items {
        at = item.put(out, at);
    }
}

// Stores the numbers of a record from its number i on; where they do not all fit, none.
pub fn put_numbers_from(out: &mut [u8], i: usize, numbers: &[u64])
    ensures { out.new ≡ laid out.old (8 * i) (number_bytes numbers.now) }
{
    let room = out.len() / 8;
    if room < i {
        return;
    }
    if room - i < numbers.len() {
        return;
    }
    put_each(out, 8 * i, numbers);
}

// Stores the numbers of a record from its start; where they do not all fit, none.
pub fn put_numbers(out: &mut [u8], numbers: &[u64])
    ensures { out.new ≡ laid out.old 0 (number_bytes numbers.now) }
{
    put_numbers_from(out, 0, numbers);
}
