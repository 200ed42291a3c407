// Items and runs of bytes stored into a lent buffer.
ghost use Rattle.std.specs.Prelude.{◌≡◌, ◌+◌, ◌≤◌, List, ℕ, length};
ghost use Rattle.std.proofs.lemmas.List.Edits.{sets};
ghost use Rattle.wire.specs.Number.{le_bytes, unsigned};
ghost use Rattle.wire.specs.Items.{guid_bytes};
ghost use Rattle.wire_writer.specs.Store.{laid, Stored};
ghost use Rattle.wire.proofs.Numbers.{length_le_bytes, guid_wide};

use wire::item::Item;
use wire::{Guid, has};

// An item that can be stored. Where its bytes fit as a whole, it is stored, and the answer is the position after it; where they do not
// fit, nothing is stored, and the answer is the position unchanged.
pub trait Store: Item {
    // the bytes of a value
    ghost bytes: { Self → List ℕ };

    // Stores a value's bytes where they fit, else nothing.
    fn lay(self, out: &mut [u8], at: usize)
        ensures { out.new ≡ laid out.old at (bytes self) };

    // there are as many of them as the item has
    ghost wide: { (v : Self) → length (bytes v) ≡ Self.WIDTH };

    // Stores a value.
    final fn put(self, out: &mut [u8], at: usize) -> usize
        ensures { Stored (bytes self) out.old at out.new result }
    {
        if has(out.len(), at, Self::WIDTH) {
            self.lay(out, at);
            return at + Self::WIDTH;
        }
        at
    }
}

// The lowest 1, 2, 4 and 8 bytes of a number, lowest first.
fn store1(out: &mut [u8], at: usize, v: u64)
    requires { at + 1 ≤ length out.old }
    ensures { out.new ≡ sets out.old at (le_bytes 1 v) }
{
    out[at] = (v % 256) as u8;
}

fn store2(out: &mut [u8], at: usize, v: u64)
    requires { at + 2 ≤ length out.old }
    ensures { out.new ≡ sets out.old at (le_bytes 2 v) }
{
    store1(out, at, v);
    store1(out, at + 1, v / 256);
}

fn store4(out: &mut [u8], at: usize, v: u64)
    requires { at + 4 ≤ length out.old }
    ensures { out.new ≡ sets out.old at (le_bytes 4 v) }
{
    store2(out, at, v);
    store2(out, at + 2, v / 65536);
}

fn store8(out: &mut [u8], at: usize, v: u64)
    requires { at + 8 ≤ length out.old }
    ensures { out.new ≡ sets out.old at (le_bytes 8 v) }
{
    store4(out, at, v);
    store4(out, at + 4, v / 4294967296);
}

impl Store for u8 {
    ghost bytes = { le_bytes 1 };

    ghost wide = { length_le_bytes 1 };

    fn lay(self, out: &mut [u8], at: usize) {
        if has(out.len(), at, 1) {
            store1(out, at, self as u64);
        }
    }
}

impl Store for u16 {
    ghost bytes = { le_bytes 2 };

    ghost wide = { length_le_bytes 2 };

    fn lay(self, out: &mut [u8], at: usize) {
        if has(out.len(), at, 2) {
            store2(out, at, self as u64);
        }
    }
}

impl Store for u32 {
    ghost bytes = { le_bytes 4 };

    ghost wide = { length_le_bytes 4 };

    fn lay(self, out: &mut [u8], at: usize) {
        if has(out.len(), at, 4) {
            store4(out, at, self as u64);
        }
    }
}

impl Store for u64 {
    ghost bytes = { le_bytes 8 };

    ghost wide = { length_le_bytes 8 };

    fn lay(self, out: &mut [u8], at: usize) {
        if has(out.len(), at, 8) {
            store8(out, at, self);
        }
    }
}

// A signed number of 8 bytes, as the number that stands for it.
pub fn unsigned64(v: i64) -> u64
    ensures { result ≡ unsigned 8 v }
{
    if v < 0 {
        return 18446744073709551615 - ((-1 - v) as u64);
    }
    v as u64
}

impl Store for i64 {
    ghost bytes = { λ v. le_bytes 8 (unsigned 8 v) };

    ghost wide = { λ v. length_le_bytes 8 (unsigned 8 v) };

    fn lay(self, out: &mut [u8], at: usize) {
        if has(out.len(), at, 8) {
            store8(out, at, unsigned64(self));
        }
    }
}

impl Store for Guid {
    ghost bytes = { guid_bytes };

    ghost wide = { guid_wide };

    fn lay(self, out: &mut [u8], at: usize) {
        if has(out.len(), at, 16) {
            store8(out, at, self.low);
            store8(out, at + 8, self.high);
        }
    }
}

// A run of bytes, stored as an item is.
pub fn put_run(out: &mut [u8], at: usize, src: &[u8]) -> usize
    ensures { Stored src.now out.old at out.new result }
{
    if !has(out.len(), at, src.len()) {
        return at;
    }
    let end = at + src.len();
    out[at..end].copy_from_slice(src);
    end
}
