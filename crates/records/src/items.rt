// Items that may be absent, as numbers of a record.
ghost use Rattle.std.specs.Prelude.{◌≡◌, ◌≤◌, ℕ};
ghost use Rattle.wire.specs.Number.{signed, unsigned};
ghost use Rattle.records.specs.Items.{is_on, given, fits_item, has_item, value, flag_number};
ghost use Rattle.config.specs.Writers.{at_most};

use wire::item::signed64;
use wire_writer::store::unsigned64;

// Whether a number of a record says "present".
pub fn is_on(n: u64) -> bool
    ensures { result ≡ is_on n }
{
    n != 0
}

// A number, or the most that it may be.
pub fn at_most(most: u64, v: u64) -> u64
    ensures { (result ≡ at_most most v) × (result ≤ most) }
{
    v.min(most)
}

// Whether the number of an item fits it: where the item is present, the number is at most the largest that does.
pub fn fits_item(on: bool, most: u64, v: u64) -> bool
    ensures { result ≡ fits_item on most v }
{
    !on || v <= most
}

// An item that a record has as a number.
pub trait Numbered: Copy {
    // the item that a number stands for, and the number of an item
    ghost from_number: { ℕ → Self };

    ghost to_number: { Self → ℕ };

    // The item that a number stands for.
    fn of_number(v: u64) -> Self
        ensures { result ≡ from_number v };

    // The number of an item.
    fn number(self) -> u64
        ensures { result ≡ to_number self };
}

// Of 2 bytes; a number that does not fit counts as the largest that does.
impl Numbered for u16 {
    ghost from_number = { at_most 65535 };

    ghost to_number = { λ v. v };

    fn of_number(v: u64) -> u16 {
        at_most(65535, v) as u16
    }

    fn number(self) -> u64 {
        self as u64
    }
}

// Of 4 bytes; a number that does not fit counts as the largest that does.
impl Numbered for u32 {
    ghost from_number = { at_most 4294967295 };

    ghost to_number = { λ v. v };

    fn of_number(v: u64) -> u32 {
        at_most(4294967295, v) as u32
    }

    fn number(self) -> u64 {
        self as u64
    }
}

// Signed, of 8 bytes, by two's complement.
impl Numbered for i64 {
    ghost from_number = { signed 8 };

    ghost to_number = { unsigned 8 };

    fn of_number(v: u64) -> i64 {
        signed64(v)
    }

    fn number(self) -> u64 {
        unsigned64(self)
    }
}

// An item where it is said to be present, by its number.
pub fn given<T: Numbered>(on: bool, v: u64) -> Option<T>
    ensures { result ≡ given T.from_number on v }
{
    if on {
        return Some(T::of_number(v));
    }
    None
}

// 1 where the item is there, else 0.
pub fn has<T: Numbered>(x: Option<T>) -> u64
    ensures { (result ≡ has_item x) × (result ≤ 1) }
{
    flag_number(x.is_some())
}

// The item's number, 0 where it is absent.
pub fn value<T: Numbered>(x: Option<T>) -> u64
    ensures { result ≡ value T.to_number x }
{
    match x {
        None => 0,
        Some(v) => v.number(),
    }
}

// A flag as 1 or 0.
pub fn flag_number(b: bool) -> u64
    ensures { (result ≡ flag_number b) × (result ≤ 1) }
{
    b as u64
}
