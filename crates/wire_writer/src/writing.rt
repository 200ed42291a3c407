// Words that the writers share: rules of room and of picoseconds, flags as numbers, and items that a flag announces.
ghost use Rattle.std.specs.Prelude.{◌≡◌, cond, ◌≤◌, length};
ghost use Rattle.wire.specs.Constants.{DISAGREE};
ghost use Rattle.wire.specs.Refusal.{rule_number};
ghost use Rattle.wire_writer.specs.Store.{Stored};
ghost use Rattle.wire_writer.specs.Writing.{room_refusal, num, picoseconds_rule, picoseconds_refusal, byte_bytes, needed, optional_bytes};

use crate::store::Store;
use wire::constants::{MOST_DATAGRAM, PICOSECONDS_END};
use wire::refusal::Reason;

// Refuses so many bytes in a buffer of `room` bytes: above 65,535 they are over a limit, and then there may be no room.
pub fn room_rule(size: usize, room: usize) -> Result<(), Reason>
    ensures { rule_number result ≡ room_refusal size room }
{
    if MOST_DATAGRAM < size {
        return Err(Reason::OverLimit);
    }
    if room < size {
        return Err(Reason::NoRoom);
    }
    Ok(())
}

// A flag as the number of its bit.
pub fn flag(on: bool) -> u8
    ensures { (result ≡ num on) × (result ≤ 1) }
{
    on as u8
}

// Whether a flag byte is there, as the number of the bit that announces it.
pub fn announced(e: u8) -> u8
    ensures { (result ≡ needed e) × (result ≤ 1) }
{
    flag(e != 0)
}

// A flag byte, which is left out where it would be 0.
pub fn put_flag_byte(out: &mut [u8], at: usize, e: u8) -> usize
    ensures { Stored (byte_bytes e) out.old at out.new result }
{
    if e == 0 {
        return at;
    }
    e.put(out, at)
}

// How many bytes an item takes, where it is there.
pub fn size_of<T: Store>(x: Option<T>) -> usize
    ensures { (result ≡ length (optional_bytes T.bytes x)) × (result ≤ T.WIDTH) }
{
    match x {
        None => 0,
        Some(_) => T::WIDTH,
    }
}

// An item where it is there: stored as by `put`.
pub fn put_optional<T: Store>(out: &mut [u8], at: usize, x: Option<T>) -> usize
    ensures { Stored (optional_bytes T.bytes x) out.old at out.new result }
{
    match x {
        None => at,
        Some(v) => v.put(out, at),
    }
}

// Refuses picoseconds of 10,000 or more, which the writers do not take.
pub fn picoseconds_rule(v: u16) -> Result<(), Reason>
    ensures { rule_number result ≡ picoseconds_rule v }
{
    if PICOSECONDS_END <= v {
        return Err(Reason::NotPermitted);
    }
    Ok(())
}

// The same of picoseconds that a flag announces.
pub fn optional_picoseconds_rule(x: Option<u16>) -> Result<(), Reason>
    ensures { rule_number result ≡ picoseconds_refusal x }
{
    match x {
        None => Ok(()),
        Some(v) => picoseconds_rule(v),
    }
}

// Refuses where something would read back otherwise.
pub fn agreement_rule(agrees: bool) -> Result<(), Reason>
    ensures { rule_number result ≡ cond agrees 0 DISAGREE }
{
    if agrees {
        return Ok(());
    }
    Err(Reason::Disagree)
}
