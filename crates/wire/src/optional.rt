// Items that a flag announces: absent where the flag is off.
ghost use Rattle.std.specs.Prelude.{◌≡◌};
ghost use Rattle.wire.specs.Answer.{taking};
ghost use Rattle.wire.specs.Optional.{optional, picoseconds_read, picoseconds_at};
ghost use Rattle.wire.specs.Refusal.{answer};

use crate::constants::{MOST_PICOSECONDS, PICOSECONDS_END};
use crate::item::Item;
use crate::refusal::Read;

// An item where its flag is on.
pub fn read_optional<T: Item>(s: &[u8], on: bool, at: usize) -> Read<Option<T>>
    ensures { answer result ≡ optional (taking T.WIDTH T.value) on s.now at }
{
    if !on {
        return Ok((None, at));
    }
    let (v, next) = T::read(s, at)?;
    Ok((Some(v), next))
}

// What picoseconds read as: 10,000 or more as 9,999.
pub fn picoseconds_read(v: u16) -> u16
    ensures { result ≡ picoseconds_read v }
{
    if PICOSECONDS_END <= v {
        return MOST_PICOSECONDS;
    }
    v
}

// Picoseconds where their flag is on; no value of them is refused.
pub fn read_picoseconds(s: &[u8], on: bool, at: usize) -> Read<Option<u16>>
    ensures { answer result ≡ picoseconds_at on s.now at }
{
    let (v, next) = read_optional(s, on, at)?;
    Ok((v.map(picoseconds_read), next))
}
