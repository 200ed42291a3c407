// A PublisherId in a record: the number of its type, and its number.
// The C interface has numbers for kinds: here they become the enum and go back. Any number has an answer.
ghost use Rattle.std.specs.Prelude.{◌≡◌};
ghost use Rattle.records.specs.Publisher.{publisher_by, publisher_most, publisher_given, publisher_number_fits, publisher_number};

use crate::items::at_most;
use publisher_id::publisher::PublisherId;

// The PublisherId of a type's number and a number, of which the lowest bytes count.
pub fn publisher_by(code: u64, v: u64) -> PublisherId
    ensures { result ≡ publisher_by code v }
{
    match code {
        1 => PublisherId::Byte((v % 256) as u8),
        2 => PublisherId::UInt16((v % 65536) as u16),
        3 => PublisherId::UInt32((v % 4294967296) as u32),
        4 => PublisherId::UInt64(v),
        5 => PublisherId::Text(v as usize),
        _ => PublisherId::Absent,
    }
}

// The largest number of an id of a type.
fn publisher_most(code: u64) -> u64
    ensures { result ≡ publisher_most code }
{
    match code {
        1 => 255,
        2 => 65535,
        3 => 4294967295,
        _ => 18446744073709551615,
    }
}

// The PublisherId of a type's number and a number; a number that does not fit counts as the largest that does.
pub fn publisher_given(code: u64, v: u64) -> PublisherId
    ensures { result ≡ publisher_given code v }
{
    publisher_by(code, at_most(publisher_most(code), v))
}

// Whether a PublisherId's number fits its type.
pub fn publisher_number_fits(code: u64, v: u64) -> bool
    ensures { result ≡ publisher_number_fits code v }
{
    v <= publisher_most(code)
}

// A PublisherId's number; of a String its length.
pub fn publisher_number(x: PublisherId) -> u64
    ensures { result ≡ publisher_number x }
{
    match x {
        PublisherId::Absent => 0,
        PublisherId::Byte(v) => v as u64,
        PublisherId::UInt16(v) => v as u64,
        PublisherId::UInt32(v) => v as u64,
        PublisherId::UInt64(v) => v,
        PublisherId::Text(n) => n as u64,
    }
}
