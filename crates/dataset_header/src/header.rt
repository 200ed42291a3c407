// The header of a DataSetMessage, after its flags.
ghost use Rattle.std.specs.Prelude.{◌≡◌, ◌≤◌, length};
ghost use Rattle.dataset_header.specs.Flags.{validity};
ghost use Rattle.dataset_header.specs.Header.{message_times_at, versions_at, header_of, message_header_at, times_bytes, versions_bytes, message_header_bytes, message_picoseconds_place};
ghost use Rattle.wire.specs.Answer.{map_answer};
ghost use Rattle.wire.specs.Refusal.{answer};
ghost use Rattle.wire_writer.specs.Store.{Stored};
ghost use Rattle.wire_writer.specs.Writing.{Puts};

use crate::flags::{Encoding, Flags, Kind, flags2_of, put_flags, read_flags};
use wire::has;
use wire::optional::{read_optional, read_picoseconds};
use wire::refusal::Read;
use wire_writer::writing::{announced, put_optional, size_of};

// The header of a message, with each item that its flags announce.
#[derive(Clone, Copy, PartialEq, Eq, Debug)]
pub struct Header {
    pub encoding: Encoding,
    pub kind: Kind,
    pub sequence: Option<u16>,
    pub timestamp: Option<i64>,
    pub picoseconds: Option<u16>,
    pub status: Option<u16>,
    pub major: Option<u32>,
    pub minor: Option<u32>,
}

// The first items of a header.
#[derive(Clone, Copy, PartialEq, Eq, Debug)]
pub struct Times {
    pub sequence: Option<u16>,
    pub timestamp: Option<i64>,
    pub picoseconds: Option<u16>,
}

// The other items of a header.
#[derive(Clone, Copy, PartialEq, Eq, Debug)]
pub struct Versions {
    pub status: Option<u16>,
    pub major: Option<u32>,
    pub minor: Option<u32>,
}

fn read_times(s: &[u8], flags: Flags, at: usize) -> Read<Times>
    ensures { answer result ≡ message_times_at flags s.now at }
{
    let (sequence, at) = read_optional(s, flags.sequence, at)?;
    let (timestamp, at) = read_optional(s, flags.timestamp, at)?;
    let (picoseconds, at) = read_picoseconds(s, flags.picoseconds, at)?;
    let times = Times {
        sequence,
        timestamp,
        picoseconds,
    };
    Ok((times, at))
}

fn read_versions(s: &[u8], flags: Flags, at: usize) -> Read<Versions>
    ensures { answer result ≡ versions_at flags s.now at }
{
    let (status, at) = read_optional(s, flags.status, at)?;
    let (major, at) = read_optional(s, flags.major, at)?;
    let (minor, at) = read_optional(s, flags.minor, at)?;
    let versions = Versions {
        status,
        major,
        minor,
    };
    Ok((versions, at))
}

fn header_of(flags: Flags, t: Times, v: Versions) -> Header
    ensures { result ≡ header_of flags t v }
{
    Header {
        encoding: flags.encoding,
        kind: flags.kind,
        sequence: t.sequence,
        timestamp: t.timestamp,
        picoseconds: t.picoseconds,
        status: v.status,
        major: v.major,
        minor: v.minor,
    }
}

// The header of a message, which starts at its first byte; none of a message that is not valid.
pub fn read_header(s: &[u8]) -> Read<Option<Header>>
    ensures { map_answer validity (answer result) ≡ message_header_at s.now 0 }
{
    let (flags, at) = read_flags(s)?;
    let Some(flags) = flags else {
        return Ok((None, at));
    };
    let (t, at) = read_times(s, flags, at)?;
    let (v, at) = read_versions(s, flags, at)?;
    Ok((Some(header_of(flags, t, v)), at))
}

fn put_times(out: &mut [u8], at: usize, header: Header) -> usize
    ensures { Puts (times_bytes header) out.old at out.new result }
{
    let next = put_optional(out, at, header.sequence);
    let next = put_optional(out, next, header.timestamp);
    put_optional(out, next, header.picoseconds)
}

fn put_versions(out: &mut [u8], at: usize, header: Header) -> usize
    ensures { Puts (versions_bytes header) out.old at out.new result }
{
    let next = put_optional(out, at, header.status);
    let next = put_optional(out, next, header.major);
    put_optional(out, next, header.minor)
}

// Stores a header from the buffer's start, all or nothing: answers the position after it, or 0 where it does not fit.
pub fn put_header(out: &mut [u8], header: Header) -> usize
    ensures { Stored (message_header_bytes header) out.old 0 out.new result }
{
    if !has(out.len(), 0, header_size(header)) {
        return 0;
    }
    let next = put_flags(out, header);
    let next = put_times(out, next, header);
    put_versions(out, next, header)
}

// Where the picoseconds of a message stand: behind its two flag bytes, the sequence and the timestamp.
pub fn picoseconds_place(header: Header) -> usize
    ensures { (result ≡ message_picoseconds_place header) × (result ≤ 12) }
{
    2 + (size_of(header.sequence) + size_of(header.timestamp))
}

// How many bytes the header takes.
pub fn header_size(header: Header) -> usize
    ensures { (result ≡ length (message_header_bytes header)) × (result ≤ 24) }
{
    let flags = 1 + (announced(flags2_of(header)) as usize);
    let times = size_of(header.sequence)
        + (size_of(header.timestamp) + size_of(header.picoseconds));
    let versions = size_of(header.status) + (size_of(header.major) + size_of(header.minor));
    flags + (times + versions)
}
