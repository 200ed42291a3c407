// Flags1 and Flags2 of a DataSetMessage.
ghost use Rattle.std.specs.Prelude.{◌≡◌, ◌≤◌};
ghost use Rattle.wire.specs.Answer.{map_answer};
ghost use Rattle.wire.specs.Refusal.{answer, rule_number};
ghost use Rattle.dataset_header.specs.Flags.{encoding_of, kind_of, flags1_rule, flags2_rule, flags2_at, message_flags_of, message_flags_at, is_delta, is_raw, validity, encoding_number, kind_number, flags1_of, flags2_of, message_flag_bytes, kind_rule};
ghost use Rattle.wire_writer.specs.Writing.{Puts};

use crate::header::Header;
use wire::item::Item;
use wire::refusal::{Read, Reason};
use wire_writer::store::Store;
use wire_writer::writing::{announced, flag, put_flag_byte};

// How the fields of a message are encoded, by the number in Flags1.
#[derive(Clone, Copy, PartialEq, Eq, Debug)]
pub enum Encoding {
    Variant = 0,
    RawData = 1,
    DataValue = 2,
}

// What a message holds, by the number in Flags2: all fields, those that changed, an event, or none.
#[derive(Clone, Copy, PartialEq, Eq, Debug)]
pub enum Kind {
    Key = 0,
    Delta = 1,
    Event = 2,
    KeepAlive = 3,
}

// What the flag bytes say.
#[derive(Clone, Copy, PartialEq, Eq, Debug)]
pub struct Flags {
    pub encoding: Encoding,
    pub kind: Kind,
    pub sequence: bool,
    pub status: bool,
    pub major: bool,
    pub minor: bool,
    pub timestamp: bool,
    pub picoseconds: bool,
}

fn encoding_of(b: u8) -> Encoding
    ensures { result ≡ encoding_of b }
{
    match (b >> 1) % 4 {
        0 => Encoding::Variant,
        1 => Encoding::RawData,
        _ => Encoding::DataValue,
    }
}

fn kind_of(f: u8) -> Kind
    ensures { result ≡ kind_of f }
{
    match f % 16 {
        0 => Kind::Key,
        1 => Kind::Delta,
        2 => Kind::Event,
        _ => Kind::KeepAlive,
    }
}

// Whether a message is a delta frame.
pub fn is_delta(kind: Kind) -> bool
    ensures { result ≡ is_delta kind }
{
    matches!(kind, Kind::Delta)
}

// Whether fields are RawData.
pub fn is_raw(encoding: Encoding) -> bool
    ensures { result ≡ is_raw encoding }
{
    matches!(encoding, Encoding::RawData)
}

fn flags1_rule(b: u8) -> Result<(), Reason>
    ensures { rule_number result ≡ flags1_rule b }
{
    if (b >> 1) % 4 == 3 {
        return Err(Reason::NotPermitted);
    }
    Ok(())
}

// The rule that Flags2 breaks after Flags1 b, if any.
fn flags2_rule(b: u8, f: u8) -> Result<(), Reason>
    ensures { rule_number result ≡ flags2_rule b f }
{
    if f == 0 {
        return Err(Reason::NotPermitted);
    }
    if 4 <= f % 16 {
        return Err(Reason::NotPermitted);
    }
    if 64 <= f {
        return Err(Reason::NotPermitted);
    }
    if (f % 16 == 2) & ((b >> 1) % 4 != 0) {
        return Err(Reason::NotPermitted);
    }
    if (f % 16 == 1) & ((b >> 1) % 4 == 1) {
        return Err(Reason::NotTaken);
    }
    Ok(())
}

fn flags2(s: &[u8], b: u8, at: usize) -> Read<u8>
    ensures { answer result ≡ flags2_at b s.now at }
{
    if b < 128 {
        return Ok((0, at));
    }
    let (f, next) = u8::read(s, at)?;
    flags2_rule(b, f).map_err(|reason| reason.at(at))?;
    Ok((f, next))
}

fn flags_of(b: u8, f: u8) -> Flags
    ensures { result ≡ message_flags_of b f }
{
    let encoding = encoding_of(b);
    let kind = kind_of(f);
    Flags {
        encoding,
        kind,
        sequence: (b >> 3) % 2 == 1,
        status: (b >> 4) % 2 == 1,
        major: (b >> 5) % 2 == 1,
        minor: (b >> 6) % 2 == 1,
        timestamp: (f >> 4) % 2 == 1,
        picoseconds: (f >> 5) % 2 == 1,
    }
}

// The flag bytes at the start of a message; none of a message that is not valid.
pub fn read_flags(s: &[u8]) -> Read<Option<Flags>>
    ensures { map_answer validity (answer result) ≡ message_flags_at s.now 0 }
{
    let (b, next) = u8::read(s, 0)?;
    if b % 2 == 0 {
        return Ok((None, next));
    }
    flags1_rule(b).map_err(|reason| reason.at(0))?;
    let (f, next) = flags2(s, b, next)?;
    Ok((Some(flags_of(b, f)), next))
}

// The number of an encoding in Flags1.
pub fn encoding_number(encoding: Encoding) -> u8
    ensures { (result ≡ encoding_number encoding) × (result ≤ 2) }
{
    encoding as u8
}

// The number of a kind in Flags2.
pub fn kind_number(kind: Kind) -> u8
    ensures { (result ≡ kind_number kind) × (result ≤ 3) }
{
    kind as u8
}

// Flags2 of a header.
pub fn flags2_of(header: Header) -> u8
    ensures { result ≡ flags2_of header }
{
    kind_number(header.kind)
        + (16 * flag(header.timestamp.is_some()) + 32 * flag(header.picoseconds.is_some()))
}

fn flags1_of(header: Header, flags2: u8) -> u8
    requires { flags2 ≡ flags2_of header }
    ensures { result ≡ flags1_of header }
{
    let sequence = flag(header.sequence.is_some());
    let status = flag(header.status.is_some());
    let major = flag(header.major.is_some());
    let minor = flag(header.minor.is_some());
    let versions = 32 * major + (64 * minor + 128 * announced(flags2));
    1 + (2 * encoding_number(header.encoding) + (8 * sequence + (16 * status + versions)))
}

// Flags1, and Flags2 where it is not 0.
pub(crate) fn put_flags(out: &mut [u8], header: Header) -> usize
    ensures { Puts (message_flag_bytes header) out.old 0 out.new result }
{
    let flags2 = flags2_of(header);
    let flags1 = flags1_of(header, flags2);
    let at = flags1.put(out, 0);
    put_flag_byte(out, at, flags2)
}

// Refuses a kind in an encoding that it does not come in.
pub fn kind_rule(kind: Kind, encoding: Encoding) -> Result<(), Reason>
    ensures { rule_number result ≡ kind_rule kind encoding }
{
    match (kind, encoding) {
        (Kind::Delta, Encoding::RawData) => Err(Reason::NotTaken),
        (Kind::Event, Encoding::RawData | Encoding::DataValue) => Err(Reason::NotPermitted),
        _ => Ok(()),
    }
}
