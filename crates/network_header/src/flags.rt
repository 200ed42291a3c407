// Byte 0, ExtendedFlags1 and ExtendedFlags2.
ghost use Rattle.std.specs.Prelude.{◌≡◌, ◌≤◌, length};
ghost use Rattle.wire.specs.Answer.{ruled, when_on};
ghost use Rattle.wire.specs.Refusal.{answer, rule_number};
ghost use Rattle.network_header.specs.Flags.{byte0_rule, extended1_rule, probe_rule, extended2_rule, flags_at, flags_of, extended2_of, extended1_of, byte0_of, flag_bytes, flags_for, times_refusal, probe_refusal};
ghost use Rattle.wire_writer.specs.Store.{Stored};
ghost use Rattle.wire_writer.specs.Writing.{Puts};

use crate::envelope::Envelope;
use crate::header::{payload_header_on, probe_on};
use publisher_id::publisher::{kind_of, publisher_on};
use wire::has;
use wire::item::Item;
use wire::refusal::{Read, Reason};
use wire_writer::store::Store;
use wire_writer::writing::{announced, flag, put_flag_byte};

// What the flag bytes say.
#[derive(Clone, Copy, PartialEq, Eq, Debug)]
pub struct Flags {
    pub publisher: bool,
    pub group: bool,
    pub payload_header: bool,
    // a number of 3 bits, of which `read_publisher` judges those that stand for no type:
    // the PublisherId's type
    pub kind: u8,
    pub class_id: bool,
    pub timestamp: bool,
    pub picoseconds: bool,
    pub chunk: bool,
    pub promoted: bool,
    pub probe: bool,
}

fn byte0_rule(b: u8) -> Result<(), Reason>
    ensures { rule_number result ≡ byte0_rule b }
{
    if b % 16 != 1 {
        return Err(Reason::BadVersion);
    }
    Ok(())
}

fn extended1_rule(publisher: bool, e: u8) -> Result<(), Reason>
    ensures { rule_number result ≡ extended1_rule publisher e }
{
    if e == 0 {
        return Err(Reason::NotPermitted);
    }
    if publisher && 5 <= e % 8 {
        return Err(Reason::NotPermitted);
    }
    if (e >> 4) % 2 == 1 {
        return Err(Reason::NotTaken);
    }
    if (e >> 6) % 2 == 1 && (e >> 5) % 2 == 0 {
        return Err(Reason::NotPermitted);
    }
    Ok(())
}

// A probe's ExtendedFlags2, where the PayloadHeader is on or off.
fn probe_rule(header: bool, e: u8) -> Result<(), Reason>
    ensures { rule_number result ≡ probe_rule header e }
{
    if e % 2 == 1 {
        return Err(Reason::NotTaken);
    }
    if header {
        return Err(Reason::NotPermitted);
    }
    if (e >> 1) % 2 == 1 {
        return Err(Reason::NotPermitted);
    }
    Ok(())
}

fn extended2_rule(header: bool, e: u8) -> Result<(), Reason>
    ensures { rule_number result ≡ extended2_rule header e }
{
    if e == 0 {
        return Err(Reason::NotPermitted);
    }
    if 32 <= e {
        return Err(Reason::NotPermitted);
    }
    match (e >> 2) % 8 {
        0 => Ok(()),
        1 => probe_rule(header, e),
        2 => Err(Reason::NotTaken),
        _ => Err(Reason::NotPermitted),
    }
}

// Each flag byte has a reader of its own: one reader with a closure for the rule is no plainer, since its contract would have to say what
// the closure answers.
fn byte0(s: &[u8]) -> Read<u8>
    ensures { answer result ≡ ruled 1 byte0_rule s.now 0 }
{
    let (b, next) = u8::read(s, 0)?;
    byte0_rule(b).map_err(|reason| reason.at(0))?;
    Ok((b, next))
}

fn extended1(s: &[u8], on: bool, publisher: bool, at: usize) -> Read<u8>
    ensures { answer result ≡ when_on on 0 (ruled 1 (extended1_rule publisher)) s.now at }
{
    if !on {
        return Ok((0, at));
    }
    let (e, next) = u8::read(s, at)?;
    extended1_rule(publisher, e).map_err(|reason| reason.at(at))?;
    Ok((e, next))
}

fn extended2(s: &[u8], on: bool, header: bool, at: usize) -> Read<u8>
    ensures { answer result ≡ when_on on 0 (ruled 1 (extended2_rule header)) s.now at }
{
    if !on {
        return Ok((0, at));
    }
    let (e, next) = u8::read(s, at)?;
    extended2_rule(header, e).map_err(|reason| reason.at(at))?;
    Ok((e, next))
}

fn flags_of(b: u8, e: u8, f: u8) -> Flags
    ensures { result ≡ flags_of b e f }
{
    Flags {
        publisher: (b >> 4) % 2 == 1,
        group: (b >> 5) % 2 == 1,
        payload_header: (b >> 6) % 2 == 1,
        kind: e % 8,
        class_id: (e >> 3) % 2 == 1,
        timestamp: (e >> 5) % 2 == 1,
        picoseconds: (e >> 6) % 2 == 1,
        chunk: f % 2 == 1,
        promoted: (f >> 1) % 2 == 1,
        probe: (f >> 2) % 8 == 1,
    }
}

// The flag bytes at the start of the datagram.
pub fn read_flags(s: &[u8]) -> Read<Flags>
    ensures { answer result ≡ flags_at s.now 0 }
{
    let (b, at) = byte0(s)?;
    let (e, at) = extended1(s, b / 128 == 1, (b >> 4) % 2 == 1, at)?;
    let (f, at) = extended2(s, e / 128 == 1, (b >> 6) % 2 == 1, at)?;
    Ok((flags_of(b, e, f), at))
}

fn extended2_of(f: Flags) -> u8
    ensures { (result ≡ extended2_of f) × (result ≤ 7) }
{
    flag(f.chunk) + (2 * flag(f.promoted) + 4 * flag(f.probe))
}

fn extended1_of(f: Flags) -> u8
    requires { f.kind ≤ 4 }
    ensures { result ≡ extended1_of f }
{
    f.kind
        + (8 * flag(f.class_id)
            + (32 * flag(f.timestamp)
                + (64 * flag(f.picoseconds) + 128 * announced(extended2_of(f)))))
}

fn byte0_of(f: Flags) -> u8
    requires { f.kind ≤ 4 }
    ensures { result ≡ byte0_of f }
{
    1 + (16 * flag(f.publisher)
        + (32 * flag(f.group) + (64 * flag(f.payload_header) + 128 * announced(extended1_of(f)))))
}

fn flags_for(x: Envelope) -> Flags
    ensures { (result ≡ flags_for x) × (result.kind ≤ 4) }
{
    Flags {
        publisher: publisher_on(x.publisher),
        group: x.group.is_some(),
        payload_header: payload_header_on(x.payload_header),
        kind: kind_of(x.publisher),
        class_id: x.class_id.is_some(),
        timestamp: x.timestamp.is_some(),
        picoseconds: x.picoseconds.is_some(),
        chunk: x.chunk,
        promoted: x.promoted.is_some(),
        probe: probe_on(x.payload_header),
    }
}

fn flags_length(f: Flags) -> usize
    requires { f.kind ≤ 4 }
    ensures { (result ≡ length (flag_bytes f)) × (result ≤ 3) }
{
    1 + (announced(extended1_of(f)) as usize + announced(extended2_of(f)) as usize)
}

// How many bytes the flags of an envelope take.
pub fn flags_size(x: Envelope) -> usize
    ensures { (result ≡ length (flag_bytes (flags_for x))) × (result ≤ 3) }
{
    flags_length(flags_for(x))
}

fn put_flag_bytes(out: &mut [u8], at: usize, f: Flags) -> usize
    requires { f.kind ≤ 4 }
    ensures { Puts (flag_bytes f) out.old at out.new result }
{
    let first = byte0_of(f).put(out, at);
    let second = put_flag_byte(out, first, extended1_of(f));
    put_flag_byte(out, second, extended2_of(f))
}

// Stores the flag bytes of an envelope, all or nothing: answers the position after them, or `at` where they do not fit.
pub fn put_flags(out: &mut [u8], at: usize, x: Envelope) -> usize
    ensures { Stored (flag_bytes (flags_for x)) out.old at out.new result }
{
    let flags = flags_for(x);
    if !has(out.len(), at, flags_length(flags)) {
        return at;
    }
    put_flag_bytes(out, at, flags)
}

// Refuses picoseconds without a timestamp, as reading does.
pub fn times_refusal(picoseconds: bool, timestamp: bool) -> Result<(), Reason>
    ensures { rule_number result ≡ times_refusal picoseconds timestamp }
{
    if picoseconds && !timestamp {
        return Err(Reason::NotPermitted);
    }
    Ok(())
}

// Refuses a probe that is a chunk, or has promoted fields, as reading does.
pub fn probe_refusal(probe: bool, chunk: bool, promoted: bool) -> Result<(), Reason>
    ensures { rule_number result ≡ probe_refusal probe chunk promoted }
{
    if !probe {
        return Ok(());
    }
    if chunk {
        return Err(Reason::NotTaken);
    }
    if promoted {
        return Err(Reason::NotPermitted);
    }
    Ok(())
}
