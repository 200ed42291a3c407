// The group header.
ghost use Rattle.std.specs.Prelude.{◌≡◌, ◌≤◌, length};
ghost use Rattle.wire.specs.Refusal.{answer, rule_number};
ghost use Rattle.network_header.specs.Group.{message_number_at, group_fields_at, group_at, number_rule, group_flags_of, group_fields_bytes, group_bytes, number_refusal, group_refusal};
ghost use Rattle.wire_writer.specs.Store.{Stored};
ghost use Rattle.wire_writer.specs.Writing.{Puts};

use wire::has;
use wire::item::Item;
use wire::optional::read_optional;
use wire::refusal::{Read, Reason};
use wire_writer::store::Store;
use wire_writer::writing::{flag, put_optional, size_of};

// The items of a group header.
#[derive(Clone, Copy, PartialEq, Eq, Debug)]
pub struct GroupFields {
    pub writer_group: Option<u16>,
    pub version: Option<u32>,
    pub number: Option<u16>,
    pub sequence: Option<u16>,
}

// Refuses a NetworkMessageNumber of 0.
fn number_rule(v: u16) -> Result<(), Reason>
    ensures { rule_number result ≡ number_rule v }
{
    if v == 0 {
        return Err(Reason::NotPermitted);
    }
    Ok(())
}

// NetworkMessageNumber, where it is there.
fn message_number(s: &[u8], on: bool, at: usize) -> Read<Option<u16>>
    ensures { answer result ≡ message_number_at on s.now at }
{
    if !on {
        return Ok((None, at));
    }
    let (v, next) = u16::read(s, at)?;
    number_rule(v).map_err(|reason| reason.at(at))?;
    Ok((Some(v), next))
}

fn group_fields(s: &[u8], flags: u8, at: usize) -> Read<Option<GroupFields>>
    ensures { answer result ≡ group_fields_at flags s.now at }
{
    let (writer_group, at) = read_optional(s, flags % 2 == 1, at)?;
    let (version, at) = read_optional(s, (flags >> 1) % 2 == 1, at)?;
    let (number, at) = message_number(s, (flags >> 2) % 2 == 1, at)?;
    let (sequence, at) = read_optional(s, (flags >> 3) % 2 == 1, at)?;
    let fields = GroupFields {
        writer_group,
        version,
        number,
        sequence,
    };
    Ok((Some(fields), at))
}

// Reads the group header, where the flags announce one.
pub fn read_group(s: &[u8], on: bool, at: usize) -> Read<Option<GroupFields>>
    ensures { answer result ≡ group_at on s.now at }
{
    if !on {
        return Ok((None, at));
    }
    let (flags, next) = u8::read(s, at)?;
    if 16 <= flags {
        return Err(Reason::NotPermitted.at(at));
    }
    group_fields(s, flags, next)
}

fn group_flags(g: GroupFields) -> u8
    ensures { (result ≡ group_flags_of g) × (result ≤ 15) }
{
    flag(g.writer_group.is_some())
        + (2 * flag(g.version.is_some())
            + (4 * flag(g.number.is_some()) + 8 * flag(g.sequence.is_some())))
}

fn fields_size(g: GroupFields) -> usize
    ensures { (result ≡ length (group_fields_bytes g)) × (result ≤ 10) }
{
    size_of(g.writer_group) + (size_of(g.version) + (size_of(g.number) + size_of(g.sequence)))
}

// How many bytes a group header takes.
pub fn group_size(x: Option<GroupFields>) -> usize
    ensures { (result ≡ length (group_bytes x)) × (result ≤ 11) }
{
    match x {
        None => 0,
        Some(g) => 1 + fields_size(g),
    }
}

fn put_fields(out: &mut [u8], at: usize, g: GroupFields) -> usize
    ensures { Puts (group_fields_bytes g) out.old at out.new result }
{
    let after_group = put_optional(out, at, g.writer_group);
    let after_version = put_optional(out, after_group, g.version);
    let after_number = put_optional(out, after_version, g.number);
    put_optional(out, after_number, g.sequence)
}

// Stores a group header, all or nothing: answers the position after it, or `at` where it does not fit.
pub fn put_group(out: &mut [u8], at: usize, x: Option<GroupFields>) -> usize
    ensures { Stored (group_bytes x) out.old at out.new result }
{
    match x {
        None => at,
        Some(g) => {
            if !has(out.len(), at, 1 + fields_size(g)) {
                return at;
            }
            let start = group_flags(g).put(out, at);
            put_fields(out, start, g)
        }
    }
}

fn number_refusal(x: Option<u16>) -> Result<(), Reason>
    ensures { rule_number result ≡ number_refusal x }
{
    match x {
        None => Ok(()),
        Some(v) => number_rule(v),
    }
}

// Refuses a group header as reading does.
pub fn group_refusal(x: Option<GroupFields>) -> Result<(), Reason>
    ensures { rule_number result ≡ group_refusal x }
{
    match x {
        None => Ok(()),
        Some(g) => number_refusal(g.number),
    }
}
