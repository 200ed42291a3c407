// A probe's body written from its parts: ids and strings are given as they are to stand.
ghost use Rattle.std.specs.Prelude.{◌≡◌, ◌++◌, length};
ghost use Rattle.wire.specs.Number.{le_bytes};
ghost use Rattle.wire.specs.Refusal.{rule_number};
ghost use Rattle.wire_writer.specs.Writing.{Puts, Writes};
ghost use Rattle.probe.specs.Put.{FitsProbe, information_of, ids_rule, id_list_rule, strings_rule, string_list_rule, probe_body_refusal, probe_head_bytes, list_count_bytes, parts_bytes, probe_bytes, probe_output};

use crate::body::Probe;
use plain_value::plain::strings_at;
use wire::refusal::Reason;
use wire_writer::store::{Store, put_run};
use wire_writer::writing::{agreement_rule, room_rule};

// The ProbeType of the Publisher information probe.
const INFORMATION_PROBE: u8 = 1;

// The number of 4 bytes that stands for the count -1.
const NULL_COUNT: u32 = 4294967295;

// The first count that is no Int32.
const COUNT_END: usize = 2147483648;

// The InformationType of a probe.
pub fn information_of(p: Probe) -> u8
    ensures { result ≡ information_of p }
{
    match p {
        Probe::MetaData(_) => 2,
        Probe::Writers(_) => 3,
        Probe::Group(_, _) => 4,
        Probe::Connections(_, _, _) => 5,
    }
}

// Refuses n ids of 2 bytes unless they have so many bytes, and their number is an Int32.
fn ids_rule(n: usize, len: usize) -> Result<(), Reason>
    ensures { rule_number result ≡ ids_rule n len }
{
    if COUNT_END <= n {
        return Err(Reason::Disagree);
    }
    agreement_rule(len == 2 * n)
}

fn id_list_rule(list: Option<usize>, len: usize) -> Result<(), Reason>
    ensures { rule_number result ≡ id_list_rule list len }
{
    match list {
        None => agreement_rule(len == 0),
        Some(n) => ids_rule(n, len),
    }
}

// Refuses n strings of a list alone as reading does; then unless they are all of it, and their number is an Int32.
fn strings_rule(n: usize, bytes: &[u8]) -> Result<(), Reason>
    ensures { rule_number result ≡ strings_rule n bytes.now }
{
    let end = strings_at(bytes, 0, n).map_err(|refusal| refusal.reason)?;
    if COUNT_END <= n {
        return Err(Reason::Disagree);
    }
    agreement_rule(end == bytes.len())
}

fn string_list_rule(list: Option<usize>, bytes: &[u8]) -> Result<(), Reason>
    ensures { rule_number result ≡ string_list_rule list bytes.now }
{
    match list {
        None => agreement_rule(bytes.len() == 0),
        Some(n) => strings_rule(n, bytes),
    }
}

// Refuses a probe with these ids or strings, as `write` does before it looks at the room.
pub fn refusal(p: Probe, bytes: &[u8]) -> Result<(), Reason>
    ensures { rule_number result ≡ probe_body_refusal bytes.now p }
{
    match p {
        Probe::MetaData(list) | Probe::Writers(list) => id_list_rule(list, bytes.len()),
        Probe::Group(_, _) => agreement_rule(bytes.len() == 0),
        Probe::Connections(list, _, _) => string_list_rule(list, bytes),
    }
}

// How many bytes a probe takes, with these ids or strings.
fn body_size(p: Probe, bytes: &[u8]) -> usize
    ensures { result ≡ length (probe_bytes bytes.now p) }
{
    match p {
        Probe::MetaData(_) | Probe::Writers(_) => 6 + bytes.len(),
        Probe::Group(_, _) => 5,
        Probe::Connections(_, _, _) => 8 + bytes.len(),
    }
}

fn put_count(out: &mut [u8], at: usize, list: Option<usize>) -> usize
    ensures { Puts (list_count_bytes list) out.old at out.new result }
{
    match list {
        None => NULL_COUNT.put(out, at),
        Some(n) => ((n % 4294967296) as u32).put(out, at),
    }
}

fn put_list(out: &mut [u8], at: usize, list: Option<usize>, bytes: &[u8]) -> usize
    ensures { Puts (list_count_bytes list ++ bytes.now) out.old at out.new result }
{
    let start = put_count(out, at, list);
    put_run(out, start, bytes)
}

fn put_group(out: &mut [u8], at: usize, id: u16, include: u8) -> usize
    ensures { Puts (le_bytes 2 id ++ le_bytes 1 include) out.old at out.new result }
{
    let next = id.put(out, at);
    include.put(out, next)
}

fn put_connections(
    out: &mut [u8],
    at: usize,
    list: Option<usize>,
    groups: u8,
    include: u8,
    bytes: &[u8],
) -> usize
    ensures { let b = list_count_bytes list ++ (bytes.now ++ (le_bytes 1 groups ++ le_bytes 1 include)) in
        Puts b out.old at out.new result }
{
    let start = put_count(out, at, list);
    let groups_at = put_run(out, start, bytes);
    let include_at = groups.put(out, groups_at);
    include.put(out, include_at)
}

// Stores what follows the InformationType.
fn put_parts(out: &mut [u8], at: usize, p: Probe, bytes: &[u8]) -> usize
    ensures { Puts (parts_bytes bytes.now p) out.old at out.new result }
{
    match p {
        Probe::MetaData(list) | Probe::Writers(list) => put_list(out, at, list, bytes),
        Probe::Group(id, include) => put_group(out, at, id, include),
        Probe::Connections(list, groups, include) => {
            put_connections(out, at, list, groups, include, bytes)
        }
    }
}

// Stores ProbeType and InformationType at the buffer's start.
fn put_head(out: &mut [u8], p: Probe) -> usize
    ensures { Puts (probe_head_bytes p) out.old 0 out.new result }
{
    let at = INFORMATION_PROBE.put(out, 0);
    information_of(p).put(out, at)
}

// Writes a probe's body from the start of a buffer: `bytes` has its ids, 2 bytes each, or its strings, each with its length of 4 bytes.
pub fn write(out: &mut [u8], p: Probe, bytes: &[u8]) -> Result<usize, Reason>
    ensures { FitsProbe p × Writes (probe_output bytes.now p) out.old out.new result }
{
    refusal(p, bytes)?;
    let size = body_size(p, bytes);
    room_rule(size, out.len())?;
    let at = put_head(out, p);
    put_parts(out, at, p, bytes);
    Ok(size)
}
