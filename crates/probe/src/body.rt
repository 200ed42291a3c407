// A probe's body: ProbeType, InformationType and what the information asks for.
// ProbeType and InformationType go by their numbers here: any byte may stand for one, and its rule judges it.
ghost use Rattle.std.specs.Prelude.{◌≡◌, ◌*◌, None, Some};
ghost use Rattle.wire.specs.Answer.{run, pure};
ghost use Rattle.plain_value.specs.Plain.{by_length};
ghost use Rattle.wire.specs.Refusal.{answer, answer_to, rule_number};
ghost use Rattle.probe.specs.Body.{probe_type_rule, information_rule, id_list_at, string_list_at, group_probe_at, connections_at, probe_of, information_at, probe_at, probe_body_at};

use plain_value::plain::strings_at;
use wire::Length;
use wire::item::Item;
use wire::refusal::{Read, Reason, Refusal};

// What is asked for. Ids and strings stand behind their count, 6 bytes after the probe's start. A list that is null lists nothing, and has
// no count: so it is kept apart from an empty one.
#[derive(Clone, Copy, PartialEq, Eq, Debug)]
pub enum Probe {
    // DataSetMetaData of these writers
    MetaData(Option<usize>),
    // the configuration of these writers
    Writers(Option<usize>),
    // a WriterGroup's configuration: its id, and the byte of IncludeDataSetWriters
    Group(u16, u8),
    // the connections of these names: the bytes of IncludeWriterGroups and IncludeDataSetWriters
    Connections(Option<usize>, u8, u8),
}

// Refuses a ProbeType other than the information probe's.
fn probe_type_rule(t: u8) -> Result<(), Reason>
    ensures { rule_number result ≡ probe_type_rule t }
{
    match t {
        1 => Ok(()),
        2 => Err(Reason::NotTaken),
        _ => Err(Reason::NotPermitted),
    }
}

// Refuses an InformationType that is no probe's.
pub fn information_rule(t: u8) -> Result<(), Reason>
    ensures { rule_number result ≡ information_rule t }
{
    match t {
        1 => Err(Reason::NotTaken),
        2..=5 => Ok(()),
        _ => Err(Reason::NotPermitted),
    }
}

// The position after n ids.
fn id_run(s: &[u8], at: usize, n: usize) -> Result<usize, Refusal>
    ensures { answer_to (2 * n) result ≡ run (2 * n) s.now at }
{
    if s.len() < at {
        return Err(Reason::CutShort.at(at));
    }
    if (s.len() - at) / 2 < n {
        return Err(Reason::CutShort.at(at));
    }
    Ok(at + 2 * n)
}

// The count of a list, none of one that is null, and where its elements start; below null is 5.
fn count_at(s: &[u8], at: usize) -> Read<Option<usize>>
    ensures { answer result ≡ by_length (pure None) (λ n. pure (Some n)) s.now at }
{
    let (length, start) = wire::read_length(s, at)?;
    match length {
        Length::Null => Ok((None, start)),
        Length::Of(n) => Ok((Some(n), start)),
        Length::Negative => Err(Reason::BadLength.at(at)),
    }
}

fn id_list(s: &[u8], at: usize) -> Read<Option<usize>>
    ensures { answer result ≡ id_list_at s.now at }
{
    let (count, start) = count_at(s, at)?;
    let Some(n) = count else {
        return Ok((None, start));
    };
    let next = id_run(s, start, n)?;
    Ok((Some(n), next))
}

fn string_list(s: &[u8], at: usize) -> Read<Option<usize>>
    ensures { answer result ≡ string_list_at s.now at }
{
    let (count, start) = count_at(s, at)?;
    let Some(n) = count else {
        return Ok((None, start));
    };
    let next = strings_at(s, start, n)?;
    Ok((Some(n), next))
}

fn group(s: &[u8], at: usize) -> Read<Probe>
    ensures { answer result ≡ group_probe_at s.now at }
{
    let (id, include_at) = u16::read(s, at)?;
    let (include, next) = u8::read(s, include_at)?;
    Ok((Probe::Group(id, include), next))
}

// The names of connections, and what stands behind them.
fn connections(s: &[u8], at: usize) -> Read<Probe>
    ensures { answer result ≡ connections_at s.now at }
{
    let (list, groups_at) = string_list(s, at)?;
    let (groups, writers_at) = u8::read(s, groups_at)?;
    let (include, next) = u8::read(s, writers_at)?;
    Ok((Probe::Connections(list, groups, include), next))
}

// What follows an InformationType.
fn probe_of(s: &[u8], t: u8, at: usize) -> Read<Probe>
    ensures { answer result ≡ probe_of t s.now at }
{
    match t {
        2 => {
            let (list, next) = id_list(s, at)?;
            Ok((Probe::MetaData(list), next))
        }
        3 => {
            let (list, next) = id_list(s, at)?;
            Ok((Probe::Writers(list), next))
        }
        4 => group(s, at),
        _ => connections(s, at),
    }
}

// What follows the ProbeType.
fn information(s: &[u8], at: usize) -> Read<Probe>
    ensures { answer result ≡ information_at s.now at }
{
    let (t, next) = u8::read(s, at)?;
    information_rule(t).map_err(|reason| reason.at(at))?;
    probe_of(s, t, next)
}

// A probe that starts at a position.
#[tactic(auto, unfolding(crate::specs::Body::probe_at))]
fn read_probe(s: &[u8], at: usize) -> Read<Probe>
    ensures { answer result ≡ probe_at s.now at }
{
    let (t, next) = u8::read(s, at)?;
    probe_type_rule(t).map_err(|reason| reason.at(at))?;
    information(s, next)
}

// A probe from a position to the slice's end: anything behind it is 7.
pub fn read_body(s: &[u8], at: usize) -> Read<Probe>
    ensures { answer result ≡ probe_body_at s.now at }
{
    let (p, next) = read_probe(s, at)?;
    if next != s.len() {
        return Err(Reason::LeftOver.at(next));
    }
    Ok((p, next))
}
