// The records of a probe and of one of its items.
// The C interface has numbers for kinds: here they become the enums and go back. Any number has an answer.
ghost use Rattle.std.specs.Prelude.{◌≡◌, length, ◌≤◌};
ghost use Rattle.wire.specs.Refusal.{rule_number};
ghost use Rattle.wire_writer.specs.Store.{laid};
ghost use Rattle.records.specs.Numbers.{number_bytes};
ghost use Rattle.envelope_record.specs.Probe.{null_number, probe_null, list_place, probe_group, include_groups, include_writers, probe_numbers, list_given, probe_by, probe_in, information_refusal, probe_fits, item_cursor_in, item_cursor_laid, value_number, item_numbers, ProbeRecordBack};
ghost use Rattle.records.specs.Sizes.{PROBE_SIZE};

use probe::body::{Probe, information_rule};
use probe::items::{ProbeCursor, ProbeItem, item_count};
use probe::put::information_of;
use records::items::{at_most, fits_item, flag_number, is_on};
use records::numbers::{number, put_numbers};
use wire::constants::MOST_DATAGRAM;
use wire::refusal::Reason;
use wire_writer::store::Store;

// Where the numbers 7 and 8 stand: the cursor's item and its place.
const CURSOR_INDEX: usize = 8 * 7;

const CURSOR_AT: usize = 8 * 8;

fn null_number(list: Option<usize>) -> u64
    ensures { result ≡ null_number list }
{
    flag_number(list.is_none())
}

fn probe_null(p: Probe) -> u64
    ensures { result ≡ probe_null p }
{
    match p {
        Probe::MetaData(list) | Probe::Writers(list) | Probe::Connections(list, _, _) => {
            null_number(list)
        }
        Probe::Group(_, _) => 0,
    }
}

// Where the ids or strings of a probe stand that starts at a position; 0 for one that lists none.
fn list_place(p: Probe, start: usize) -> usize
    ensures { result ≡ list_place p start }
{
    if MOST_DATAGRAM < start {
        return 0;
    }
    match p {
        Probe::Group(_, _) => 0,
        _ => start + 6,
    }
}

fn group_number(p: Probe) -> u64
    ensures { result ≡ probe_group p }
{
    match p {
        Probe::Group(id, _) => id as u64,
        _ => 0,
    }
}

fn include_groups(p: Probe) -> u64
    ensures { result ≡ include_groups p }
{
    match p {
        Probe::Connections(_, groups, _) => groups as u64,
        _ => 0,
    }
}

fn include_writers(p: Probe) -> u64
    ensures { result ≡ include_writers p }
{
    match p {
        Probe::Group(_, include) | Probe::Connections(_, _, include) => include as u64,
        _ => 0,
    }
}

// Stores the record of a probe that starts at a position, whose cursor stands before the first item; where it does not fit, nothing.
// Where there is room its parts are read back.
pub fn put_probe(out: &mut [u8], p: Probe, start: usize)
    ensures { (out.new ≡ laid out.old 0 (number_bytes (probe_numbers p start)))
        × (PROBE_SIZE ≤ length out.old → ProbeRecordBack out.new p start) }
{
    let first = list_place(p, start) as u64;
    let numbers = [
        information_of(p) as u64,
        probe_null(p),
        item_count(p) as u64,
        first,
        group_number(p),
        include_groups(p),
        include_writers(p),
        0,
        first,
        0,
        0,
        0,
        0,
        0,
        0,
        0,
    ];
    put_numbers(out, &numbers);
}

fn list_given(null: u64, count: u64) -> Option<usize>
    ensures { result ≡ list_given null count }
{
    if is_on(null) {
        return None;
    }
    Some(count as usize)
}

// The probe of an InformationType; another type lists nothing, as a WriterGroup's.
fn probe_by(t: u64, list: Option<usize>, id: u16, groups: u8, include: u8) -> Probe
    ensures { result ≡ probe_by t list id groups include }
{
    match t {
        2 => Probe::MetaData(list),
        3 => Probe::Writers(list),
        5 => Probe::Connections(list, groups, include),
        _ => Probe::Group(id, include),
    }
}

// The probe of a probe record; a number that does not fit its item counts as the largest that does.
pub fn probe_in(s: &[u8]) -> Probe
    ensures { result ≡ probe_in s.now }
{
    let list = list_given(number(s, 1), number(s, 2));
    probe_by(
        number(s, 0),
        list,
        at_most(65535, number(s, 4)) as u16,
        at_most(255, number(s, 5)) as u8,
        at_most(255, number(s, 6)) as u8,
    )
}

// Refuses the InformationType of a probe record as reading does.
pub fn type_rule(s: &[u8]) -> Result<(), Reason>
    ensures { rule_number result ≡ information_refusal s.now }
{
    information_rule(at_most(255, number(s, 0)) as u8)
}

// Whether the number of each item that is present in a probe record fits the item.
pub fn probe_fits(s: &[u8]) -> bool
    ensures { result ≡ probe_fits s.now }
{
    let t = number(s, 0);
    fits_item(t == 4, 65535, number(s, 4))
        & (fits_item(t == 5, 255, number(s, 5)) & fits_item(4 <= t, 255, number(s, 6)))
}

// The item cursor of a probe record.
pub fn cursor_in(s: &[u8]) -> ProbeCursor
    ensures { result ≡ item_cursor_in s.now }
{
    ProbeCursor {
        index: number(s, 7) as usize,
        at: number(s, 8) as usize,
    }
}

// Stores the item cursor of a probe record.
pub fn put_cursor(out: &mut [u8], cursor: ProbeCursor)
    ensures { out.new ≡ item_cursor_laid cursor out.old }
{
    (cursor.index as u64).put(out, CURSOR_INDEX);
    (cursor.at as u64).put(out, CURSOR_AT);
}

fn value_number(null: bool, id: u16) -> u64
    ensures { result ≡ value_number null id }
{
    if null {
        return 1;
    }
    id as u64
}

// Stores the record of a probe's id or string.
pub fn put_item(out: &mut [u8], x: ProbeItem)
    ensures { out.new ≡ laid out.old 0 (number_bytes (item_numbers x)) }
{
    let numbers = [
        x.index as u64,
        x.offset as u64,
        x.length as u64,
        value_number(x.null, x.id),
    ];
    put_numbers(out, &numbers);
}
