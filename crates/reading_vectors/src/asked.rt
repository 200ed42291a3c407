// Probes: READINGS of document 02's Req 01, each information type, and each refusal at each place. A line has a letter and a datagram.
// The answer is the PublisherId, the information type, and what it asks for: `null` or the count of ids or strings, a group id, the
// Booleans' bytes; then each id or string as number, offset, length and the id, or `null`. `S` has a datagram, a number and a position:
// the id or string that a cursor there steps over.
use crate::network_messages::publisher;
use crate::or_refused;
use network_message::probe_message::read_probe;
use probe::body::Probe;
use probe::items::{ProbeCursor, ProbeItem, item_count};
use probe::put::information_of;
use vector_lines::lines::{decimal, letter};
use vector_lines::print::{number, put};
use wire::refusal::Refusal;

// Where ids and strings stand, behind ProbeType, InformationType and count.
const BEHIND: usize = 6;

// Shows a probe of one line of the input.
pub fn vector(rt: &impl Print, line: &[u8], bytes: &[u8]) {
    let shown = match letter(line) {
        b'S' => one_step(rt, bytes, decimal(line, 2), decimal(line, 3)),
        _ => show(rt, bytes),
    };
    or_refused(rt, shown);
}

fn show(rt: &impl Print, s: &[u8]) -> Result<(), Refusal> {
    let (envelope, places, p) = read_probe(s, &[])?;
    publisher(rt, envelope.publisher);
    asked(rt, p);
    items(rt, s, p, places.payload % 65536 + BEHIND);
    Ok(())
}

fn asked(rt: &impl Print, p: Probe) {
    number(rt, information_of(p) as usize);
    match p {
        Probe::MetaData(list) => count(rt, list),
        Probe::Writers(list) => count(rt, list),
        Probe::Group(id, include) => {
            number(rt, id as usize);
            number(rt, include as usize);
        }
        Probe::Connections(list, groups, include) => {
            count(rt, list);
            number(rt, groups as usize);
            number(rt, include as usize);
        }
    }
}

fn count(rt: &impl Print, list: Option<usize>) {
    match list {
        None => put(rt, b" null"),
        Some(n) => number(rt, n),
    };
}

fn items(rt: &impl Print, s: &[u8], p: Probe, first: usize) {
    let mut cursor = ProbeCursor {
        index: 0,
        at: first,
    };
    for _ in 0..item_count(p) {
        let step = cursor.step(s, p);
        if let Ok((x, next)) = step {
            item(rt, x);
            cursor = next;
        }
        or_refused(rt, step.map(|_| ()));
    }
}

fn item(rt: &impl Print, x: ProbeItem) {
    put(rt, b",");
    number(rt, x.index);
    number(rt, x.offset);
    number(rt, x.length);
    if x.null {
        put(rt, b" null");
    } else {
        number(rt, x.id as usize);
    }
}

fn one_step(rt: &impl Print, s: &[u8], index: usize, at: usize) -> Result<(), Refusal> {
    let (_, _, p) = read_probe(s, &[])?;
    let cursor = ProbeCursor { index, at };
    let (x, _) = cursor.step(s, p)?;
    item(rt, x);
    Ok(())
}
