// Probes' bodies written. A line has a letter, the bytes of the ids or strings, and a list. The letter is the information: `m`
// DataSetMetaData, `w` the writers' configuration, `g` a WriterGroup, `c` connections. The list has `n` the count, without which the list
// is null; `i` the group's id; `f` and `s` the bytes of the Booleans; `R` how many bytes the buffer lacks of 96. The answer is the bytes
// written and the two bytes of the buffer after them (it is filled with `ee`); of a refusal the number and the buffer's first two bytes.
use crate::FILL;
use probe::body::Probe;
use probe::put::write;
use vector_lines::lines::{letter, lettered, low16, numbered, word};
use vector_lines::print::{bad, hex};
use wire::part::part;
use wire::refusal::Reason;

// The largest room for a body.
const ROOM: usize = 96;

// Shows a probe written from one line of the input.
pub fn vector(rt: &impl Print, line: &[u8], bytes: &[u8]) {
    let list = word(line, 2);
    let mut out = [FILL; ROOM];
    let room = ROOM - numbered(list, b'R') % ROOM;
    into(rt, &mut out[0..room], probe(letter(line), list), bytes);
}

fn into(rt: &impl Print, out: &mut [u8], p: Probe, bytes: &[u8]) {
    let answer = write(out, p, bytes);
    show(rt, answer, out);
}

fn show(rt: &impl Print, answer: Result<usize, Reason>, out: &[u8]) {
    match answer {
        Err(reason) => {
            bad(rt, reason.number());
            hex(rt, part(out, 0, 2));
        }
        Ok(n) => {
            hex(rt, part(out, 0, n));
            hex(rt, part(out, n, 2));
        }
    }
}

fn probe(kind: u8, list: &[u8]) -> Probe {
    let first = (numbered(list, b'f') % 256) as u8;
    let second = (numbered(list, b's') % 256) as u8;
    match kind {
        b'm' => Probe::MetaData(count(list)),
        b'w' => Probe::Writers(count(list)),
        b'c' => Probe::Connections(count(list), first, second),
        _ => Probe::Group(low16(numbered(list, b'i')), first),
    }
}

fn count(list: &[u8]) -> Option<usize> {
    let (n, _) = lettered(list, b'n')?;
    Some(n as usize)
}
