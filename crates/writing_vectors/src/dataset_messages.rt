// DataSetMessages written, and messages read and written again. A line has a letter for the configured field types and a message: `t`
// UInt16 and Float, `-` none. The answer is `same` or the bytes of its rewriting, and the buffer's next byte, which stays `ee`.
//
// `W` has the fields' values with the configured types after them, and a list. The answer is the length, the bytes, the next byte, and
// the number of fields and the end of the last one as they read back; of a refusal the number and the buffer's first byte. The list has
// `e` 1 for RawData, 2 for DataValue; `k` 1 for delta, 2 for event, 3 for keep alive; `q`, `t`, `p`, `s`, `a` and `i` sequence number,
// Timestamp, PicoSeconds, Status, major and minor version; `h` 1 for a heartbeat; `l` and `m` the lengths of up to two fields; `x` and
// `y` their indices in a delta; `z` how many bytes of padding follow. `V` tells how many of the bytes are the values'.
ghost use Rattle.std.specs.Prelude.{◌≤◌};

use crate::FILL;
use crate::optional::{optional_i64, optional32};
use dataset_header::flags::{Encoding, Kind};
use dataset_header::header::Header;
use dataset_message::message::read;
use dataset_message::rewrite::rewrite;
use dataset_message::writer::write;
use text::words::starts_with;
use vector_lines::lines::{letter, lettered, lettered16, low16, numbered, word};
use vector_lines::print::{bad, hex, number, put};
use wire::part::{part, tail};
use wire::refusal::Reason;

const UINT16: u8 = 5;

const FLOAT: u8 = 10;

// Shows a DataSetMessage written from one line of the input.
pub fn vector(rt: &impl Print, line: &[u8], bytes: &[u8]) {
    match letter(line) {
        b'W' => written(rt, bytes, word(line, 2)),
        b't' => again(rt, bytes, &[UINT16, FLOAT]),
        _ => again(rt, bytes, &[]),
    }
}

fn again(rt: &impl Print, message: &[u8], types: &[u8]) {
    let mut out = [FILL; 128];
    match rewrite(&mut out, message, types) {
        Err(reason) => refused(rt, reason, &out),
        Ok(n) => same(rt, n, &out, message),
    }
}

fn refused(rt: &impl Print, reason: Reason, out: &[u8]) {
    bad(rt, reason.number());
    hex(rt, part(out, 0, 1));
}

fn same(rt: &impl Print, n: usize, out: &[u8], message: &[u8]) {
    if (n == message.len()) & starts_with(out, 0, message) {
        put(rt, b" same");
    } else {
        hex(rt, part(out, 0, n));
    }
    hex(rt, part(out, n, 1));
}

fn written(rt: &impl Print, bytes: &[u8], list: &[u8]) {
    let lengths = [numbered(list, b'l'), numbered(list, b'm')];
    let indices = [low16(numbered(list, b'x')), low16(numbered(list, b'y'))];
    let l = count(list, b'l', b'm');
    let x = count(list, b'x', b'y');
    with_fields(rt, bytes, list, &lengths[0..l], &indices[0..x]);
}

// How many of two letters a list has, where it has the second only with the first.
fn count(list: &[u8], first: u8, second: u8) -> usize
    ensures { result ≤ 2 }
{
    if lettered(list, second).is_some() {
        return 2;
    }
    if lettered(list, first).is_some() {
        return 1;
    }
    0
}

fn with_fields(rt: &impl Print, bytes: &[u8], list: &[u8], lengths: &[usize], indices: &[u16]) {
    let values = numbered(list, b'V');
    let types = tail(bytes, values);
    let mut out = [FILL; 32];
    match write(
        &mut out,
        header(list),
        numbered(list, b'h') == 1,
        part(bytes, 0, values),
        lengths,
        indices,
        types,
        numbered(list, b'z'),
    ) {
        Err(reason) => refused(rt, reason, &out),
        Ok(n) => accepted(rt, n, &out, types),
    }
}

fn accepted(rt: &impl Print, n: usize, out: &[u8], types: &[u8]) {
    number(rt, n);
    hex(rt, part(out, 0, n));
    hex(rt, part(out, n, 1));
    read_back(rt, part(out, 0, n), types);
}

fn read_back(rt: &impl Print, message: &[u8], types: &[u8]) {
    match read(message, types) {
        Ok(None) => {
            put(rt, b" invalid");
        }
        Err(refusal) => {
            vector_lines::print::refused(rt, refusal.reason.number(), refusal.place);
        }
        Ok(Some((_, cursor, end))) => {
            number(rt, cursor.count);
            number(rt, end);
        }
    }
}

fn header(list: &[u8]) -> Header {
    Header {
        encoding: encoding(numbered(list, b'e')),
        kind: kind(numbered(list, b'k')),
        sequence: lettered16(list, b'q'),
        timestamp: optional_i64(list, b't'),
        picoseconds: lettered16(list, b'p'),
        status: lettered16(list, b's'),
        major: optional32(list, b'a'),
        minor: optional32(list, b'i'),
    }
}

fn encoding(n: usize) -> Encoding {
    match n {
        1 => Encoding::RawData,
        2 => Encoding::DataValue,
        _ => Encoding::Variant,
    }
}

fn kind(n: usize) -> Kind {
    match n {
        1 => Kind::Delta,
        2 => Kind::Event,
        3 => Kind::KeepAlive,
        _ => Kind::Key,
    }
}
