// NetworkMessages written, and datagrams written again. A line has a letter for the configured writers and a datagram: `-` no writer; `r`
// one that takes the rest; `s` two, of sizes 3 and 2. The answer is the bytes of its rewriting, or `bad` and the number.
//
// A capital letter, `N`, `R` with id 7 and `S` with ids 7 and 9, has the bytes that are given and a list. The answer is the bytes
// written, the two bytes of the buffer after them (it is filled with `ee`), and the number of messages that reading finds; of a refusal
// the number and the buffer's first two bytes. The list has `b` a Byte, `w` a UInt16 or `s` the length of a string as PublisherId; `l`
// and `h` the halves of DataSetClassId; `g`, `v`, `n` and `q` the parts of the group header; `x` 1 for the chunk bit; `i` Count or `k` a
// chunk's DataSetWriterId; `a` 1 for a probe; `t` Timestamp; `p` PicoSeconds; `f` the size of promoted fields. `T`, `I`, `P` and `L`
// tell how many of the bytes are the string's, the ids', the promoted fields' and the sizes'; the rest is the messages'. `R` is how many
// bytes the buffer lacks of 96.
ghost use Rattle.std.specs.Prelude.{◌≤◌};

use crate::FILL;
use crate::optional::{optional_i64, optional32};
use network_header::envelope::Envelope;
use network_header::group::GroupFields;
use network_header::header::PayloadHeader;
use network_message::envelope::read;
use network_message::writer::{rewrite, write};
use publisher_id::publisher::PublisherId;
use vector_lines::lines::{letter, lettered, lettered16, low16, numbered, word};
use vector_lines::print::{bad, hex, number};
use wire::Guid;
use wire::part::{part, tail};
use wire::refusal::Reason;

// The largest room for a datagram.
const ROOM: usize = 96;

// Shows a NetworkMessage written from one line of the input.
pub fn vector(rt: &impl Print, line: &[u8], bytes: &[u8]) {
    let first = letter(line);
    let sizes = [first_size(first), 2];
    let ids = [7, 9];
    let n = writers(first);
    if (b'A' <= first) & (first <= b'Z') {
        written(rt, bytes, word(line, 2), &sizes[0..n], &ids[0..n]);
    } else {
        again(rt, bytes, &sizes[0..n]);
    }
}

// How many writers are configured, and the size of the first.
fn writers(first: u8) -> usize
    ensures { result ≤ 2 }
{
    match first {
        b'r' | b'R' => 1,
        b's' | b'S' => 2,
        _ => 0,
    }
}

fn first_size(first: u8) -> u16 {
    match first {
        b'r' | b'R' => 0,
        _ => 3,
    }
}

fn again(rt: &impl Print, datagram: &[u8], sizes: &[u16]) {
    let mut out = [FILL; 128];
    match rewrite(&mut out, datagram, sizes) {
        Err(reason) => bad(rt, reason.number()),
        Ok(n) => hex(rt, part(&out, 0, n)),
    };
}

fn written(rt: &impl Print, bytes: &[u8], list: &[u8], sizes: &[u16], configured: &[u16]) {
    let mut out = [FILL; ROOM];
    let room = ROOM - numbered(list, b'R') % ROOM;
    into(rt, &mut out[0..room], bytes, list, sizes, configured);
}

fn into(
    rt: &impl Print,
    out: &mut [u8],
    bytes: &[u8],
    list: &[u8],
    sizes: &[u16],
    configured: &[u16],
) {
    let answer = given(out, bytes, list, sizes, configured);
    show(rt, answer, out, sizes);
}

fn show(rt: &impl Print, answer: Result<usize, Reason>, out: &[u8], sizes: &[u16]) {
    match answer {
        Err(reason) => {
            bad(rt, reason.number());
            hex(rt, part(out, 0, 2));
        }
        Ok(n) => {
            hex(rt, part(out, 0, n));
            hex(rt, part(out, n, 2));
            count(rt, part(out, 0, n), sizes);
        }
    }
}

fn count(rt: &impl Print, datagram: &[u8], sizes: &[u16]) {
    match read(datagram, sizes) {
        Err(refusal) => bad(rt, refusal.reason.number()),
        Ok((_, _, p)) => number(rt, p.count),
    };
}

fn given(
    out: &mut [u8],
    bytes: &[u8],
    list: &[u8],
    sizes: &[u16],
    configured: &[u16],
) -> Result<usize, Reason> {
    let text = numbered(list, b'T');
    let ids = numbered(list, b'I');
    let promoted = numbered(list, b'P');
    let lengths = numbered(list, b'L');
    let after_text = tail(bytes, text);
    let after_ids = tail(after_text, ids);
    let after_promoted = tail(after_ids, promoted);
    write(
        out,
        envelope(list),
        part(bytes, 0, text),
        part(after_text, 0, ids),
        part(after_ids, 0, promoted),
        part(after_promoted, 0, lengths),
        tail(after_promoted, lengths),
        sizes,
        configured,
    )
}

fn envelope(list: &[u8]) -> Envelope {
    Envelope {
        publisher: publisher(list),
        class_id: class_id(list),
        group: group(list),
        chunk: numbered(list, b'x') == 1,
        payload_header: payload_header(list),
        timestamp: optional_i64(list, b't'),
        picoseconds: lettered16(list, b'p'),
        promoted: promoted(list),
    }
}

fn publisher(list: &[u8]) -> PublisherId {
    if let Some((n, _)) = lettered(list, b'b') {
        return PublisherId::Byte((n % 256) as u8);
    }
    if let Some((n, _)) = lettered(list, b'w') {
        return PublisherId::UInt16(low16(n as usize));
    }
    if let Some((n, _)) = lettered(list, b's') {
        return PublisherId::Text(n as usize);
    }
    PublisherId::Absent
}

fn class_id(list: &[u8]) -> Option<Guid> {
    let (low, _) = lettered(list, b'l')?;
    let high = numbered(list, b'h') as u64;
    Some(Guid { low, high })
}

fn group(list: &[u8]) -> Option<GroupFields> {
    lettered(list, b'g')?;
    Some(GroupFields {
        writer_group: lettered16(list, b'g'),
        version: optional32(list, b'v'),
        number: lettered16(list, b'n'),
        sequence: lettered16(list, b'q'),
    })
}

fn payload_header(list: &[u8]) -> PayloadHeader {
    if let Some((n, _)) = lettered(list, b'i') {
        return PayloadHeader::Ids(low16(n as usize));
    }
    if let Some((n, _)) = lettered(list, b'k') {
        return PayloadHeader::Chunk(low16(n as usize));
    }
    if numbered(list, b'a') == 1 {
        return PayloadHeader::Probe;
    }
    PayloadHeader::Absent
}

fn promoted(list: &[u8]) -> Option<usize> {
    let (n, _) = lettered(list, b'f')?;
    Some(n as usize)
}
