// Chunks read from datagrams, and payloads cut. The envelope D1 81 01 67 12 15 00 is: version 1 with PublisherId, PayloadHeader and
// ExtendedFlags1; UInt16 and ExtendedFlags2; chunk; PublisherId 4711; DataSetWriterId 21. After its 7 bytes the number stands at 7, the
// offset at 9, the total at 13, the data's length at 17 and the data at 21. A line has a datagram, alone or after `R`. The answer is
// writer, number, offset, total, the data's place and length, and the data; or `bad`, number and place, and no data. The envelope's
// refusals come first, then 4 at 0 without the chunk bit, then the payload's from left to right.
//
// `C` has a payload, the size of a chunk's data and the number of a chunk, and cuts that chunk of message 7 into a buffer of 20 bytes
// that holds 2E. The answer is the number of bytes written or the refusal, and the buffer: 14 bytes of numbers (7, offset, total, length)
// and the data.
use chunk::cut::cut;
use chunk::datagram::{ChunkPlace, data, read};
use vector_lines::lines::{decimal, letter};
use vector_lines::print::{hex, number, put, refused};

// The number of the message that is cut, and what the buffer holds before.
const MESSAGE: u16 = 7;

const UNCUT: u8 = 0x2e;

// Shows chunks cut from the payload of one line of the input.
pub fn vector(rt: &impl Print, line: &[u8], bytes: &[u8]) {
    if letter(line) == b'C' {
        return cutting(rt, bytes, decimal(line, 2), decimal(line, 3));
    }
    chunk(rt, bytes, &[]);
}

fn chunk(rt: &impl Print, datagram: &[u8], sizes: &[u16]) {
    match read(datagram, sizes) {
        Err(refusal) => {
            refused(rt, refusal.reason.number(), refusal.place);
        }
        Ok((c, _)) => show(rt, c),
    }
    put(rt, b" [");
    put(rt, data(datagram, sizes));
    put(rt, b"]");
}

fn show(rt: &impl Print, c: ChunkPlace) {
    let p = c.payload;
    number(rt, c.writer as usize);
    number(rt, p.number as usize);
    number(rt, p.offset);
    number(rt, p.total);
    number(rt, p.first);
    number(rt, p.length);
}

fn cutting(rt: &impl Print, payload: &[u8], size: usize, k: usize) {
    let mut out = [UNCUT; 20];
    match cut(&mut out, payload, MESSAGE, size, k) {
        Err(reason) => refused(rt, reason.number(), 0),
        Ok(n) => number(rt, n),
    };
    hex(rt, &out);
}
