// Histories of reassembly, written from document 01: R1 and R2, overlaps, holes, refusals, combining, strange marks, emptying and reuse,
// payloads cut and restored, and what is salvaged. Each line of standard input is a call, and each call's answer is a line.
//
// There are eight partials with payload areas of 8 bytes, told by the letters a to g and `-`, which is one that nobody looks at. A call
// has a word, the partial that takes what it leaves, the one that it is made on, and the rest: `new`, the payload and marks of a partial
// not started; `record`, a record in place of its own; `take`, a datagram; `piece`, the number of a chunk of abcdefgh, cut by 3 bytes;
// `combine`, another partial; `join`, another partial's record, payload and marks; `empty`; `show`, which tells if the partial is
// complete, what is handed out, and both areas, the marks as bits, the lowest first. `unequal` and `large` are histories with areas of
// their own. `far` tells how many bytes are covered, of how many. `marks` has no partial: it counts a number's offsets by the marks that
// follow. `wide` has areas of the length that it names, with a record and marks, and takes two datagrams; `octets` asks with areas of the
// two lengths that it names. A line that begins with `=` is a heading.
//
// `gather` salvages (document 02, Req 13): a record, payload area and marks, how many entries the list has room for, and the configured
// types. It answers the numbers of holes and fields, 1 where the count is known, the promised number, the front's length, total and
// encoding; then an entry a line. `hole` is the cursor over holes: marks, total, and the position that it starts from; `after` the cursor
// over fields: an area, the length of its front, a cursor and the configured types. A last `-` stands for nothing.
//
// A record lists its parts: `s` 1 where it is started, `h` a UInt16, `d` a UInt32 or `t` the length of a string as PublisherId, `x` the
// bytes of the text, `g` WriterGroupId where there is one, `w` DataSetWriterId, `n` number, `l` total, `c` covered bytes.
// Buffers have a fixed size, since the program runs without a heap, as the library does.
#![tactic(auto)]

ghost use Rattle.std.specs.Prelude.{◌<◌};

use crate::calls::{called, new};
use vector_lines::input::{LARGE, read_full};
use vector_lines::lines::{after, item, letter, word};
use wire::part::part;

mod answers;
mod calls;
mod partials;
mod salvaging;

fn main(rt: HostRuntime) {
    let mut text = [0u8; LARGE];
    let n = read_full(&mut rt.stdin(), &mut text);
    lines(&rt, part(&text, 0, n));
}

// A line is read with the byte that ends it, so the position goes on by no fixed step.
fn lines(rt: &impl Print, text: &[u8]) {
    let mut parts = [new(b""); 8];
    let mut at: usize = 0;
    // a `while`: the library's `split` has an empty line after the last newline
    while at < text.len() {
        let line = item(text, at, b'\n');
        let from = place(line, 2);
        let source = place(line, 3);
        let to = place(line, 1);
        parts[to] = called(rt, parts[from], parts[source], line);
        at = after(text, at, b'\n');
    }
}

// Which partial word k names.
fn place(line: &[u8], k: usize) -> usize
    ensures { result < 8 }
{
    let name = letter(word(line, k));
    if name < b'a' {
        return 0;
    }
    (name % 8) as usize
}
