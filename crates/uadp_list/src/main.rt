// The listing program: the configuration from `readers.txt`, a datagram from standard input, its listing to standard output. Here stand the
// calls of the system; what is listed, and how, is the library's (`listing`). A read or write that fails gets a message on standard error.
// Buffers have a fixed size, since the program runs without a heap, as the library does. `Taken` is no option: its two parts say something
// each, whatever the other is.
#![tactic(auto)]

use config::{WriterLists, empty};
use config_text::read_config;
use listing::block::put_block;
use listing::program::{TEXT_ROOM, first_line};
use std::io::{Error, ErrorKind, Read, Write};
use std::rt::Files;
use std::{fs, io, str};
use walk::lines::LineCursor;
use wire::constants::MOST_DATAGRAM;
use wire::part::part;
use wire::refusal::Refusal;

// How many bytes were read, and whether more follow than the buffer holds.
#[derive(Clone, Copy)]
struct Taken {
    count: usize,
    more: bool,
}

// Reads until the buffer is full or the input ends, and one byte more; an error where reading failed (also where it was interrupted).
// Each read says how many bytes came, so the count goes on by no fixed step.
fn take(file: &mut impl Read, buffer: &mut [u8]) -> io::Result<Taken> {
    let mut count = 0;
    let mut failed = Error::from_raw_os_error(0);
    while count < buffer.len() {
        match file.read(&mut buffer[count..]) {
            Ok(0) => break,
            Ok(n) => count += n,
            Err(e) => {
                failed = e;
                break;
            }
        }
    }
    let mut rest = [0u8; 1];
    let more = 0 < file.read(&mut rest)?;
    if more & (count < buffer.len()) {
        return Err(failed);
    }
    Ok(Taken { count, more })
}

// The length of the text of `readers.txt`: 0 where the file is absent. A longer text than the buffer is refused by its front.
fn load(rt: &impl Files, text: &mut [u8]) -> io::Result<usize> {
    match fs::open(rt, "readers.txt") {
        Ok(mut file) => Ok(take(&mut file, text)?.count),
        Err(e) if e.kind() == ErrorKind::NotFound => Ok(0),
        Err(e) => Err(e),
    }
}

// Writes a line to standard error: what failed, a colon and the system's words.
fn fail(rt: &impl Eprint, what: &str, error: Error) {
    let mut text = [0u8; 256];
    let mut room: &mut [u8] = &mut text;
    let _ = write!(room, "{error}");
    let left = room.len();
    let n = text.len().saturating_sub(left);
    let _ = eprintln!(rt; "{what}: {}", words(part(&text, 0, n)));
}

// An error's text without its number, which the library puts behind the system's words.
fn words(text: &[u8]) -> &str {
    let all = str::from_utf8(text).unwrap_or("");
    match all.split_once(" (os error ") {
        Some((words, _)) => words,
        None => all,
    }
}

// Prints the lines from a cursor on, in blocks of whole lines.
fn print_lines(rt: &impl Print, s: &[u8], w: WriterLists<'_>, first: LineCursor) -> io::Result<()> {
    let mut text = [0u8; 65536];
    let mut cursor = first;
    loop {
        let block = put_block(&mut text, s, w, cursor);
        let n = block.length;
        if n == 0 {
            return Ok(());
        }
        rt.write_all(part(&text, 0, n))?;
        cursor = block.next;
    }
}

// The lines from a cursor on. A failed write gets a message on standard error.
fn list(rt: &(impl Print + Eprint), s: &[u8], w: WriterLists<'_>, first: LineCursor) {
    if let Err(e) = print_lines(rt, s, w, first) {
        fail(rt, "standard output", e);
    }
}

// The one line of a refused configuration.
fn refuse(rt: &(impl Print + Eprint), refusal: Refusal) {
    let none = empty();
    let w = none.lists();
    let first = first_line(&[], false, refusal.reason.number(), refusal.place, w.sizes);
    list(rt, &[], w, first);
}

fn main(rt: HostRuntime) {
    let mut text = [0u8; TEXT_ROOM];
    let loaded = match load(&rt, &mut text) {
        Ok(n) => n,
        Err(e) => return fail(&rt, "readers.txt", e),
    };
    let config = match read_config(part(&text, 0, loaded)) {
        Ok(config) => config,
        Err(refusal) => return refuse(&rt, refusal),
    };
    let w = config.lists();
    let mut datagram = [0u8; MOST_DATAGRAM];
    match take(&mut rt.stdin(), &mut datagram) {
        Ok(taken) => {
            let s = part(&datagram, 0, taken.count);
            list(&rt, s, w, first_line(s, taken.more, 0, 0, w.sizes));
        }
        Err(e) => fail(&rt, "standard input", e),
    }
}
