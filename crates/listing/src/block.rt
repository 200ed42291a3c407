// The lines of a listing in blocks: as many whole lines as fit into a lent buffer, and the cursor before the next one.
ghost use Rattle.std.specs.Prelude.{◌≡◌, ◌≤◌, [], length};
ghost use Rattle.std.proofs.lemmas.List.Edits.{sets};
ghost use Rattle.config.specs.Writers.{lists_in};
ghost use Rattle.walk.specs.Lines.{lines_from, cursor_after};
ghost use Rattle.listing.specs.Text.{line_out, lines_text, line_placed, placed_after, lines_fitting, block_text};

use crate::line::put_line;
use config::WriterLists;
use walk::entry::Line;
use walk::lines::{LineCursor, next_line};
use wire::part::part;
use wire_writer::store::put_run;

// How many bytes at the buffer's start are the block, and the cursor before the line after it, which holds what `network_header::header`
// and `network_message::payload` declare.
#[derive(Clone, Copy, PartialEq, Eq, Debug)]
pub struct Block {
    pub length: usize,
    pub next: LineCursor,
}

// Puts a line's text at the start of a buffer of 256 bytes, and answers how long it is.
pub(crate) fn line_in(text: &mut [u8], s: &[u8], line: Line) -> usize
    requires { length text.old ≡ 256 }
    ensures { let bytes = line_out s.now line in
        (result ≡ length bytes) × (text.new ≡ sets text.old 0 bytes) × (result ≤ 256) }
{
    put_line(text, s, line).unwrap_or(0)
}

// Puts a line's text from a position on, where fewer than 256 bytes are left: by way of a buffer of its own. The position after it, none
// where it does not fit.
fn place_near_end(out: &mut [u8], at: usize, s: &[u8], line: Line) -> Option<usize>
    requires { at ≤ length out.old }
    ensures { let bytes = line_out s.now line in
        (result ≡ line_placed out.old at bytes)
        × (out.new ≡ placed_after out.old at bytes)
        × (length bytes ≤ 256) }
{
    let mut text = [0u8; 256];
    let n = line_in(&mut text, s, line);
    if out.len() - at < n {
        return None;
    }
    put_run(out, at, part(&text, 0, n));
    Some(at + n)
}

// Puts a line's text from a position on, where it fits.
fn place_line(out: &mut [u8], at: usize, s: &[u8], line: Line) -> Option<usize>
    requires { at ≤ length out.old }
    ensures { let bytes = line_out s.now line in
        (result ≡ line_placed out.old at bytes)
        × (out.new ≡ placed_after out.old at bytes)
        × (length bytes ≤ 256) }
{
    if out.len() - at < 256 {
        return place_near_end(out, at, s, line);
    }
    let end = at + 256;
    let n = line_in(&mut out[at..end], s, line);
    Some(at + n)
}

// Puts the lines from a cursor on at the start of a buffer, as many as fit one after the other. No line is longer than 256 bytes: where the
// buffer is not shorter, an empty block is the end. It is not put in line: its buffers would be on the stack while lines are counted.
#[inline(never)]
pub fn put_block(out: &mut [u8], s: &[u8], w: WriterLists<'_>, first: LineCursor) -> Block
    ensures { let said = lists_in w.entry in
        let lines = lines_from said s.now first in
        let room = length out.old in
        let text = block_text s.now room lines in
        (result.length ≡ length text)
        × (out.new ≡ sets out.old 0 text)
        × (result.next ≡ cursor_after said s.now (lines_fitting s.now room lines) first)
        × (256 ≤ room → result.length ≡ 0 → lines_text s.now lines ≡ []) }
{
    let mut cursor = first;
    let mut at = 0;
    while let Some((line, next)) = next_line(s, w, cursor) {
        let Some(end) = place_line(out, at, s, line) else {
            return Block {
                length: at,
                next: cursor,
            };
        };
        at = end;
        cursor = next;
    }
    Block {
        length: at,
        next: cursor,
    }
}
