// A whole listing as text in a lent buffer: first its length, then its lines one after the other.
ghost use Rattle.std.specs.Prelude.{◌≡◌, ◌≤◌, length};
ghost use Rattle.config.specs.Writers.{lists_in};
ghost use Rattle.walk.specs.Lines.{lines_from, accepted_lines, listing_of};
ghost use Rattle.listing.specs.Text.{line_out, lines_text, length_in, text_written, text_after};

use crate::block::{line_in, put_block};
use crate::quick::{put_lines, put_one, surely_fits};
use config::WriterLists;
use walk::entry::Line;
use walk::lines::{LineCursor, Listed, next_line, start};
use wire::refusal::Reason;

fn line_length(s: &[u8], line: Line) -> usize
    ensures { (result ≡ length (line_out s.now line)) × (result ≤ 256) }
{
    let mut text = [0u8; 256];
    line_in(&mut text, s, line)
}

// The length of the text of the lines from a cursor on, where it fits into some room.
fn text_length(room: usize, s: &[u8], first: LineCursor, w: WriterLists<'_>) -> Option<usize>
    ensures { result ≡ length_in room (lines_text s.now (lines_from (lists_in w.entry) s.now first)) }
{
    let mut cursor = first;
    let mut total = 0;
    while let Some((line, next)) = next_line(s, w, cursor) {
        let n = line_length(s, line);
        if room - total < n {
            return None;
        }
        total += n;
        cursor = next;
    }
    Some(total)
}

// Puts the lines from a cursor on at the start of a buffer, their length counted first; 11 where they do not fit.
fn put_counted(
    out: &mut [u8],
    s: &[u8],
    first: LineCursor,
    w: WriterLists<'_>,
) -> Result<usize, Reason>
    ensures { let text = lines_text s.now (lines_from (lists_in w.entry) s.now first) in
        (result ≡ text_written out.old text) × (out.new ≡ text_after out.old text) }
{
    let Some(n) = text_length(out.len(), s, first, w) else {
        return Err(Reason::NoRoom);
    };
    put_block(out, s, w, first);
    Ok(n)
}

// Puts the lines of an accepted datagram at the start of a buffer, in one pass where it surely holds them; 11 where they do not fit.
fn put_several(out: &mut [u8], s: &[u8], w: WriterLists<'_>, l: Listed) -> Result<usize, Reason>
    ensures { let text = lines_text s.now (accepted_lines (lists_in w.entry) s.now l) in
        (result ≡ text_written out.old text) × (out.new ≡ text_after out.old text) }
{
    if surely_fits(out.len(), s, w, l) {
        return Ok(put_lines(out, s, w, l));
    }
    put_counted(out, s, LineCursor::Net(l), w)
}

// Puts the whole listing of a datagram at the start of a buffer, under a configuration whose reading gave a number and a place; 11 where
// it does not fit.
pub fn put_listing(
    out: &mut [u8],
    s: &[u8],
    number: u8,
    place: usize,
    w: WriterLists<'_>,
) -> Result<usize, Reason>
    ensures { let text = lines_text s.now (listing_of number place (lists_in w.entry) s.now) in
        (result ≡ text_written out.old text) × (out.new ≡ text_after out.old text) }
{
    let first = start(s, number, place, w.sizes);
    let LineCursor::Net(l) = first else {
        return put_counted(out, s, first, w);
    };
    match put_one(out, s, w, l) {
        Some(n) => Ok(n),
        None => put_several(out, s, w, l),
    }
}

// How long the whole listing of a datagram is, under a configuration whose reading gave a number and a place, where it fits into some
// room.
pub fn listing_length(
    room: usize,
    s: &[u8],
    number: u8,
    place: usize,
    w: WriterLists<'_>,
) -> Option<usize>
    ensures { result ≡ length_in room (lines_text s.now (listing_of number place (lists_in w.entry) s.now)) }
{
    let first = start(s, number, place, w.sizes);
    text_length(room, s, first, w)
}
