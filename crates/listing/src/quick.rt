// A whole listing into a buffer that surely holds it, each message read once: no line is longer than 256 bytes, and the fronts of the
// messages tell how many lines there are at most; with one message the front is read once for both. The lines of a message's first fields
// go into a buffer of their own until it is known that the message is accepted; the fields after them are told once more, and put in place.
// It puts what `put_counted` does (proofs/OnePass.antt). Worth: it leaves a sixth to a third of the time; the front that is read once is
// a twelfth of a short datagram's time.
ghost use Rattle.std.specs.Prelude.{◌≡◌, true, ◌++◌, ◌+◌, ◌*◌, ◌≤◌, length, take, drop};
ghost use Rattle.std.proofs.lemmas.List.Edits.{sets};
ghost use Rattle.dataset_message.specs.Message.{message_at, front_at, end_at};
ghost use Rattle.config.specs.Writers.{lists_in};
ghost use Rattle.walk.specs.Lines.{in_datagram, accepted_lines, fields_left};
ghost use Rattle.listing.specs.Columns.{tabbed, line_end, optional_text, Put};
ghost use Rattle.listing.specs.Line.{place_text, head_text, field_text};
ghost use Rattle.listing.specs.Text.{line_out, lines_text};
ghost use Rattle.walk.specs.declared.entry.Line.{Line};
ghost use Rattle.listing.specs.Quick.{set_place_of, set_text, fields_text, LinesPut, OnePut, message_verdict, answer_judged, rest_accepted, field_count, most_lines};

use crate::line::{field, id_too_long, net, set, set_bad, set_invalid};
use config::WriterLists;
use dataset_fields::fields::{Cursor, Field, padding, read_field};
use dataset_header::header::Header;
use dataset_message::message::{front, read};
use network_message::payload::{MessageCursor, MessagePlace};
use network_message::writer_id::writer_id;
use walk::entry::SetPlace;
use walk::lines::Listed;
use wire::part::part;
use wire::refusal::Refusal;
use wire_writer::store::put_run;

// No line is longer.
const MOST_LINE: usize = 256;

// The line of a field of the message in a place.
fn put_field(out: &mut [u8], at: usize, p: MessagePlace, x: Field) -> usize
    requires { (at + 256 ≤ length out.old) × (p.offset + x.offset ≤ 18446744073709551615) }
    ensures { Put 256 (field_text p.index (in_datagram p x)) out.old at out.new result }
{
    let f = Field {
        offset: p.offset + x.offset,
        ..x
    };
    field(out, at, p.index, f)
}

// The lines of a message's fields from the cursor on, while there is room for any line: the position after their text, and the cursor
// before the next field or that field's refusal.
fn put_fields(
    out: &mut [u8],
    first: usize,
    message: &[u8],
    types: &[u8],
    p: MessagePlace,
    c: Cursor,
) -> (usize, Result<Cursor, Refusal>)
    requires { (first ≤ length out.old) × (p.offset + length message.now ≤ 18446744073709551615) }
    ensures { LinesPut types.now message.now p c first result out.old out.new }
{
    let mut at = c.at;
    let mut end = first;
    for i in c.next..c.count {
        if out.len() - end < MOST_LINE {
            return (end, Ok(Cursor { next: i, at, ..c }));
        }
        match read_field(&*message, c.encoding, c.delta, &*types, i, at) {
            Err(r) => return (end, Err(r)),
            Ok((f, next)) => {
                end = put_field(out, end, p, f);
                at = next;
            }
        }
    }
    (
        end,
        Ok(Cursor {
            next: c.count,
            at,
            ..c
        }),
    )
}

// Whether a message is accepted whose fields before the cursor are: the fields from there on, and the padding.
fn judge(message: &[u8], types: &[u8], c: Cursor) -> Result<(), Refusal>
    requires { message_verdict (message_at types.now message.now) ≡ rest_accepted types.now message.now c }
    ensures { answer_judged result ≡ message_verdict (message_at types.now message.now) }
{
    if c.count <= c.next {
        padding(message, c.at)?;
        return Ok(());
    }
    read(message, types)?;
    Ok(())
}

// The lines of an accepted message: its own, those of its first fields, which were told, and those of its fields from the cursor on.
fn put_accepted(
    out: &mut [u8],
    at: usize,
    told: &[u8],
    message: &[u8],
    types: &[u8],
    place: SetPlace,
    p: MessagePlace,
    h: Header,
    c: Cursor,
) -> usize
    requires { (at + 256 + length told.now + 256 * fields_left c ≤ length out.old)
        × (p.offset + length message.now ≤ 18446744073709551615) }
    ensures { let head = place_text place ++ (head_text h.kind h.encoding ++ (tabbed (optional_text h.sequence) ++ line_end)) in
        let text = head ++ (told.now ++ fields_text types.now message.now p c) in
        Put (256 + length told.now + 256 * fields_left c) text out.old at out.new result }
{
    let first = set(out, at, place, h.kind, h.encoding, h.sequence);
    let then = put_run(out, first, told);
    if c.count <= c.next {
        return then;
    }
    let (end, _) = put_fields(out, then, message, types, p, c);
    end
}

// The lines of a message that was read up to the cursor before its first field.
fn put_opened(
    out: &mut [u8],
    at: usize,
    message: &[u8],
    types: &[u8],
    place: SetPlace,
    p: MessagePlace,
    h: Header,
    c: Cursor,
) -> usize
    requires { (at + 256 * (1 + c.count) ≤ length out.old) × (p.offset + length message.now ≤ 18446744073709551615)
        × (c.next ≡ 0) × (message_at types.now message.now ≡ end_at h c types.now message.now) }
    ensures { let text = set_text types.now message.now p place (message_at types.now message.now) in
        Put (256 * (1 + c.count)) text out.old at out.new result }
{
    let mut text = [0u8; 512];
    let (end, told) = put_fields(&mut text, 0, message, types, p, c);
    let after = match told {
        Err(r) => return set_bad(out, at, place, r.reason.number(), r.place),
        Ok(after) => after,
    };
    if let Err(r) = judge(message, types, after) {
        return set_bad(out, at, place, r.reason.number(), r.place);
    }
    put_accepted(
        out,
        at,
        part(&text, 0, end),
        message,
        types,
        place,
        p,
        h,
        after,
    )
}

// The lines of the message in a place.
fn put_message(
    out: &mut [u8],
    at: usize,
    s: &[u8],
    types: &[u8],
    writer: Option<u16>,
    p: MessagePlace,
) -> usize
    requires { let bytes = take p.length (drop p.offset s.now) in
        at + 256 * (1 + field_count (front_at types.now bytes)) ≤ length out.old }
    ensures { let bytes = take p.length (drop p.offset s.now) in
        let text = set_text types.now bytes p (set_place_of p writer) (message_at types.now bytes) in
        let most = 256 * (1 + field_count (front_at types.now bytes)) in
        Put most text out.old at out.new result }
{
    let message = part(s, p.offset, p.length);
    let place = SetPlace {
        message: p.index,
        writer,
        offset: p.offset,
        length: p.length,
    };
    match front(message, types) {
        Err(r) => set_bad(out, at, place, r.reason.number(), r.place),
        Ok(None) => set_invalid(out, at, place),
        Ok(Some((h, c, _))) => put_opened(out, at, message, types, place, p, h, c),
    }
}

// The `net` line of a datagram; none with a string id above 64 bytes, which no accepted datagram has.
fn put_net(out: &mut [u8], s: &[u8], l: Listed) -> usize
    requires { 256 ≤ length out.old }
    ensures { let line = Line.Net (length s.now) l.publisher l.publisher_end l.payload.count in
        Put 256 (line_out s.now line) out.old 0 out.new result }
{
    if id_too_long(l.publisher) {
        return 0;
    }
    net(
        out,
        0,
        s,
        s.len(),
        l.publisher,
        l.publisher_end,
        l.payload.count,
    )
}

// The lines of an accepted datagram, where there is room for each.
pub(crate) fn put_lines(out: &mut [u8], s: &[u8], w: WriterLists<'_>, l: Listed) -> usize
    requires { 256 * most_lines (lists_in w) s.now l ≤ length out.old }
    ensures { let text = lines_text s.now (accepted_lines (lists_in w.entry) s.now l) in
        (result ≡ length text) × (out.new ≡ sets out.old 0 text) × (result ≤ length out.old) }
{
    let mut at = put_net(out, s, l);
    let mut c = MessageCursor {
        index: 0,
        at: l.payload.first,
    };
    while let Ok((p, next)) = c.step(s, l.payload, w.sizes) {
        let writer = writer_id(s, l.header, l.header_end, w.ids, p.index);
        let configured = w.types_of(writer);
        at = put_message(out, at, s, configured, writer, p);
        c = next;
    }
    at
}

// The lines of a datagram whose one message is in a place, where there is room for each; a message whose front is refused or not valid is
// left to the other ways.
fn put_both(
    out: &mut [u8],
    s: &[u8],
    types: &[u8],
    writer: Option<u16>,
    p: MessagePlace,
    l: Listed,
) -> Option<usize>
    ensures { let line = Line.Net (length s.now) l.publisher l.publisher_end l.payload.count in
        let bytes = take p.length (drop p.offset s.now) in
        let text = set_text types.now bytes p (set_place_of p writer) (message_at types.now bytes) in
        OnePut (line_out s.now line ++ text) result out.old out.new }
{
    let lines = out.len() / MOST_LINE;
    if lines < 2 {
        return None;
    }
    let message = part(s, p.offset, p.length);
    let Ok(Some((h, c, _))) = front(message, types) else {
        return None;
    };
    if lines - 2 < c.count {
        return None;
    }
    let place = SetPlace {
        message: p.index,
        writer,
        offset: p.offset,
        length: p.length,
    };
    let at = put_net(out, s, l);
    Some(put_opened(out, at, message, types, place, p, h, c))
}

// The lines of an accepted datagram with one message, where there is room for each.
pub(crate) fn put_one(out: &mut [u8], s: &[u8], w: WriterLists<'_>, l: Listed) -> Option<usize>
    ensures { OnePut (lines_text s.now (accepted_lines (lists_in w.entry) s.now l)) result out.old out.new }
{
    if l.payload.count != 1 {
        return None;
    }
    let first = MessageCursor {
        index: 0,
        at: l.payload.first,
    };
    let Ok((p, _)) = first.step(s, l.payload, w.sizes) else {
        return None;
    };
    let writer = writer_id(s, l.header, l.header_end, w.ids, p.index);
    put_both(out, s, w.types_of(writer), writer, p, l)
}

// How many fields a message has at most, by its front.
fn field_count(message: &[u8], types: &[u8]) -> usize
    ensures { result ≡ field_count (front_at types.now message.now) }
{
    match front(message, types) {
        Ok(Some((_, c, _))) => c.count,
        _ => 0,
    }
}

// Whether there is room for each line of an accepted datagram.
pub(crate) fn surely_fits(room: usize, s: &[u8], w: WriterLists<'_>, l: Listed) -> bool
    ensures { (result ≡ true → 256 * most_lines (lists_in w.entry) s.now l ≤ room) }
{
    let mut left = room / MOST_LINE;
    let mut c = MessageCursor {
        index: 0,
        at: l.payload.first,
    };
    while let Ok((p, next)) = c.step(s, l.payload, w.sizes) {
        let writer = writer_id(s, l.header, l.header_end, w.ids, p.index);
        let fields = field_count(part(s, p.offset, p.length), w.types_of(writer));
        if left <= fields {
            return false;
        }
        left = left - fields - 1;
        c = next;
    }
    0 < left
}
