// The lines of a listing in their order, by a cursor that steps from one to the next.
ghost use Rattle.std.specs.Prelude.{◌≡◌};
ghost use Rattle.config.specs.Writers.{lists_in};
ghost use Rattle.walk.specs.Lines.{listed_of, start_cursor, set_step, message_step, field_step, next_line};

use crate::entry::{Line, SetPlace};
use config::WriterLists;
use dataset_fields::fields::{Cursor, Field};
use dataset_message::message::read;
use network_header::envelope::{Envelope, Places};
use network_header::header::PayloadHeader;
use network_message::payload::{MessageCursor, MessagePlace, Payload};
use network_message::writer_id::writer_id;
use publisher_id::publisher::PublisherId;
use wire::part::part;

// What the listing needs of an accepted datagram: its PublisherId and PayloadHeader with the positions where they end, and its messages.
#[derive(Clone, Copy, PartialEq, Eq, Debug)]
pub struct Listed {
    pub publisher: PublisherId,
    pub publisher_end: usize,
    pub header: PayloadHeader,
    pub header_end: usize,
    pub payload: Payload,
}

// A cursor over the lines: before the one line of a refusal, before the `net` line, before a message, or before a field of the message in a
// place; the message cursor stands before the message after it.
#[derive(Clone, Copy, PartialEq, Eq, Debug)]
pub enum LineCursor {
    Bad(u8, usize),
    Net(Listed),
    Message(Listed, MessageCursor),
    Field(Listed, MessageCursor, MessagePlace, Cursor),
    End,
}

fn listed_of(envelope: Envelope, places: Places, payload: Payload) -> Listed
    ensures { result ≡ listed_of (record { envelope = envelope; places = places; payload = payload }) }
{
    Listed {
        publisher: envelope.publisher,
        publisher_end: places.publisher_end,
        header: envelope.payload_header,
        header_end: places.payload_header_end,
        payload,
    }
}

// The cursor before the first line of a datagram's listing, under a configuration whose reading gave a number (0 where it was accepted)
// and a place, and the sizes of its writers.
pub fn start(s: &[u8], number: u8, place: usize, sizes: &[u16]) -> LineCursor
    ensures { result ≡ start_cursor number place sizes.now s.now }
{
    if number != 0 {
        return LineCursor::Bad(number, place);
    }
    match network_message::envelope::read(s, sizes) {
        Err(r) => LineCursor::Bad(r.reason.number(), r.place),
        Ok((envelope, places, payload)) => LineCursor::Net(listed_of(envelope, places, payload)),
    }
}

// The `set` line of the message in a place, and the cursor before the next line; the message cursor stands after it.
fn set_line(
    s: &[u8],
    w: WriterLists<'_>,
    l: Listed,
    after: MessageCursor,
    p: MessagePlace,
) -> (Line, LineCursor)
    ensures { result ≡ set_step (lists_in w.entry) s.now l after p }
{
    let writer = writer_id(s, l.header, l.header_end, w.ids, p.index);
    let place = SetPlace {
        message: p.index,
        writer,
        offset: p.offset,
        length: p.length,
    };
    let after_set = LineCursor::Message(l, after);
    match read(part(s, p.offset, p.length), w.types_of(writer)) {
        Err(r) => (Line::SetBad(place, r.reason.number(), r.place), after_set),
        Ok(None) => (Line::SetInvalid(place), after_set),
        Ok(Some((h, fields, _))) => (
            Line::Set(place, h.kind, h.encoding, h.sequence),
            LineCursor::Field(l, after, p, fields),
        ),
    }
}

// The `set` line of the message that a cursor stands before.
fn message_line(
    s: &[u8],
    w: WriterLists<'_>,
    l: Listed,
    c: MessageCursor,
) -> Option<(Line, LineCursor)>
    ensures { result ≡ message_step (lists_in w.entry) s.now l c }
{
    let (p, after) = c.step(s, l.payload, w.sizes).ok()?;
    Some(set_line(s, w, l, after, p))
}

// The line of the field that a cursor stands before, or else of the next message.
fn field_line(
    s: &[u8],
    w: WriterLists<'_>,
    l: Listed,
    c: MessageCursor,
    p: MessagePlace,
    f: Cursor,
) -> Option<(Line, LineCursor)>
    ensures { result ≡ field_step (lists_in w.entry) s.now l c p f }
{
    let writer = writer_id(s, l.header, l.header_end, w.ids, p.index);
    let Ok((x, next)) = f.step(part(s, p.offset, p.length), w.types_of(writer)) else {
        return message_line(s, w, l, c);
    };
    let field = Field {
        offset: p.offset + x.offset,
        ..x
    };
    Some((
        Line::Field(p.index, field),
        LineCursor::Field(l, c, p, next),
    ))
}

// The line that a cursor stands before, and the cursor before the next one; none where no line is left.
pub fn next_line(s: &[u8], w: WriterLists<'_>, cursor: LineCursor) -> Option<(Line, LineCursor)>
    ensures { result ≡ next_line (lists_in w.entry) s.now cursor }
{
    match cursor {
        LineCursor::Bad(n, place) => Some((Line::Bad(n, place), LineCursor::End)),
        LineCursor::Net(l) => {
            let first = MessageCursor {
                index: 0,
                at: l.payload.first,
            };
            let net = Line::Net(s.len(), l.publisher, l.publisher_end, l.payload.count);
            Some((net, LineCursor::Message(l, first)))
        }
        LineCursor::Message(l, c) => message_line(s, w, l, c),
        LineCursor::Field(l, c, p, f) => field_line(s, w, l, c, p, f),
        LineCursor::End => None,
    }
}
