// The record of a partial: nine numbers, a spare one that holds 0, and 64 bytes for the text of a string PublisherId. The records of a
// chunk and of what is salvaged stand in modules of their own.
// A text lies in a buffer of a fixed size: there is no heap.
#![tactic(auto)]

pub mod chunk_record;
pub mod salvage_record;

ghost use Rattle.std.specs.Prelude.{◌≡◌};
ghost use Rattle.wire_writer.specs.Store.{laid};
ghost use Rattle.partial_record.specs.Partial.{publisher_in, group_id_in, message_in, partial_in, started_in, text_in, asked_in, partial_bytes, FitsRecord};

use publisher_id::publisher_record::{PublisherRecord, code};
use reassembly::quick::Held;
use reassembly::{Message, MessageOrigin, PartialRecord};
use records::items::{flag_number, has, is_on, value};
use records::numbers::{number, put_numbers};
use records::publisher::{publisher_by, publisher_number};
use records::sizes::PARTIAL_SIZE;
use wire::constants::MOST_TEXT_ID;
use wire::part::part;
use wire_writer::store::put_run;

// Which number of the record is that of the covered bytes.
pub const COVERED: usize = 8;

// Where the text stands.
const TEXT_AT: usize = 80;

// The text that a record has room for.
pub fn text_in(s: &[u8]) -> &[u8]
    ensures { result.now ≡ text_in s.now }
{
    part(s, TEXT_AT, MOST_TEXT_ID)
}

fn publisher_in(s: &[u8]) -> PublisherRecord
    ensures { result ≡ publisher_in s.now }
{
    let mut text = [0u8; MOST_TEXT_ID];
    put_run(&mut text, 0, text_in(s));
    let id = publisher_by(number(s, 1), number(s, 2));
    PublisherRecord { id, text }
}

// The WriterGroupId, where it is said to be there.
fn group_id_in(s: &[u8]) -> Option<u16>
    ensures { result ≡ group_id_in s.now }
{
    if is_on(number(s, 6)) {
        return Some((number(s, 7) % 65536) as u16);
    }
    None
}

fn message_in(s: &[u8]) -> Message
    ensures { result ≡ message_in s.now }
{
    let origin = MessageOrigin {
        publisher: publisher_in(s),
        group: group_id_in(s),
        writer: (number(s, 3) % 65536) as u16,
        number: (number(s, 4) % 65536) as u16,
    };
    Message {
        origin,
        total: number(s, 5) as usize,
    }
}

// A partial's record out of lent bytes.
pub fn partial_in(s: &[u8]) -> PartialRecord
    ensures { result ≡ partial_in s.now }
{
    PartialRecord {
        started: number(s, 0) == 1,
        message: message_in(s),
        covered: number(s, COVERED) as usize,
    }
}

// The record of a started partial but for its text, which stays where it is lent.
pub fn started_in(s: &[u8]) -> Held
    ensures { result ≡ started_in s.now }
{
    let writer = (number(s, 3) % 65536) as u16;
    let message_number = (number(s, 4) % 65536) as u16;
    Held {
        publisher: publisher_by(number(s, 1), number(s, 2)),
        group: group_id_in(s),
        writer,
        number: message_number,
        total: number(s, 5) as usize,
        covered: number(s, COVERED) as usize,
    }
}

// What handing out and a question of how far a partial is look at: its record without text, group, writer and message number. A question
// takes a third of the time by it.
pub fn asked_in(s: &[u8]) -> PartialRecord
    ensures { result ≡ asked_in s.now }
{
    let id = publisher_by(number(s, 1), number(s, 2));
    let text = [0u8; MOST_TEXT_ID];
    let publisher = PublisherRecord { id, text };
    let origin = MessageOrigin {
        publisher,
        group: None,
        writer: 0,
        number: 0,
    };
    let message = Message {
        origin,
        total: number(s, 5) as usize,
    };
    let started = number(s, 0) == 1;
    PartialRecord {
        started,
        message,
        covered: number(s, COVERED) as usize,
    }
}

// Stores a partial's record; where it does not fit, nothing.
pub fn put_partial(out: &mut [u8], rec: PartialRecord)
    ensures { (out.new ≡ laid out.old 0 (partial_bytes rec)) × FitsRecord rec }
{
    if out.len() < PARTIAL_SIZE {
        return;
    }
    let origin = rec.message.origin;
    let publisher = origin.publisher;
    let numbers = [
        flag_number(rec.started),
        code(publisher.id),
        publisher_number(publisher.id),
        origin.writer as u64,
        origin.number as u64,
        rec.message.total as u64,
        has(origin.group),
        value(origin.group),
        rec.covered as u64,
        0,
    ];
    put_numbers(out, &numbers);
    put_run(out, TEXT_AT, &publisher.text);
}
