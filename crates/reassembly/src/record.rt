// The record of a partial, and when it is sound.
ghost use Rattle.std.specs.Prelude.{◌≡◌};
ghost use Rattle.reassembly.specs.Record.{same_group, origin_of, same_origin, identity_of, same_message, sound_by};
ghost use Rattle.marks.specs.Marks.{in_use};

use marks::marks_for;
use publisher_id::publisher_record::{PublisherRecord, publisher_fits, same_publisher};

// Where a message comes from: publisher, WriterGroupId where there is one, DataSetWriterId and MessageSequenceNumber.
#[derive(Clone, Copy)]
pub struct MessageOrigin {
    pub publisher: PublisherRecord,
    pub group: Option<u16>,
    pub writer: u16,
    pub number: u16,
}

// Which message: its origin and TotalSize.
#[derive(Clone, Copy)]
pub struct Message {
    pub origin: MessageOrigin,
    pub total: usize,
}

// A partial's record: whether it is started, the message it then has, and how many of its bytes are covered. Where a caller made the number
// up it may be wrong: above the total it is unsound, else handing out refuses it.
// The flag stands beside the message, as the C interface lends both: what a caller made up stays as it was, whatever the flag says.
#[derive(Clone, Copy)]
pub struct PartialRecord {
    pub started: bool,
    pub message: Message,
    pub covered: usize,
}

// Whether two messages have the same WriterGroupId: absent equals only absent.
pub(crate) fn same_group(a: Option<u16>, b: Option<u16>) -> bool
    ensures { result ≡ same_group a b }
{
    a == b
}

// Whether two messages have the same origin: publisher, group, writer and number.
#[tactic(auto, unfolding(crate::specs::Record::same_origin))]
pub(crate) fn same_origin(a: MessageOrigin, b: MessageOrigin) -> bool
    ensures { result ≡ same_origin (origin_of a) (origin_of b) }
{
    same_publisher(a.publisher, b.publisher)
        && same_group(a.group, b.group)
        && a.writer == b.writer
        && a.number == b.number
}

// Whether two messages are the same: origin and total.
#[tactic(auto, unfolding(crate::specs::Record::same_message))]
pub(crate) fn same_message(a: Message, b: Message) -> bool
    ensures { result ≡ same_message (identity_of a) (identity_of b) }
{
    same_origin(a.origin, b.origin) && a.total == b.total
}

// Whether a record is sound over areas of these lengths.
pub(crate) fn is_sound(rec: PartialRecord, payload_len: usize, marks_len: usize) -> bool
    ensures { result ≡ sound_by in_use rec payload_len marks_len }
{
    if marks_for(payload_len) != marks_len {
        return false;
    }
    if !rec.started {
        return true;
    }
    let m = rec.message;
    if m.total < 1 {
        return false;
    }
    if payload_len < m.total {
        return false;
    }
    if m.total < rec.covered {
        return false;
    }
    let origin = m.origin;
    let publisher = origin.publisher;
    publisher_fits(publisher)
}
