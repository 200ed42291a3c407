// Partials, and records from the words of a line.
use publisher_id::publisher::PublisherId;
use publisher_id::publisher_record::PublisherRecord;
use reassembly::{Message, MessageOrigin, PartialRecord};
use vector_lines::lines::{lettered, lettered16, low16, numbered};

// A partial with a payload area of 8 bytes.
#[derive(Clone, Copy)]
pub struct Part {
    pub rec: PartialRecord,
    pub payload: [u8; 8],
    pub marks: [u8; 1],
}

// A partial's record.
pub fn record(parts: &[u8]) -> PartialRecord {
    PartialRecord {
        started: numbered(parts, b's') == 1,
        message: Message {
            origin: MessageOrigin {
                publisher: PublisherRecord {
                    id: publisher(parts),
                    text: [(numbered(parts, b'x') % 256) as u8; 64],
                },
                group: lettered16(parts, b'g'),
                writer: low16(numbered(parts, b'w')),
                number: low16(numbered(parts, b'n')),
            },
            total: numbered(parts, b'l'),
        },
        covered: numbered(parts, b'c'),
    }
}

// A partial with another record.
pub fn with_record(p: Part, rec: PartialRecord) -> Part {
    Part { rec, ..p }
}

fn publisher(parts: &[u8]) -> PublisherId {
    if let Some((n, _)) = lettered(parts, b'd') {
        return PublisherId::UInt32((n % 4294967296) as u32);
    }
    if let Some((n, _)) = lettered(parts, b't') {
        return PublisherId::Text(n as usize);
    }
    PublisherId::UInt16(low16(numbered(parts, b'h')))
}
