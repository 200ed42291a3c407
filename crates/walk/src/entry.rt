// What a datagram holds, one entry after another: what the lines of a listing say, and the records of a walk.
use dataset_fields::fields::Field;
use dataset_header::flags::{Encoding, Kind};
use publisher_id::publisher::PublisherId;

// What a `set` line begins with: which message, its DataSetWriterId, and where it stands in the datagram.
#[derive(Clone, Copy, PartialEq, Eq, Debug)]
pub struct SetPlace {
    pub message: usize,
    pub writer: Option<u16>,
    pub offset: usize,
    pub length: usize,
}

// One entry of a datagram, as a line of its listing tells it. A refusal has its number and place, and no `Refusal`: `put_line` of
// `listing::line` puts a line that a caller made up, whose number may be no reason's, and `set_lines` and `answer_lines` say them of any
// answer.
#[derive(Clone, Copy, PartialEq, Eq, Debug)]
pub enum Line {
    // the datagram's length, its PublisherId and where that ends, and the number of messages
    Net(usize, PublisherId, usize, usize),
    // kind, encoding and sequence number of a message
    Set(SetPlace, Kind, Encoding, Option<u16>),
    // a message that is not valid
    SetInvalid(SetPlace),
    // a refused message, with number and place
    SetBad(SetPlace, u8, usize),
    // which message, and a field of it, whose offset counts in the datagram
    Field(usize, Field),
    // a refused configuration or datagram, with number and place
    Bad(u8, usize),
}
