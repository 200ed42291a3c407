// An envelope as a whole: what its header says, and where the variable parts end.
use crate::group::GroupFields;
use crate::header::PayloadHeader;
use publisher_id::publisher::PublisherId;
use wire::Guid;

// An envelope, without the bytes of its variable parts. Of promoted fields, which are located only, it has the size.
#[derive(Clone, Copy, PartialEq, Eq, Debug)]
pub struct Envelope {
    pub publisher: PublisherId,
    pub class_id: Option<Guid>,
    pub group: Option<GroupFields>,
    pub chunk: bool,
    pub payload_header: PayloadHeader,
    pub timestamp: Option<i64>,
    pub picoseconds: Option<u16>,
    pub promoted: Option<usize>,
}

// Where the variable parts end: a string PublisherId, the ids of the PayloadHeader, and the promoted fields, where the payload starts.
#[derive(Clone, Copy, PartialEq, Eq, Debug)]
pub struct Places {
    pub publisher_end: usize,
    pub payload_header_end: usize,
    pub payload: usize,
}
