// The numbers that document 01 gives back and its limits, by the names that the C header has. 0 is done.

// "cut short: an item doesn't fit in what is left"
pub const CUT_SHORT: u8 = 1;

// "version not 1"
pub const BAD_VERSION: u8 = 2;

// "a bit or number not permitted"
pub const NOT_PERMITTED: u8 = 3;

// "in the standard, not taken here"
pub const NOT_TAKEN: u8 = 4;

// "bad length"
pub const BAD_LENGTH: u8 = 5;

// "counts, sizes or offsets disagree"
pub const DISAGREE: u8 = 6;

// "bytes left over"
pub const LEFT_OVER: u8 = 7;

// "the configuration doesn't say"
pub const NOT_CONFIGURED: u8 = 8;

// "nested too deep"
pub const TOO_DEEP: u8 = 9;

// "over a limit"
pub const OVER_LIMIT: u8 = 10;

// "no room in the lent buffer"
pub const NO_ROOM: u8 = 11;

// "reassembly record unsound"
pub const UNSOUND: u8 = 12;

// "chunk or partial of another message"
pub const OTHER_MESSAGE: u8 = 13;

// "a held byte differs"
pub const BYTE_DIFFERS: u8 = 14;

// "not complete"
pub const NOT_COMPLETE: u8 = 15;

// "bad configuration line"
pub const BAD_LINE: u8 = 16;

// The most bytes of a datagram.
pub const MOST_DATAGRAM: usize = 65535;

// The most bytes of a string PublisherId.
pub const MOST_TEXT_ID: usize = 64;

// The largest TotalSize of a chunked message.
pub const MOST_TOTAL: usize = 16384;

// The most configured writers.
pub const MOST_WRITERS: usize = 16;

// The most configured fields of all writers together.
pub const MOST_FIELDS: usize = 64;

// The first number of picoseconds that the writers refuse and that reading takes as the one below it.
pub const PICOSECONDS_END: u16 = 10000;

// The most picoseconds: what more than these read as.
pub const MOST_PICOSECONDS: u16 = 9999;

// How deep values nest: the field's own value is level 1.
pub const LEVELS: usize = 100;

// The type number of a DataValue.
pub const DATA_VALUE: u8 = 23;

// The type number of a Variant.
pub const VARIANT: u8 = 24;
