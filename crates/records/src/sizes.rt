// How many bytes each lent record has (include/uadp.h).

// The configuration record's bytes.
pub const CONFIG_SIZE: usize = 146;

// The envelope record's bytes.
pub const ENVELOPE_SIZE: usize = 256;

// The head record's bytes.
pub const HEAD_SIZE: usize = 160;

// The field record's bytes.
pub const FIELD_SIZE: usize = 64;

// The message record's bytes.
pub const PLACE_SIZE: usize = 32;

// The bytes of a record of the walk.
pub const WALK_SIZE: usize = 80;

// The partial record's bytes.
pub const PARTIAL_SIZE: usize = 144;

// The sequence record's bytes.
pub const SEQUENCE_SIZE: usize = 16;

// The value record's bytes.
pub const VALUE_SIZE: usize = 192;

// The chunk record's bytes.
pub const CHUNK_SIZE: usize = 128;

// The probe record's bytes.
pub const PROBE_SIZE: usize = 128;

// The bytes of the record of a probe's id or string.
pub const ITEM_SIZE: usize = 32;
