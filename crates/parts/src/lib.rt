// A part of what the caller lent, or why there is none: `lent_part` of each module, and `locate`, which tells where it stands.
#![tactic(auto)]

pub mod chunk_data;
pub mod field;
pub mod message;
pub mod part;
pub mod payload;
