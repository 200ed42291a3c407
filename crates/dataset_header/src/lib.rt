// The header of a DataSetMessage: its flags, and the items before the fields.
#![tactic(auto)]

pub mod flags;
pub mod header;
