// The fields of a DataSetMessage, one after the other, and the padding after them.
#![tactic(auto)]

pub mod fields;
pub mod quick;
pub mod values;
