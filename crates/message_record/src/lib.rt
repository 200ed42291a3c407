// The records of a message's head, of a field, and of a value.
#![tactic(auto)]

pub mod message;
pub mod quick;
pub mod value_record;
