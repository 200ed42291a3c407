// The listing of a datagram: its lines in their order.
#![tactic(auto)]

pub mod entry;
pub mod lines;
