// Chunks of a message (document 01, "Reassembly"): a chunk read from a datagram, and a payload cut into chunks.
#![tactic(auto)]

pub mod cut;
pub mod datagram;
pub mod payload;
