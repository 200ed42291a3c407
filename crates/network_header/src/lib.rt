// The parts of a NetworkMessage's header: each with its type, reader, writer, size and refusals.
#![tactic(auto)]

pub mod envelope;
pub mod flags;
pub mod group;
pub mod header;
pub mod numbers;
