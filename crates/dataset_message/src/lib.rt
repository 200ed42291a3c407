// DataSetMessages read whole, field k as a part of the lent bytes, and the writers, whole and again from their parts.
#![tactic(auto)]

mod given;
pub mod message;
pub mod rewrite;
pub mod writer;
mod writer_parts;
