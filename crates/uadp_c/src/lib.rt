// The library for C and Rust: its functions take numbers and lent bytes, and answer one number. include/uadp.h tells their arguments, the
// layouts of their records and their answers.
#![tactic(auto)]

pub mod chunks;
pub mod composing;
pub mod configuring;
pub mod cutting;
pub mod fields;
pub mod listings;
pub mod messages;
pub mod newness;
pub mod probes;
pub mod reassembling;
mod refusals;
pub mod rewrites;
pub mod salvaging;
pub mod values;
pub mod walks;
