// The static library: each function of uadp_c for C and Rust, under the same clauses. include/uadp.h tells their arguments, the layouts of
// their records and their answers.
#![tactic(auto)]

pub mod chunks;
pub mod composing;
pub mod configuring;
pub mod cutting;
pub mod fields;
pub mod listings;
pub mod messages;
pub mod newness;
pub mod probes;
pub mod reassembling;
pub mod rewrites;
pub mod salvaging;
pub mod values;
pub mod walks;
