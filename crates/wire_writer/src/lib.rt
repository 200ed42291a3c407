// Numbers and runs of bytes stored into a lent buffer, and what the writers share.
#![tactic(auto)]

pub mod store;
pub mod writing;
