// Records that cross to other languages as lent bytes (include/uadp.h): their numbers of 8 bytes, lowest byte first, one after the other;
// what several records have; the configuration record and the sequence record.
#![tactic(auto)]

pub mod items;
pub mod last_number;
pub mod numbers;
pub mod publisher;
pub mod result;
pub mod sizes;
pub mod writers;
