// Encoded values of Part 6 told apart: what a value is, where its elements stand, and where it ends; and values put into a lent buffer. The
// bytes of a value are handed on as they stand: bits, never converted.
#![tactic(auto)]

pub mod data_value;
pub mod matrix_put;
pub mod name;
pub mod name_put;
pub mod put;
pub mod told;
