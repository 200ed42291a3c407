// The text of a walk (document 01, "Configuration and listing"): an entry's line, and a whole listing.
#![tactic(auto)]

pub mod block;
mod columns;
pub mod line;
pub mod program;
mod quick;
mod quick_decimal;
pub mod whole;
