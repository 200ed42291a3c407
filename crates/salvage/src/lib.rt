// What came of a message that never completes: its holes, and its leading fields that are whole (document 02, Req 13).
#![tactic(auto)]

pub mod front;
pub mod holes;
pub mod quick;
