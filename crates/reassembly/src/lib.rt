// Reassembly of a message that came in chunks (document 01, "Reassembly"). A partial is a record by value and two lent areas, payload and
// marks; each operation is handed all three and hands the record back. They stay apart, as the C interface lends them: the areas of the
// partial that changes are lent each by itself, and its record is a value.
#![tactic(auto)]

mod areas;
mod judge;
mod operations;
pub mod quick;
mod record;

pub use operations::{
    Outcome, ask_complete, combine_in, empty, hand_out, hand_out_verdict, progress, take_in,
};
pub use record::{Message, MessageOrigin, PartialRecord};
