// The Publisher information probe: what it asks for, read and written; its ids and strings one after the other.
#![tactic(auto)]

pub mod body;
pub mod items;
pub mod put;
