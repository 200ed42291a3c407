// The PublisherId of a NetworkMessage: read from a datagram, and as a record of its own that can be kept and compared.
#![tactic(auto)]

pub mod publisher;
pub mod publisher_record;
