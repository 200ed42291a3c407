// NetworkMessages: the envelope of a datagram, its payload, each DataSetMessage as its own part of it, a probe's datagram; and their
// writers, which refuse as reading would.
#![tactic(auto)]

pub mod envelope;
pub mod payload;
pub mod probe_message;
pub mod writer;
pub mod writer_id;
mod writer_payload;
