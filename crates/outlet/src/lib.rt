//! The way out: texts as packets into a sink.
//!
//! [`write_texts`] frames a batch of texts into one buffer, hands the buffer to the sink, and finishes. What the layer above uses is
//! that the octets written are the packets of the texts, one after another, or at a failure the first `sent` octets of them, and
//! that a write fault comes only where the sink's count of faults rose. The definitions stand in `specs/Written.antt`; packets are
//! those of `packet_framing`.
#![tactic(auto)]

#[cfg(test)]
mod tests;
mod texts;

pub use texts::{WriteCause, WriteFailure, write_texts};
