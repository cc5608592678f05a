//! The inlet: from the octets of a source to messages.
//!
//! [`pump`] gives the next message of a stream, and reads only where the octets that it keeps hold no whole packet. What the
//! crates above use is that, whatever the pieces were that a source gave, the messages that a list of calls gave are those of the
//! first packets of all octets read; [`calls_take_the_stream`] says so, and [`messages_are_exact`] that a stream has one list of
//! messages. What message a payload is stands in
//! `specs/Messages.antt`, what one call does in `specs/Pump.antt`, and the calls of a stream in `specs/Calls.antt`.
#![tactic(auto)]

mod laws;
mod payload;
mod pumping;
#[cfg(test)]
mod tests;

pub use laws::{calls_take_the_stream, messages_are_exact};
pub use payload::message_of;
pub use pumping::{INPUT_LIMIT, Pumped, pump};
