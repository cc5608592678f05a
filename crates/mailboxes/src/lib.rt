//! The mailbox of a thread: the messages that were routed to it and that it has not taken yet.
//!
//! A mailbox is one list of messages in order of arrival, each with its place in the session's journal. What the crates above
//! use is that `take_first` gives the first message that a pattern accepts and leaves the others in order. The definitions stand
//! in `specs/Mail.antt`.
#![tactic(auto)]

mod mailbox;
#[cfg(test)]
mod tests;

pub use mailbox::Mailbox;
