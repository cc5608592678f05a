//! The messages between Emacs and the server, and the patterns by which a thread waits for one.
//!
//! A packet's form becomes a typed message ([`FromEmacs`]) by [`of_sexp`]; a typed answer ([`ToEmacs`]) becomes a form by
//! [`to_sexp`]. What the crates above use is that `of_sexp` gives the message of the one shape that the form has, and refuses a
//! form exactly where it has none. The shapes stand in `specs/Incoming.antt`, the forms that are sent in `specs/Outgoing.antt`,
//! and what a pattern accepts in `specs/Waiting.antt`.
#![tactic(auto)]

mod cut_text;
mod from_emacs;
mod pattern;
#[cfg(test)]
mod tests;
mod to_emacs;

pub use cut_text::cut;
pub use from_emacs::{FromEmacs, MessageFault, ThreadName, of_sexp};
pub use pattern::{Pattern, accepts};
pub use to_emacs::{FrameLine, RestartLine, Returned, ToEmacs, to_sexp};
