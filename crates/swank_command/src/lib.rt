//! What the words of a command line run: octets in, octets out.
//!
//! [`run`] is the whole of the program over any source and any sink. It reads the words with [`command_words`] and runs the session that
//! they ask for with [`swank_session`], whose clauses it repeats; which words are a command says `limits_of` of `command_words/specs/Words.antt`,
//! what the other words of its clauses mean stands in `swank_session/specs`.
#![tactic(auto)]

mod command;

pub use command::run;
pub use swank_session::{Journal, Outcome, Status};
