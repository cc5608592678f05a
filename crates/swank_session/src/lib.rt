//! A whole session over a pipe: octets in, octets out.
//!
//! [`run_pipe`] takes the messages of a source, lets the threads of a [`swank_core::Core`] serve them by one fixed schedule, and writes what
//! they answer to a sink. What the layer above uses are its clauses, which are said of the octets taken and written and of the journal alone:
//! `messages` of `specs/Stream.antt`, the promises of `specs/Promises.antt`, the causes of each end in `specs/Causes.antt`.
#![tactic(auto)]

mod ends;
mod laws;
mod outcome;
mod pipe;
mod reading;
mod serving;
mod writing;

pub use laws::messages_are_of_the_stream;
pub use outcome::{Outcome, Status};
pub use pipe::run_pipe;
pub use swank_core::{Entry, Event, Journal, Limits};
