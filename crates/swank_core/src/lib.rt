//! A live session, which stands for the run of its journal.
//!
//! A [`Core`] is seen as the image that it was opened with, its limits and its journal. What the layer above uses is that each event adds
//! exactly the entry of its name, and that all that the core answers is said of the run of that journal: `world` of `specs/Session.antt`.
#![tactic(auto)]

mod burst;
mod fault;
mod journal;
mod live;
mod loan;
mod outputs;
mod record;
mod state;
#[cfg(test)]
mod tests;
mod texts;
mod threads;
mod workers;

pub use fault::CoreFault;
pub use journal::Journal;
pub use loan::Loan;
pub use session_model::{Entry, Event, Limits};
pub use state::Core;
