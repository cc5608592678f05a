//! The definition of a thread: one term, which a step rewrites.
//!
//! A term is a redex ([`Focus`]) inside layers ([`Frame`]), and a stack of frames with a focus is the same thing in the machine, so
//! both stand here as the code's own types; a form of which parts are evaluated is one type for all rows of the syntax ([`Partial`]), and what
//! a row of the table of steps comes to is one too ([`End`]). What the crates above use are the definitions in `specs/`: the term as a tree
//! (`Term.antt`), how evaluation goes into a form (`Progress.antt`, `GoingIn.antt`) and how much room there is for layers (`Room.antt`), what a
//! variable is bound to (`Variables.antt`), what an exit finds and does (`Targets.antt`, `Handlers.antt`, `Restarts.antt`,
//! `Exit.antt`), levels of the debugger and their frames (`Levels.antt`), and interrupts (`Breaks.antt`). The laws of terms are the
//! clauses of the functions of `laws.rt`, which do nothing.
#![tactic(auto)]

mod end;
mod focus;
mod found;
mod frame;
mod kept;
mod laws;
mod partial;
mod plain;
mod question;
mod restart;

pub use end::End;
pub use focus::{Bound, Focus, Origin};
pub use found::Found;
pub use frame::Frame;
pub use kept::{Bring, Leaving, Outcome, Saved};
pub use laws::{going_in_finds_the_redex, putting_back_gives_the_term};
pub use partial::Partial;
pub use plain::{Cluster, HandlerFunction, Plain};
pub use question::Ask;
pub use restart::{Action, Offer, Restart};
