//! Carrying out what a row of the table of steps comes to.
//!
//! The layer above uses that [`lay`], [`give`], [`give_value`], [`go`] and [`exit`] make of a thread what the functions `lays`, `gives`, `goes` and
//! `exits` of `step_model` do, where no level of the debugger may be opened: each says of every thread in the midst of a step that has this stack
//! what it is then (`specs/Amid.antt`). An exit is whole: it tells of what it drops, inner first, runs the innermost cleanup that it meets, and
//! else runs at its target what it looked for there (`specs/Runs.antt`, `specs/Exits.antt`).
#![tactic(auto)]

mod clauses;
mod exits;
mod going;
mod runs;

pub use exits::exit;
pub use going::{give, give_value, go, lay};
