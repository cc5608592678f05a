//! The machine of a thread: one call is one step of the table.
//!
//! What the layer above uses is that [`Machine::step`] does what `step_as_built` says, of the thread's stack, its mailbox, the image and what
//! is written. What the next step reads stands in `specs/Machine.antt`; the table is that of `server_rules`. What each row that is built
//! makes of a thread whose layers are simple stands in `specs/Rows.antt`, one definition a function.
#![tactic(auto)]

mod forms;
mod going;
mod leaving;
mod machine;
mod outcomes;
mod requests;
mod task;
mod waiting;

pub use machine::Machine;
