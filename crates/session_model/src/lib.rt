//! The definition of a session: its threads, its events, and the run of a journal.
//!
//! A session is what its journal says: [`Entry`] and [`Event`] are the code's own types, and the definitions in `specs/` say what
//! each event does to the world (`World.antt`, `Arriving.antt`, `Running.antt`), what a journal's run is and tells (`Journal.antt`),
//! which entry may come next (`Legal.antt`), and which journal a piped session makes (`Pipe.antt`), and which a served one
//! (`Served.antt`). The layer above uses `run`, `labels`, `outputs`, `IsLegalFrom` and `pipe_journal`.
#![tactic(auto)]

mod event;
mod laws;
mod limits;

pub use event::{Entry, Event};
pub use laws::{
    a_pipe_is_legal, a_pipe_serves_all, a_pipe_takes_in_order, an_interrupt_is_kept_or_dropped,
    beginnings_are_legal, outputs_are_kept,
};
pub use limits::Limits;
