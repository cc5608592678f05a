//! Restarts (HyperSpec 9.1.4.2): where the visible one of a name is, and the exit that invoking it makes.
//!
//! The layer above uses that [`find_restart`], [`invoke`] and [`abort_exit`] are the definitions of `term_model` (`specs/Restarts.antt` there):
//! the innermost visible restart of a name, by the number of its layer and its place there, and what it brings to where. How one layer is
//! seen stands in `specs/Places.antt`.
#![tactic(auto)]

mod invoking;
mod places;

pub use invoking::{abort_exit, invoke};
pub use places::{RestartPlace, find_restart};
