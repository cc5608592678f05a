//! The table of steps of this server, and what holds of the rows that are built.
//!
//! The table is `rules` of `specs/Rules.antt`: the one table of steps with the functions beside it that are built. What the layers above
//! use besides are the laws of `laws.rt`: a step makes no layers but simple ones (`specs/Simple.antt`), and leaves all that stands
//! beside its thread as it was (`specs/Beside.antt`); and a row that isn't built leaves all layers (`specs/Leaving.antt`).
#![tactic(auto)]

mod laws;

pub use laws::{
    no_level_is_opened, steps_leave_the_rest, the_names_of_the_language_are_standard,
    threads_stay_simple, what_is_not_built_leaves,
};
