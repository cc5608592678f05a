//! Exits: the targets that `return-from` and `throw` look for, and what an exit drops on its way.
//!
//! The layer above uses that [`find_block`] and [`find_catch`] are the searches of the same names of `term_model`, and that [`leave`] is its
//! exit as far as the stack goes: it stops at the innermost protected form that it meets, whose cleanup then stands there with the exit kept,
//! and names each request, level and question that it dropped, the inner ones first. What is seen of a layer stands in
//! `specs/Seeking.antt` of `lisp_frames`, and what is dropped with it in `specs/Leaving.antt`.
#![tactic(auto)]

mod leaving;
mod left;
mod passed;
mod targets;

pub use leaving::leave;
pub use left::{Left, Next};
pub use passed::Passed;
pub use targets::{find_block, find_catch};
