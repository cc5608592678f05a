//! The words of a command line: the session that they ask for.
//!
//! [`limits_in`] reads them. What the layer above uses is that it gives the limits that `limits_of` of `specs/Words.antt` gives, a table
//! in the words of the rule, and that it refuses the words exactly where that table has none.
#![tactic(auto)]

mod form;
mod limits;
mod options;
#[cfg(test)]
mod tests;

pub use limits::{WordsFault, limits_in};
