use crate::Outcome;
use lisp_data::{Name, Text};
use syntax_trees::Code;

/// What invoking a restart does once its layer is reached: it gives this outcome, or runs this clause of `restart-case`.
#[derive(Drop)]
pub enum Action {
    Give(Outcome),
    Run(Code),
}

/// A restart that a layer offers.
#[derive(Drop)]
pub struct Offer {
    pub name: Name,
    pub text: Text,
    pub action: Action,
}

/// A visible restart: `at` is the number of its layer, counted from the outside, where the top is 0; `number` is its place among
/// the restarts of that layer, from 0.
#[derive(Drop)]
pub struct Restart {
    pub name: Name,
    pub text: Text,
    pub at: u64,
    pub number: u64,
}
