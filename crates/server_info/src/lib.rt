//! What the server says of itself, after `connection-info` of SLIME's `swank.lisp`.
//!
//! [`info`] is the form of `specs/Info.antt`, for a global package of a given name and prompt.
#![tactic(auto)]

mod server;
#[cfg(test)]
mod tests;

pub use server::info;
