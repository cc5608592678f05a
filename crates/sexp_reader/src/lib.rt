//! Reads forms: what stands in a text between whitespace and comments, as lists, strings, integers and the tokens of symbols.
//!
//! [`read_form`] gives the one form that a text spells, or the text's first fault, and [`read_all`] gives each form of a text
//! with its place. The layers above use that a form is read exactly where the text spells it, and a fault answered exactly where
//! the text has it; [`reading_is_exact`] says that every text has one form or one fault. Tokens are defined in
//! `specs/Tokens.antt`, what a text spells in `specs/Grammar.antt`, and the faults in `specs/Faults.antt`. The other definitions
//! say what the code does with one character.
#![tactic(auto)]

mod atom;
mod characters;
mod fault;
mod placed;
mod read;
mod reader;
mod state;
#[cfg(test)]
mod tests;

pub use fault::ReadFault;
pub use placed::Placed;
pub use read::{read_all, read_form, reading_all_is_exact, reading_is_exact};
