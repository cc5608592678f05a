//! The functions of the Lisp on lists and strings, without the tests of their arguments.
//!
//! Each function here is one entry of the HyperSpec, over items or a text, and its contract is an equation with the definition
//! of that entry in `specs/Lists.antt` or `specs/Strings.antt`, for the crate above to cite in its table. A part of a list is
//! lent; [`copy_items`] makes a list of it. All take time in proportion to what they are given.
#![tactic(auto)]

mod lists;
mod search;
mod strings;

pub use lists::{append, copy_items, last, nth, nthcdr, reverse, subseq};
pub use search::{assoc, member};
pub use strings::{string_downcase, string_equal, string_length, string_upcase, substring};

#[cfg(test)]
mod tests;
