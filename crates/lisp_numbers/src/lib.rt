//! Arithmetic over whole numbers of 64 bits: a result, or the reason why there is none.
//!
//! Each function computes over all whole numbers, by the definitions in `specs/Range.antt`, `specs/Division.antt` and
//! `specs/Order.antt`, and then asks whether 64 bits hold what it found. What the layer above uses is that the answer of each call
//! is that definition of its arguments. No call takes memory.
#![tactic(auto)]

mod computed;
mod division;
mod many;
mod one;
mod order;

pub use computed::Computed;
pub use division::{floor, modulo, quotient, remainder, truncate};
pub use many::{difference, product, sum};
pub use one::{absolute, counted, is_even, predecessor, successor};
pub use order::{Relation, each_pair, greatest, least};

#[cfg(test)]
mod tests;
