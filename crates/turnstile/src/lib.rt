//! A lock whose value stands for one history: threads take turns at the value, and each turn adds
//! entries that carry the number of the seat that made them.
//!
//! The contract that the layer above uses is the one of `Seat::enter`: the history begins with all
//! that the seat had seen, and no entry that came since carries the seat's number. So what a seat
//! knows of its own entries stays true whatever other threads do, and `Hall::close` gives back a
//! value whose history has the entries of each seat, once and in order. The words of the contracts
//! stand in `specs/History.antt` and `specs/Seats.antt`, the rule of the table in `specs/Rule.antt`.
#![tactic(auto)]

mod hall;
mod kept;
mod lending;
mod rule;
mod seat;
mod taking;
mod turn;
mod view;

pub use hall::Hall;
pub use kept::Kept;
pub use seat::Seat;
pub use turn::Turn;

#[cfg(test)]
mod tests;
