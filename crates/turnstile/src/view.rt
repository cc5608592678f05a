//! What the proofs know of each seat. No value of these types is ever made.
use std::collections::LinkedList;

/// What the seat of this number has seen of the history.
pub struct Account<E> {
    pub number: u64,
    pub seen: LinkedList<E>,
}

// What a seat knows, and how it stands to the lock. Only a live seat may act: one that was joined
// is spent.
pub struct View<E> {
    pub number: u64,
    pub made: u64,
    pub joined: LinkedList<Account<E>>,
    pub seen: LinkedList<E>,
    pub has_turn: bool,
    pub has_slot: bool,
    pub is_live: bool,
}
