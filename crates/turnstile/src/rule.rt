//! The rule of the table, and what each of its steps tells the seat that makes it.
ghost use Rattle.turnstile.specs.Rule.{IsOrderly, Takes, ReturnsSlot, TakesSlot, Publishes, Frees, Stays, StaysFirst};
ghost use Rattle.turnstile.specs.Seats.{first_view, split_left, split_right, joined_with, spent};

use crate::kept::Kept;
use crate::view::View;
use atomic_table::{Join, Play, Split, TableRule};

/// The word that says whose turn it is: 0 where nobody has it, 1 where a seat has it, and 2 where
/// others may wait for it besides.
pub(crate) const TURN: usize = 0;

/// The word with the length of the history.
pub(crate) const LENGTH: usize = 1;

/// The word with the count of changes, on which seats rest.
pub(crate) const CHANGES: usize = 2;

/// The word with the count of the seats that rest.
pub(crate) const RESTING: usize = 3;

/// What holds of the table between any two steps.
pub struct Order;

impl<V: Kept> TableRule<Option<V>, View<V::Entry>, ()> for Order {
    ghost holds = { λ _. IsOrderly V.number_of V.history };

    ghost first = { λ _. first_view };
}

/// Tries to take the turn, with the value.
pub(crate) struct Take;

impl<V: Kept> Play<Option<V>, View<V::Entry>> for Take {
    ghost then = { λ _ old found new. Takes V.number_of V.history old found new };
}

/// Gives the empty slot back, so that a seat with the turn holds no slot between calls.
pub(crate) struct ReturnSlot;

impl<V: Kept> Play<Option<V>, View<V::Entry>> for ReturnSlot {
    ghost then = { λ _ old _ new. ReturnsSlot old new };
}

/// Takes the empty slot again.
pub(crate) struct TakeSlot;

impl<V: Kept> Play<Option<V>, View<V::Entry>> for TakeSlot {
    ghost then = { λ _ old _ new. TakesSlot old new };
}

/// Publishes the length, and so the entries that the seat added.
pub(crate) struct Publish;

impl<V: Kept> Play<Option<V>, View<V::Entry>> for Publish {
    ghost then = { λ _ old _ new. Publishes V.history old new };
}

/// Frees the turn, with the value at home.
pub(crate) struct Free;

impl<V: Kept> Play<Option<V>, View<V::Entry>> for Free {
    ghost then = { λ _ old _ new. Frees old new };
}

/// Changes nothing that the rule speaks of.
pub(crate) struct Stay;

impl<V: Kept> Play<Option<V>, View<V::Entry>> for Stay {
    ghost then = { λ _ old _ new. Stays old new };
}

/// Looks, as the first seat, at which numbers were made.
pub(crate) struct StayFirst;

impl<V: Kept> Play<Option<V>, View<V::Entry>> for StayFirst {
    ghost then = { λ _ old _ new. StaysFirst V.number_of old new };
}

/// One seat more, and one seat less.
pub(crate) struct OneSeat;

impl<E> Split<View<E>> for OneSeat {
    ghost left = { split_left };

    ghost right = { split_right };
}

impl<E> Join<View<E>> for OneSeat {
    ghost both = { joined_with };

    ghost spent = { spent };
}
