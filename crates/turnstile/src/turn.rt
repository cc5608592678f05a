//! A seat's turn at the value.
ghost use Rattle.std.specs.Prelude.{◌≡◌, true, false};
ghost use Rattle.turnstile.specs.History.{Adds};

use crate::hall::Hall;
use crate::kept::Kept;
use crate::rule::{CHANGES, Free, LENGTH, Publish, RESTING, Stay, TURN, TakeSlot};
use crate::seat::Seat;
use crate::view::View;
use atomic_table::{Badge, Seat as Place};
use std::marker::Model;
use std::mem::replace;

/// The turn of one seat. Contracts see it as the value. It has to be left.
pub struct Turn<V> {
    pub(crate) value: V,
}

impl<V> Model for Turn<V> {
    ghost Value = { V };

    ghost view = { λ t. t.value };
}

impl<V: Kept> Turn<V> {
    /// Ends the turn: the history now has what the seat added to it, and another seat may enter. A
    /// thread that waits for the turn is woken, and so is each that rests where the turn changed
    /// something.
    pub fn leave(self, seat: &mut Seat<V::Entry>, hall: &Hall<V>)
        requires hall { seat.old.hall ≡ hall.now }
        requires turn { seat.old.has_turn ≡ true }
        requires history { Adds V.number_of seat.old.number seat.old.seen (V.history self) }
        ensures { seat.new ≡ record seat.old { seen = V.history self; has_turn = false } }
    {
        let Turn { value } = self;
        let length = value.len();
        let changes = value.changes();
        let shared = &hall.table.shared;
        let mut place = replace(&mut seat.badge, Badge::blank()).into_seat::<Option<V>>();
        shared.load::<TakeSlot>(&mut place, TURN);
        let empty = shared.exchange(&mut place, 0, Some(value));
        let None = empty else { unreachable!() };
        shared.store::<Publish>(&mut place, LENGTH, length);
        let has_changed = tell(hall, &mut place, changes);
        let found = shared.swap::<Free>(&mut place, TURN, 0);
        seat.badge = place.into_badge();
        seat.changes = changes;
        wake(hall, found, has_changed);
    }
}

// Writes the count of changes where it is another, and says whether it is.
fn tell<V: Kept>(hall: &Hall<V>, place: &mut Place<Option<V>, View<V::Entry>>, changes: u64) -> bool
    requires { place.old.table_id ≡ hall.now }
    ensures place { (place.new.table_id ≡ place.old.table_id) × (place.new.id ≡ place.old.id) }
    ensures me { place.new.me ≡ place.old.me }
{
    let shared = &hall.table.shared;
    if shared.peek(CHANGES) == changes {
        return false;
    }
    shared.store::<Stay>(place, CHANGES, changes);
    true
}

// Wakes a thread that may wait for the turn, and those that rest, where there are any.
fn wake<V: Kept>(hall: &Hall<V>, found: u64, has_changed: bool) {
    let shared = &hall.table.shared;
    if found == 2 {
        shared.wake_one(TURN);
    }
    if has_changed && shared.peek(RESTING) != 0 {
        shared.wake_all(CHANGES);
    }
}
