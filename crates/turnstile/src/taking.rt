//! How a seat comes by the turn.
ghost use Rattle.std.specs.Prelude.{◌≡◌, [], true, IfSome, IfNone};
ghost use Rattle.turnstile.specs.Rule.{HasTaken};

use crate::hall::Hall;
use crate::kept::Kept;
use crate::rule::{TURN, Take};
use crate::view::View;
use atomic_table::Seat as Place;
use std::hint::spin_loop;
use std::sync::Wait;

// How often a thread looks before it tries to take the turn, and sleeps.
const LOOKS: u32 = 100;

// Takes the turn where it is free.
fn try_take<V: Kept>(hall: &Hall<V>, place: &mut Place<Option<V>, View<V::Entry>>) -> Option<V>
    requires hall { place.old.table_id ≡ hall.now }
    requires live { (place.old.me.0.is_live ≡ true) × (place.old.me.1 ≡ []) }
    ensures place { (place.new.table_id ≡ place.old.table_id) × (place.new.id ≡ place.old.id) }
    ensures taken { IfSome result (λ value. HasTaken V.number_of V.history place.old.me value place.new.me) }
    ensures missed { IfNone result (place.new.me ≡ place.old.me) }
{
    let shared = &hall.table.shared;
    if shared.compare_exchange::<Take>(place, TURN, 0, 1) != 0 {
        return None;
    }
    Some(shared.exchange(place, 0, None).unwrap())
}

// Looks for a while whether the turn comes free. A short turn is often over before a thread sleeps.
fn look<V: Kept>(hall: &Hall<V>) {
    for _ in 0..LOOKS {
        if hall.table.shared.peek(TURN) == 0 {
            return;
        }
        spin_loop();
    }
}

// Sleeps until the turn is this seat's.
fn wait<V: Kept, R: Wait>(rt: &R, hall: &Hall<V>, place: &mut Place<Option<V>, View<V::Entry>>) -> V
    requires hall { place.old.table_id ≡ hall.now }
    requires live { (place.old.me.0.is_live ≡ true) × (place.old.me.1 ≡ []) }
    ensures place { (place.new.table_id ≡ place.old.table_id) × (place.new.id ≡ place.old.id) }
    ensures taken { HasTaken V.number_of V.history place.old.me result place.new.me }
{
    let shared = &hall.table.shared;
    for _ in rt.forever() {
        let found = shared.swap::<Take>(place, TURN, 2);
        if found == 0 {
            return shared.exchange(place, 0, None).unwrap();
        }
        shared.park(rt, TURN, 2);
    }
    unreachable!()
}

/// Waits for the turn, and takes it with the value.
pub(crate) fn take<V: Kept, R: Wait>(
    rt: &R,
    hall: &Hall<V>,
    place: &mut Place<Option<V>, View<V::Entry>>,
) -> V
    requires hall { place.old.table_id ≡ hall.now }
    requires live { (place.old.me.0.is_live ≡ true) × (place.old.me.1 ≡ []) }
    ensures place { (place.new.table_id ≡ place.old.table_id) × (place.new.id ≡ place.old.id) }
    ensures taken { HasTaken V.number_of V.history place.old.me result place.new.me }
{
    look(hall);
    match try_take(hall, place) {
        Some(value) => value,
        None => wait(rt, hall, place),
    }
}
