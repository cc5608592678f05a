//! The seats of a hall.
ghost use Rattle.std.specs.Prelude.{◌≡◌, ◌+◌, ◌<◌, ◌^◌, [], ◌∷◌, true, false, length};
ghost use Rattle.std.specs.List.{AllByRecursion};
ghost use mathlib.Core.List.{IsPrefix};
ghost use Rattle.turnstile.specs.History.{own, Covers};
ghost use Rattle.turnstile.specs.Seats.{state_of, account_of, first_view, new_seat};

use crate::hall::Hall;
use crate::kept::Kept;
use crate::rule::{CHANGES, OneSeat, RESTING, ReturnSlot, Stay, StayFirst, TURN};
use crate::taking::take;
use crate::turn::Turn;
use crate::view::View;
use atomic_table::Badge;
use std::marker::Model;
use std::mem::replace;
use std::sync::Wait;

/// A seat of a hall for values whose entries are of the type E. Contracts see which hall it is of,
/// its number, what it has seen of the history, and whether it has the turn; and of the first seat
/// how many seats it made and what each seat that it joined had seen.
#[derive(Drop)]
pub struct Seat<E> {
    number: u64,
    made: u64,
    joined: u64,
    pub(crate) changes: u64,
    pub(crate) badge: Badge<View<E>>,
}

impl<E> Model for Seat<E> {
    ghost use Rattle.turnstile.specs.Seats.{SeatState, state_of, view_in, IsSeat};

    ghost Value = { SeatState E };

    ghost view = { λ s. state_of s.badge.table_id (view_in s.badge.views) };

    ghost invariant = { λ s. IsSeat s.number s.made s.joined s.badge.views };
}

impl<E> Seat<E> {
    pub(crate) fn first(badge: Badge<View<E>>, changes: u64) -> Seat<E>
        requires { badge.views ≡ first_view ∷ [] }
        ensures { result ≡ state_of badge.table_id first_view }
    {
        Seat {
            number: 0,
            made: 0,
            joined: 0,
            changes,
            badge,
        }
    }

    pub(crate) fn into_badge(self) -> Badge<View<E>>
        ensures hall { result.table_id ≡ self.hall }
        ensures view { (view : View E) × (result.views ≡ view ∷ []) × (state_of self.hall view ≡ self) × (view.is_live ≡ true) }
    {
        let Seat {
            number: _,
            made: _,
            joined: _,
            changes: _,
            badge,
        } = self;
        badge
    }

    /// The number of the seat, which its entries carry. That of the first seat is 0.
    pub fn number(&self) -> u64
        ensures { result ≡ self.now.number }
    {
        self.number
    }

    /// How many seats this one has split off: 0 for every seat but the first.
    pub fn made(&self) -> u64
        ensures { result ≡ self.now.made }
    {
        self.made
    }

    /// How many seats this one has joined: 0 for every seat but the first.
    pub fn joined(&self) -> u64
        ensures { result ≡ length self.now.joined }
    {
        self.joined
    }
}

impl<E> Seat<E> {
    /// Waits until nobody has the turn, and takes it. Takes no memory.
    pub fn enter<V: Kept<Entry = E>, R: Wait>(&mut self, rt: &R, hall: &Hall<V>) -> Turn<V>
        requires hall { self.old.hall ≡ hall.now }
        requires free { self.old.has_turn ≡ false }
        ensures seat { self.new ≡ record self.old { seen = V.history result; has_turn = true } }
        ensures seen { IsPrefix self.old.seen (V.history result) }
        ensures own { own V.number_of self.old.number (V.history result) ≡ own V.number_of self.old.number self.old.seen }
        ensures joined { AllByRecursion (Covers V.number_of (V.history result)) self.old.joined }
    {
        let mut place = replace(&mut self.badge, Badge::blank()).into_seat::<Option<V>>();
        let value = take(rt, hall, &mut place);
        hall.table.shared.load::<ReturnSlot>(&mut place, TURN);
        self.badge = place.into_badge();
        Turn { value }
    }

    /// Rests until a turn is left that changed something since this seat's last turn. It may come
    /// back sooner, at any time. Takes no memory.
    pub fn rest<V: Kept<Entry = E>, R: Wait>(&mut self, rt: &R, hall: &Hall<V>)
        requires { self.old.hall ≡ hall.now }
        ensures { self.new ≡ self.old }
    {
        let shared = &hall.table.shared;
        if shared.peek(CHANGES) != self.changes {
            return;
        }
        let mut place = replace(&mut self.badge, Badge::blank()).into_seat::<Option<V>>();
        shared.fetch_add::<Stay>(&mut place, RESTING, 1);
        shared.park(rt, CHANGES, (self.changes % (1 << 32)) as u32);
        shared.fetch_sub::<Stay>(&mut place, RESTING, 1);
        self.badge = place.into_badge();
    }

    /// A new seat, which has seen what the first seat has, and has no entry of its own. Takes no
    /// memory.
    pub fn split<V: Kept<Entry = E>>(&mut self, hall: &Hall<V>) -> Seat<E>
        requires hall { self.old.hall ≡ hall.now }
        requires first { self.old.number ≡ 0 }
        requires room { self.old.made < 2 ^ 63 }
        ensures seat { self.new ≡ record self.old { made = self.old.made + 1 } }
        ensures new { result ≡ new_seat self.old }
        ensures unused { own V.number_of result.number result.seen ≡ [] }
    {
        let shared = &hall.table.shared;
        let mut place = replace(&mut self.badge, Badge::blank()).into_seat::<Option<V>>();
        shared.load::<StayFirst>(&mut place, TURN);
        let seat = shared.split_seat::<OneSeat>(&mut place);
        self.badge = place.into_badge();
        self.made += 1;
        Seat {
            number: self.made,
            made: 0,
            joined: 0,
            changes: self.changes,
            badge: seat.into_badge(),
        }
    }

    /// Ends the other seat. The first seat keeps what it had seen, and answers for its entries from
    /// now on. Takes no memory.
    pub fn join<V: Kept<Entry = E>>(&mut self, other: Seat<E>, hall: &Hall<V>)
        requires hall { (self.old.hall ≡ hall.now) × (other.hall ≡ hall.now) }
        requires first { self.old.number ≡ 0 }
        requires free { (self.old.has_turn ≡ false) × (other.has_turn ≡ false) }
        ensures { self.new ≡ record self.old { joined = account_of other ∷ self.old.joined } }
    {
        let shared = &hall.table.shared;
        let mut place = replace(&mut self.badge, Badge::blank()).into_seat::<Option<V>>();
        shared.join_seat::<OneSeat>(&mut place, other.into_badge().into_seat::<Option<V>>());
        shared.load::<StayFirst>(&mut place, TURN);
        self.badge = place.into_badge();
        self.joined += 1;
    }
}
