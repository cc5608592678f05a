//! The hall: the value at home, and the lock on it.
ghost use Rattle.std.specs.Prelude.{◌≡◌, ◌≤◌, false, [], length, IfOk, IfErr};
ghost use Rattle.std.specs.List.{AllByRecursion};
ghost use mathlib.Core.List.{IsPrefix};
ghost use Rattle.turnstile.specs.History.{own, Covers};
ghost use Rattle.turnstile.specs.Seats.{first_seat};

use crate::kept::Kept;
use crate::rule::Order;
use crate::seat::Seat;
use crate::view::View;
use atomic_table::{Refused, Table};
use std::alloc::Global;
use std::marker::Model;

/// The lock, with the value where no seat has the turn. Contracts see which hall it is.
pub struct Hall<V: Kept> {
    pub(crate) table: Table<Option<V>, View<V::Entry>, (), Order, Global>,
}

impl<V: Kept> Model for Hall<V> {
    ghost use Rattle.std.specs.Prelude.{◌≡◌};
    ghost use Rattle.atomic_table.specs.Seated.{TableId};

    ghost Value = { TableId };

    ghost view = { λ h. h.table.shared.table_id };

    ghost invariant = { λ h. (h.table.shared.table_id.words ≡ 4) × (h.table.shared.table_id.slots ≡ 1) };
}

impl<V: Kept> Hall<V> {
    /// A hall with this value, and its first seat, whose number is 0. Where there is no memory the
    /// value comes back.
    pub fn open(alloc: Global, value: V) -> Result<(Hall<V>, Seat<V::Entry>), V>
        requires { V.history value ≡ [] }
        ensures ok { IfOk result (λ opened. opened.1 ≡ first_seat opened.0) }
        ensures err { IfErr result (λ back. back ≡ value) }
    {
        let changes = value.changes();
        let mut slots = match Vec::with_capacity(alloc, 1) {
            Ok(slots) => slots,
            Err(_) => return Err(value),
        };
        slots.push_reserved(Some(value));
        match Table::new(alloc, &[0, 0, changes, 0], slots, &()) {
            Ok((table, seat)) => Ok((Hall { table }, Seat::first(seat.into_badge(), changes))),
            Err(Refused { mut slots }) => {
                let value = slots.pop().unwrap().unwrap();
                slots.destroy_empty();
                Err(value)
            }
        }
    }

    /// The value, once the first seat has joined every seat that it made. Nobody has the turn then.
    pub fn close(self, seat: Seat<V::Entry>) -> V
        requires hall { seat.hall ≡ self }
        requires first { (seat.number ≡ 0) × (seat.has_turn ≡ false) }
        requires whole { length seat.joined ≡ seat.made }
        ensures seen { IsPrefix seat.seen (V.history result) }
        ensures own { own V.number_of seat.number (V.history result) ≡ own V.number_of seat.number seat.seen }
        ensures joined { AllByRecursion (Covers V.number_of (V.history result)) seat.joined }
        ensures numbers { AllByRecursion (λ e. V.number_of e ≤ seat.made) (V.history result) }
    {
        let Hall { table } = self;
        let mut closed = table.close_with(seat.into_badge().into_seat::<Option<V>>());
        let value = closed.take(0).unwrap();
        closed.free();
        value
    }
}
