//! The value while a seat has the turn.
ghost use Rattle.std.specs.Prelude.{◌≡◌};
ghost use Rattle.std.specs.Borrow.{sem};
ghost use Rattle.turnstile.specs.Lending.{LendsValue};

use crate::turn::Turn;

impl<V> Turn<V> {
    /// The value itself, to read and to change.
    pub fn value(&mut self) -> &mut V
        ensures* lends { sem 𝓛 (LendsValue V.row self.entry result) }
        ensures now { result.now ≡ self.old }
    {
        &mut self.value
    }
}
