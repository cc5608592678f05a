//! The value that threads take turns at.
ghost use Rattle.std.specs.Prelude.{[]};

use turnstile::Kept;

/// How many turns were taken. It stands for the empty history.
#[derive(Drop)]
pub struct Count {
    pub turns: u64,
}

impl Kept for Count {
    type Entry = u64;

    ghost history = { λ _. [] };

    ghost number_of = { λ seat. seat };

    ghost change_count = { λ _. 0 };

    fn len(&self) -> u64 {
        0
    }

    fn changes(&self) -> u64 {
        0
    }
}

impl Count {
    pub fn add(&mut self) {
        self.turns = self.turns.wrapping_add(1);
    }
}
