//! What a value under the lock has to offer.
ghost use Rattle.std.specs.Prelude.{◌≡◌, ℕ, List, length};

/// A value that stands for a history of entries, each of which carries the number of the seat that
/// made it.
pub trait Kept {
    type Entry;

    // The entries, the oldest first.
    ghost history: { Self → List Self.Entry };

    // The number of the seat that made the entry.
    ghost number_of: { Self.Entry → ℕ };

    // How often the value has changed in a way that a thread may rest for.
    ghost change_count: { Self → ℕ };

    /// How many entries the history has.
    fn len(&self) -> u64
        ensures { result ≡ length (history self.now) };

    /// How often the value has changed in a way that a thread may rest for: one for each entry, and
    /// one for each change that adds no entry, as a halt. A seat that rests is woken where a turn
    /// leaves this count other than it was.
    fn changes(&self) -> u64
        ensures { result ≡ change_count self.now };
}
