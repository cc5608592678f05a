ghost use Rattle.std.specs.Prelude.{◌≡◌, ℕ, Bool, List, Option, ◌<◌, ◌≤◌, length, IfOk};
ghost use Rattle.outside_traits.specs.Faults.{HasCause};
ghost use Rattle.outside_traits.specs.Source.{Reads, ends};

use crate::Failed;

/// Octets that come from outside.
///
/// Contracts see what is left to read, where the source tells it; how many calls failed, a count that stands still at 2^64 - 1;
/// and whether the newest read met the end of input, which is false before the first read and after one that failed.
pub trait Source {
    ghost left: { Self → Option (List ℕ) };

    ghost faults: { Self → ℕ };

    ghost ended: { Self → Bool };

    /// Puts the next octets at the front of a buffer, and says how many they are; 0 is the end of input. What stands behind them
    /// in the buffer is left open.
    fn read(&mut self, buf: &mut [u8]) -> Result<usize, Failed>
        requires { 0 < length buf.old }
        ensures bound { IfOk result (λ n. n ≤ length buf.old) }
        ensures bytes { Reads (left self.old) (left self.new) result buf.new }
        ensures ended { ended self.new ≡ ends result }
        ensures cause { HasCause (faults self.old) (faults self.new) result };
}
