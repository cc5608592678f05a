ghost use Rattle.std.specs.Prelude.{◌≡◌, ℕ, List, Option, ◌++◌, ◌<◌, ◌≤◌, length, IfOk, IfErr};
ghost use Rattle.outside_traits.specs.Faults.{HasCause};
ghost use Rattle.outside_traits.specs.Sink.{Writes, part_taken};
ghost use Rattle.outside_traits.specs.Told.{BothTold};

use crate::Failed;

/// Octets that go outside.
///
/// Contracts see what is written, where the sink tells it, and how many calls failed, a count that stands still at 2^64 - 1.
pub trait Sink {
    ghost written: { Self → Option (List ℕ) };

    ghost faults: { Self → ℕ };

    /// Takes octets from the front of a piece, and says how many: one or more.
    fn write(&mut self, piece: &[u8]) -> Result<usize, Failed>
        requires { 0 < length piece.now }
        ensures bound { IfOk result (λ n. (0 < n) × (n ≤ length piece.now)) }
        ensures bytes { Writes (written self.old) (written self.new) result piece.now }
        ensures cause { HasCause (faults self.old) (faults self.new) result };

    /// Hands on what was taken.
    fn finish(&mut self) -> Result<(), Failed>
        ensures same { written self.new ≡ written self.old }
        ensures cause { HasCause (faults self.old) (faults self.new) result };
}

/// A write of a whole piece that failed after so many of its octets were taken.
#[derive(Clone, Copy, Debug, PartialEq, Eq)]
pub struct CutShort {
    pub taken: usize,
}

/// Writes a whole piece, in as many calls as the sink needs, and none for an empty piece. `finish` is left to the caller.
pub fn write_all<K: Sink>(sink: &mut K, piece: &[u8]) -> Result<(), CutShort>
    ensures bytes { BothTold (K.written sink.old) (K.written sink.new) (λ old new. new ≡ old ++ part_taken result piece.now) }
    ensures bound { IfErr result (λ cut. cut.taken < length piece.now) }
    ensures cause { HasCause (K.faults sink.old) (K.faults sink.new) result }
{
    let mut taken = 0;
    while taken < piece.len() {
        match sink.write(&piece[taken..]) {
            Ok(n) => taken += n,
            Err(Failed) => return Err(CutShort { taken }),
        }
    }
    Ok(())
}
