ghost use Rattle.std.specs.Prelude.{◌≡◌, [], ◌<◌, ◌≤◌, ◌↔◌, min, length, IfOk, IsErr, Contains};
ghost use Rattle.outside_traits.specs.Faults.{HasCause, raised};
ghost use Rattle.outside_traits.specs.MemSink.{after_finish, after_write};
ghost use Rattle.outside_traits.specs.Sink.{Writes};

use crate::calls::Calls;
use crate::{Failed, Sink};
use lisp_data::Rows;
use std::alloc::Global;
use std::marker::Model;

/// A sink in memory, for tests and for sessions that run in memory. Each call looks through the whole list of calls that fail, so
/// that list is meant to be short.
#[derive(Drop)]
pub struct MemSink {
    pub taken: Rows<u8>,
    at_most: usize,
    calls: Calls,
}

impl Model for MemSink {
    ghost use Rattle.std.specs.Prelude.{◌≤◌};
    ghost use Rattle.outside_traits.specs.MemSink.{SinkState};

    ghost Value = { SinkState };

    ghost view = { λ m. record { taken = m.taken; at_most = m.at_most; calls = m.calls } };

    ghost invariant = { λ m. 1 ≤ m.at_most };
}

impl MemSink {
    /// An empty sink that takes at most so many octets in a call, and whose calls with these numbers fail. Calls of `write` and of
    /// `finish` are counted together, from 1.
    pub fn new(alloc: Global, at_most: usize, fail_at: Rows<u64>) -> MemSink
        requires { 1 ≤ at_most }
        ensures { result ≡ record { taken = []; at_most = at_most; calls = record { fail_at = fail_at; made = 0; faults = 0 } } }
    {
        MemSink {
            taken: Rows::new(alloc),
            at_most,
            calls: Calls::new(fail_at),
        }
    }
}

impl Sink for MemSink {
    ghost use Rattle.std.specs.Prelude.{Some};

    ghost written = { λ s. Some s.taken };

    ghost faults = { λ s. s.calls.faults };

    /// A write that finds no memory fails too.
    fn write(&mut self, piece: &[u8]) -> Result<usize, Failed>
        requires { 0 < length piece.now }
        ensures bound { IfOk result (λ n. (0 < n) × (n ≤ length piece.now)) }
        ensures bytes { Writes (Some self.old.taken) (Some self.new.taken) result piece.now }
        ensures cause { HasCause self.old.calls.faults self.new.calls.faults result }
        ensures fails { Contains self.old.calls.fail_at (raised self.old.calls.made) → IsErr result }
        ensures takes { IfOk result (λ n. n ≡ min self.old.at_most (length piece.now)) }
        ensures after { self.new ≡ after_write self.old result piece.now }
    {
        if self.calls.next_fails() {
            return Err(self.calls.fault());
        }
        let n = piece.len().min(self.at_most);
        if self.taken.extend(&piece[..n]).is_err() {
            return Err(self.calls.fault());
        }
        Ok(n)
    }

    fn finish(&mut self) -> Result<(), Failed>
        ensures same { Some self.new.taken ≡ Some self.old.taken }
        ensures cause { HasCause self.old.calls.faults self.new.calls.faults result }
        ensures fails { IsErr result ↔ Contains self.old.calls.fail_at (raised self.old.calls.made) }
        ensures after { self.new ≡ after_finish self.old result }
    {
        if self.calls.next_fails() {
            return Err(self.calls.fault());
        }
        Ok(())
    }
}
