ghost use Rattle.std.specs.Prelude.{◌≡◌, ◌<◌, ◌≤◌, length, IfOk, None};
ghost use Rattle.outside_traits.specs.Faults.{HasCause};
ghost use Rattle.outside_traits.specs.Sink.{Writes};
ghost use Rattle.outside_traits.specs.Source.{Reads, ends};

use lisp_data::Rows;
use outside_traits::{Failed, MemSource, Sink, Source};
use std::alloc::Global;
use std::cell::Cell;

/// What a client writes: a request a read, each with a reply of the same length. A read fails where the replies to what was read before
/// aren't written yet.
#[derive(Drop)]
pub struct Asking<'a> {
    requests: MemSource,
    reply: u64,
    /// How many octets must be written by now, and how many are.
    due: u64,
    written: &'a Cell<u64>,
    faults: u64,
    ended: bool,
}

impl<'a> Asking<'a> {
    pub fn new(requests: MemSource, reply: u64, written: &'a Cell<u64>) -> Asking<'a> {
        Asking {
            requests,
            reply,
            due: 0,
            written,
            faults: 0,
            ended: false,
        }
    }
}

impl<'a> Source for Asking<'a> {
    ghost left = { λ _. None };

    ghost faults = { λ s. s.faults };

    ghost ended = { λ s. s.ended };

    fn read(&mut self, buf: &mut [u8]) -> Result<usize, Failed>
        requires { 0 < length buf.old }
        ensures bound { IfOk result (λ n. n ≤ length buf.old) }
        ensures bytes { Reads None None result buf.new }
        ensures ended { self.new.ended ≡ ends result }
        ensures cause { HasCause self.old.faults self.new.faults result }
    {
        if self.written.get() == self.due {
            self.due = self.due.saturating_add(self.reply);
            if let Ok(n) = self.requests.read(buf) {
                self.ended = n == 0;
                return Ok(n);
            }
        }
        self.ended = false;
        self.faults = self.faults.saturating_add(1);
        Err(Failed)
    }
}

/// What a client reads. It counts the octets.
#[derive(Drop)]
pub struct Answered<'a> {
    pub taken: Rows<u8>,
    written: &'a Cell<u64>,
    faults: u64,
}

impl<'a> Answered<'a> {
    pub fn new(alloc: Global, written: &'a Cell<u64>) -> Answered<'a> {
        Answered {
            taken: Rows::new(alloc),
            written,
            faults: 0,
        }
    }
}

impl<'a> Sink for Answered<'a> {
    ghost written = { λ _. None };

    ghost faults = { λ s. s.faults };

    fn write(&mut self, piece: &[u8]) -> Result<usize, Failed>
        requires { 0 < length piece.now }
        ensures bound { IfOk result (λ n. (0 < n) × (n ≤ length piece.now)) }
        ensures bytes { Writes None None result piece.now }
        ensures cause { HasCause self.old.faults self.new.faults result }
    {
        if self.taken.extend(piece).is_err() {
            self.faults = self.faults.saturating_add(1);
            return Err(Failed);
        }
        self.written.set(self.taken.len() as u64);
        Ok(piece.len())
    }

    fn finish(&mut self) -> Result<(), Failed> {
        Ok(())
    }
}
