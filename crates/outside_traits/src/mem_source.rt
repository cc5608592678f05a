ghost use Rattle.std.specs.Prelude.{◌≡◌, ◌<◌, ◌≤◌, ◌↔◌, [], false, length, min, take, IfOk, IfSome, IfNone, IsErr, Contains};
ghost use Rattle.outside_traits.specs.Faults.{HasCause, raised};
ghost use Rattle.outside_traits.specs.MemSource.{after_read, count_given, filled, octets_of, pieces_from, IsAt};
ghost use Rattle.outside_traits.specs.Source.{Reads, ends};

use crate::calls::Calls;
use crate::{Failed, Source};
use lisp_data::Rows;
use std::marker::Model;

/// A source in memory, for tests and for sessions that run in memory. A read gives octets of one piece at most; empty pieces are
/// skipped. Each read looks through the whole list of calls that fail, so that list is meant to be short.
#[derive(Drop)]
pub struct MemSource {
    pieces: Rows<Rows<u8>>,
    at: usize,
    from: usize,
    calls: Calls,
    ended: bool,
}

impl Model for MemSource {
    ghost use Rattle.outside_traits.specs.MemSource.{SourceState, pieces_from};

    ghost Value = { SourceState };

    ghost view = { λ m. record { pieces = pieces_from m.pieces m.at m.from; calls = m.calls; ended = m.ended } };
}

impl MemSource {
    /// A source of these pieces, whose calls with these numbers, counted from 1, fail.
    pub fn new(pieces: Rows<Rows<u8>>, fail_at: Rows<u64>) -> MemSource
        ensures state { result ≡ record { pieces = filled pieces; calls = record { fail_at = fail_at; made = 0; faults = 0 }; ended = false } }
        ensures octets { octets_of result.pieces ≡ octets_of pieces }
    {
        MemSource {
            pieces,
            at: 0,
            from: 0,
            calls: Calls::new(fail_at),
            ended: false,
        }
    }
}

/// The first octet from a place on: its piece's number, and its own number in that piece. Both count from 0.
fn first_octet(pieces: &[Rows<u8>], at: usize, from: usize) -> Option<(usize, usize)>
    ensures none { IfNone result (pieces_from pieces.now at from ≡ []) }
    ensures some { IfSome result (λ place. IsAt pieces.now (pieces_from pieces.now at from) place.0 place.1) }
{
    let mut skipped = from;
    for i in at..pieces.len() {
        if skipped < pieces[i].len() {
            return Some((i, skipped));
        }
        skipped = 0;
    }
    None
}

/// Copies the front of a piece to the front of a buffer, as much as both have, and says how much.
fn copy_front(piece: &[u8], buf: &mut [u8]) -> usize
    ensures count { result ≡ min (length piece.now) (length buf.old) }
    ensures front { take result buf.new ≡ take result piece.now }
{
    let n = piece.len().min(buf.len());
    buf[..n].copy_from_slice(&piece[..n]);
    n
}

impl Source for MemSource {
    ghost use Rattle.std.specs.Prelude.{Some};

    ghost left = { λ m. Some (octets_of m.pieces) };

    ghost faults = { λ m. m.calls.faults };

    ghost ended = { λ m. m.ended };

    fn read(&mut self, buf: &mut [u8]) -> Result<usize, Failed>
        requires { 0 < length buf.old }
        ensures bound { IfOk result (λ n. n ≤ length buf.old) }
        ensures bytes { Reads (Some (octets_of self.old.pieces)) (Some (octets_of self.new.pieces)) result buf.new }
        ensures ended { self.new.ended ≡ ends result }
        ensures cause { HasCause self.old.calls.faults self.new.calls.faults result }
        ensures fails { IsErr result ↔ Contains self.old.calls.fail_at (raised self.old.calls.made) }
        ensures gives { IfOk result (λ n. n ≡ count_given (length buf.old) self.old.pieces) }
        ensures after { self.new ≡ after_read self.old result }
    {
        self.ended = false;
        if self.calls.next_fails() {
            return Err(self.calls.fault());
        }
        let pieces = self.pieces.as_slice();
        match first_octet(pieces, self.at, self.from) {
            None => {
                self.ended = true;
                Ok(0)
            }
            Some((at, from)) => {
                let n = copy_front(&pieces[at].as_slice()[from..], buf);
                self.at = at;
                self.from = from + n;
                Ok(n)
            }
        }
    }
}
