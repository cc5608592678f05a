ghost use Rattle.std.specs.Prelude.{◌≡◌, ◌+◌, ◌<◌, ◌≤◌, ◌^◌, ◌&&◌, not, false, true, [], length, slice_get, IfOk, IfSome, OnOk, OnErr, IfErr, IfNone, Some};
ghost use Rattle.std.specs.Option.{option_copied};
ghost use Rattle.session_model.specs.Journal.{steps_made};
ghost use Rattle.session_model.specs.Legal.{IsLegalFrom, IsLentTo, MayArrive, is_quiet, is_ready, max_burst};
ghost use Rattle.session_model.specs.Pipe.{burst_length};
ghost use Rattle.session_model.specs.World.{thread_at};
ghost use Rattle.session_model.specs.declared.event.Event.TheVariants as event;
ghost use Rattle.server_rules.specs.Rules.{rules};
ghost use Rattle.swank_core.specs.Session.{Adds, AreLimits, blocked, is_closed, lent_among, next_ready_of, opening, steps_behind, with_entry, world};
ghost use Rattle.swank_core.specs.Ties.{IsFree};

use crate::live::{Burst, Live};
use crate::outputs::write;
use crate::threads::Threads;
use crate::{CoreFault, Journal, Loan};
use lisp_data::{NoMemory, Rows};
use lisp_image::Image;
use rpc_messages::{FromEmacs, ToEmacs};
use session_model::{Entry, Event, Limits};
use std::alloc::Global;
use std::marker::Model;
use std::mem;
use std::snapshot::Snapshot;

/// A live session.
pub struct Core {
    /// The image that it was opened with, for contracts alone.
    opened: Snapshot<Image>,
    limits: Limits,
    alloc: Global,
    live: Live,
    /// The outputs that were not drained.
    outs: Rows<ToEmacs>,
    journal: Journal,
    /// How many steps were made, and how many of them after the end of the input.
    steps: u64,
    steps_after_end: u64,
    ended: bool,
    failed: bool,
    halted: bool,
}

impl Model for Core {
    ghost use Rattle.server_rules.specs.Rules.{rules};
    ghost use Rattle.session_model.specs.Journal.{run};
    ghost use Rattle.swank_core.specs.Session.{Session};
    ghost use Rattle.swank_core.specs.Ties.{Ties, Fits, HasLegal};
    ghost use Rattle.std.specs.Coded.{codes};
    ghost use Rattle.lisp_data.specs.contracts.sexp.Sexp as sexp;
    ghost use Rattle.lisp_data.specs.contracts.value.Value as value;
    ghost use Rattle.syntax_trees.specs.contracts.ast.Ast as ast;

    ghost Value = { Session };

    ghost coded = { Prim.hlevel (codes, ast.the_row.coded, value.the_row.coded, sexp.the_row.coded) };

    ghost view = { λ c. record { opened = c.opened.value; limits = c.limits; journal = c.journal; failed = c.failed; halted = c.halted } };

    ghost invariant = { λ c. Ties (run rules c.opened.value c.journal) c.journal c.live c.outs c.steps c.steps_after_end c.ended c.failed × Fits c.journal c.outs c.steps c.steps_after_end c.limits × HasLegal c.opened.value c.journal };
}

impl Drop for Core {
    fn drop(self) {
        let Core {
            opened: _,
            limits: _,
            alloc: _,
            live: _,
            outs: _,
            journal: _,
            steps: _,
            steps_after_end: _,
            ended: _,
            failed: _,
            halted: _,
        } = self;
    }
}

impl Core {
    /// A session with no entry yet, over this image. The image is handed back where memory is wanting.
    pub fn open(alloc: Global, image: Image, limits: &Limits) -> Result<Core, Image>
        requires limits { AreLimits limits.now }
        ensures ok { IfOk result (λ core. core ≡ opening image limits.now) }
        ensures err { IfErr result (λ back. back ≡ image) }
    {
        match Threads::new(alloc) {
            Err(NoMemory) => Err(image),
            Ok(threads) => {
                let opened = Snapshot::of(&image);
                Ok(Core {
                    opened,
                    limits: *limits,
                    alloc,
                    live: Live::new(alloc, image, threads),
                    outs: Rows::new(alloc),
                    journal: Journal::new(alloc),
                    steps: 0,
                    steps_after_end: 0,
                    ended: false,
                    failed: false,
                    halted: false,
                })
            }
        }
    }

    /// Why the next event is refused.
    fn blocked(&self) -> Option<CoreFault>
        ensures is { result ≡ blocked self.now }
        ensures free { IfNone result (IsFree self.now) }
    {
        if self.failed {
            Some(CoreFault::Failed)
        } else if self.halted {
            Some(CoreFault::Closed)
        } else if self.journal.len() + 1 >= self.limits.journal {
            Some(CoreFault::Full)
        } else {
            None
        }
    }

    /// A message came.
    pub fn arrive(&mut self, seat: u64, m: FromEmacs) -> Result<(), CoreFault>
        requires open { (world self.old).ended ≡ false }
        requires may { MayArrive m }
        ensures { Adds seat (λ _. event.Arrive m) self.old result self.new }
    {
        if let Some(fault) = self.blocked() {
            return Err(fault);
        }
        let at = self.journal.len();
        match self.live.arrive(self.alloc, at, &m) {
            Err(NoMemory) => {
                self.failed = true;
                Err(CoreFault::NoMemory)
            }
            Ok(told) => {
                let entry = Entry {
                    seat,
                    event: Event::Arrive(m),
                };
                if let Err(NoMemory) = write(
                    self.alloc,
                    &mut self.outs,
                    &mut self.journal,
                    told,
                    entry,
                ) {
                    self.failed = true;
                    return Err(CoreFault::NoMemory);
                }
                Ok(())
            }
        }
    }

    /// The input ended.
    pub fn end_input(&mut self, seat: u64) -> Result<(), CoreFault>
        requires open { (world self.old).ended ≡ false }
        ensures { Adds seat (λ _. event.End) self.old result self.new }
    {
        if let Some(fault) = self.blocked() {
            return Err(fault);
        }
        let entry = Entry {
            seat,
            event: Event::End,
        };
        if let Err(NoMemory) = self.journal.add(entry) {
            self.failed = true;
            return Err(CoreFault::NoMemory);
        }
        self.ended = true;
        Ok(())
    }

    /// Whether the session is not closed, and the thread of this number is live, isn't lent, and can make a step or has an interrupt to
    /// take. Nothing is said once memory was wanting.
    pub fn ready(&self, t: u64) -> bool
        ensures { self.now.failed ≡ false → result ≡ (not self.now.halted && is_ready (world self.now) t) }
    {
        !self.halted && self.live.threads().is_lendable(t)
    }

    /// The least thread above this number that is ready. Nothing is said once memory was wanting.
    pub fn next_ready(&self, after: u64) -> Option<u64>
        ensures least { self.now.failed ≡ false → result ≡ next_ready_of self.now after }
        ensures small { IfSome result (λ t. t < 2 ^ 63) }
    {
        if self.halted {
            return None;
        }
        self.live.threads().next_lendable(after)
    }

    /// Lends a thread to a seat, which takes one of its pending interrupts, if there is one.
    pub fn lend(&mut self, seat: u64, t: u64) -> Result<Loan, CoreFault>
        requires ready { is_ready (world self.old) t ≡ true }
        ensures adds { Adds seat (λ _. event.Lend t) self.old result self.new }
        ensures thread { IfOk result (λ loan. loan.thread ≡ t) }
        ensures seat { IfOk result (λ loan. loan.seat ≡ seat) }
        ensures lent { OnOk result (IsLentTo seat (thread_at (world self.new) t)) }
    {
        if let Some(fault) = self.blocked() {
            return Err(fault);
        }
        let entry = Entry {
            seat,
            event: Event::Lend(t),
        };
        if let Err(NoMemory) = self.journal.add(entry) {
            self.failed = true;
            return Err(CoreFault::NoMemory);
        }
        self.live.lend(t, seat);
        Ok(Loan { thread: t, seat })
    }

    /// Makes steps of the thread that is lent, `max` of them, or fewer where it ends, waits for what isn't there or closes the session; that
    /// ends the loan. It gives the number of steps.
    pub fn commit(&mut self, seat: u64, loan: Loan, max: u64) -> Result<u64, CoreFault>
        requires lent { IsLentTo seat (thread_at (world self.old) loan.thread) }
        requires some { 1 ≤ max }
        requires most { max ≤ max_burst }
        ensures adds { Adds seat (λ n. event.Burst loan.thread n) self.old result self.new }
        ensures steps { IfOk result (λ n. n ≡ burst_length rules max loan.thread (world self.old)) }
    {
        if let Some(fault) = self.blocked() {
            return Err(fault);
        }
        match self.live.burst(self.alloc, loan.thread, max) {
            Err(NoMemory) => {
                self.failed = true;
                Err(CoreFault::NoMemory)
            }
            Ok(Burst { steps, told }) => {
                let entry = Entry {
                    seat,
                    event: Event::Burst(loan.thread, steps),
                };
                if let Err(NoMemory) = write(
                    self.alloc,
                    &mut self.outs,
                    &mut self.journal,
                    told,
                    entry,
                ) {
                    self.failed = true;
                    return Err(CoreFault::NoMemory);
                }
                self.steps += steps;
                if self.ended {
                    self.steps_after_end += steps;
                }
                Ok(steps)
            }
        }
    }

    /// Hands out all undrained outputs. It takes no memory.
    pub fn drain(&mut self, seat: u64) -> Rows<ToEmacs>
        requires some { 0 < length (world self.old).undrained }
        requires whole { self.old.failed ≡ false }
        ensures outputs { result ≡ (world self.old).undrained }
        ensures adds { self.new ≡ with_entry self.old seat (event.Drain (length result)) }
        ensures legal { IsLegalFrom rules self.new.opened self.new.journal }
    {
        self.journal.add_drain(seat, self.outs.len() as u64);
        mem::replace(&mut self.outs, Rows::new(self.alloc))
    }

    /// How many outputs are not handed out yet.
    pub fn undrained(&self) -> u64
        ensures { result ≡ length (world self.now).undrained }
    {
        self.outs.len() as u64
    }

    /// The n-th of them, from 0.
    pub fn output(&self, n: u64) -> Option<&ToEmacs>
        ensures { option_copied result ≡ slice_get (world self.now).undrained n }
    {
        self.outs.as_slice().get(n as usize)
    }

    /// How many steps the bursts of the journal made.
    pub fn steps(&self) -> u64
        ensures { result ≡ steps_made self.now.journal }
    {
        self.steps
    }

    /// How many of them came after the end of the input.
    pub fn steps_after_end(&self) -> u64
        ensures { result ≡ steps_behind false self.now.journal }
    {
        self.steps_after_end
    }

    /// How many threads are lent. Nothing is said once memory was wanting.
    pub fn lent(&self) -> u64
        ensures { self.now.failed ≡ false → result ≡ lent_among (world self.now).threads }
    {
        self.live.threads().lent()
    }

    /// Whether no thread is ready or lent. Nothing is said once memory was wanting.
    pub fn quiet(&self) -> bool
        ensures { self.now.failed ≡ false → result ≡ is_quiet (world self.now) }
    {
        self.live.threads().are_idle()
    }

    /// Whether the input has ended.
    pub fn ended(&self) -> bool
        ensures { result ≡ (world self.now).ended }
    {
        self.ended
    }

    /// Whether a request has closed the session, or it was halted.
    pub fn closed(&self) -> bool
        ensures { result ≡ is_closed self.now }
    {
        self.halted
    }

    /// Whether memory was wanting in an event.
    pub fn failed(&self) -> bool
        ensures { result ≡ self.now.failed }
    {
        self.failed
    }

    /// The journal so far.
    pub fn journal(&self) -> &Journal
        ensures entries { result.now ≡ self.now.journal }
        ensures legal { IsLegalFrom rules self.now.opened self.now.journal }
    {
        &self.journal
    }

    /// Stops the session: from now on it is closed.
    pub fn halt(&mut self)
        ensures { self.new ≡ record self.old { halted = true } }
    {
        self.halted = true;
    }

    /// The image and the journal. Nothing is said of the image once memory was wanting.
    pub fn into_parts(self) -> (Image, Journal)
        ensures journal { result.1 ≡ self.journal }
        ensures legal { IsLegalFrom rules self.opened self.journal }
        ensures image { self.failed ≡ false → result.0 ≡ (world self).image }
    {
        let Core {
            opened: _,
            limits: _,
            alloc: _,
            live,
            outs: _,
            journal,
            steps: _,
            steps_after_end: _,
            ended: _,
            failed: _,
            halted: _,
        } = self;
        (live.into_image(), journal)
    }
}
