ghost use Rattle.server_rules.specs.Built.{built};
ghost use Rattle.std.specs.Prelude.{◌≡◌, ◌+◌, ◌<◌, ◌≤◌, ◌^◌, length, false, true, is_some, IfOk};
ghost use Rattle.mailboxes.specs.Mail.{IsMail};
ghost use Rattle.rpc_messages.specs.declared.from_emacs.FromEmacs.TheVariants as mail;
ghost use Rattle.session_model.specs.Arriving as spec;
ghost use Rattle.session_model.specs.Running.{lends};
ghost use Rattle.session_model.specs.World.{start, thread_at, thread_in, World};
ghost use Rattle.swank_core.specs.Bursts.{Bursts};
ghost use Rattle.swank_core.specs.Live.{shown, Does, ArePlaced};

use crate::burst::REPL;
use crate::texts::not_found;
use crate::threads::Threads;
use crate::workers::{remove_worker, route};
use lisp_data::{NoMemory, Rows};
use lisp_image::Image;
use rpc_messages::{FromEmacs, ThreadName, ToEmacs};
use std::alloc::Global;
use std::marker::Model;

/// The image, the live threads, and the order in which requests were routed to the live workers.
pub struct Live {
    image: Image,
    threads: Threads,
    /// The live workers, the one to which a request was routed last at the end.
    workers: Vec<u64>,
}

/// What a burst made.
#[derive(Drop)]
pub struct Burst {
    /// How many steps.
    pub steps: u64,
    /// What they told.
    pub told: Rows<ToEmacs>,
}

impl Model for Live {
    ghost use Rattle.std.specs.Prelude.{length, reverse};
    ghost use Rattle.std.specs.Coded.{codes};
    ghost use Rattle.lisp_data.specs.contracts.sexp.Sexp as sexp;
    ghost use Rattle.lisp_data.specs.contracts.value.Value as value;
    ghost use Rattle.syntax_trees.specs.contracts.ast.Ast as ast;
    ghost use Rattle.swank_core.specs.Codes.{term_code};
    ghost use Rattle.swank_core.specs.Live.{LiveState};
    ghost use Rattle.swank_core.specs.Workers.{AreWorkers};

    ghost Value = { LiveState };

    ghost coded = { Prim.hlevel (codes, term_code (Prim.hlevel (codes, ast.the_row.coded, value.the_row.coded, sexp.the_row.coded)) (Prim.hlevel (codes, ast.the_row.coded, value.the_row.coded, sexp.the_row.coded)), ast.the_row.coded, value.the_row.coded, sexp.the_row.coded) };

    ghost view = { λ l. record { image = l.image; threads = l.threads; workers = reverse l.workers.items } };

    ghost invariant = { λ l. AreWorkers (length l.threads) (reverse l.workers.items) };
}

impl Drop for Live {
    fn drop(self) {
        let Live {
            image: _,
            threads: _,
            workers: _,
        } = self;
    }
}

impl Live {
    /// What a session begins with: this image and the REPL's thread.
    pub fn new(alloc: Global, image: Image, threads: Threads) -> Live
        requires { threads ≡ (start image).threads }
        ensures { result ≡ shown (start image) }
    {
        Live {
            image,
            threads,
            workers: Vec::new(alloc),
        }
    }

    pub fn into_image(self) -> Image
        ensures { result ≡ self.image }
    {
        let Live {
            image,
            threads: _,
            workers: _,
        } = self;
        image
    }

    pub fn threads(&self) -> &Threads
        ensures { result.now ≡ self.now.threads }
    {
        &self.threads
    }

    /// The number of the thread that a name stands for, other than a new one.
    fn named(&self, name: &ThreadName) -> u64
        ensures { (w : World) → self.now ≡ shown w → result ≡ spec.named w name.now }
    {
        match name {
            ThreadName::New => self.workers.last().copied().unwrap_or(REPL),
            ThreadName::Repl => REPL,
            ThreadName::Id(t) => *t,
        }
    }

    /// A message arrived at this place of the journal. It gives what this tells.
    pub fn arrive(
        &mut self,
        alloc: Global,
        at: u64,
        m: &FromEmacs,
    ) -> Result<Rows<ToEmacs>, NoMemory>
        requires placed { ArePlaced at self.old.threads }
        requires few { length self.old.threads ≤ at + 2 }
        requires early { at < 2 ^ 62 }
        ensures { IfOk result (λ outs. (w : World) → w.places ≡ at → self.old ≡ shown w → Does (spec.arrives_as_built built w m.now) self.new outs) }
    {
        match m {
            FromEmacs::Rex { thread, id, .. } => self.request_by(alloc, at, thread, *id, m),
            FromEmacs::Interrupt { thread } => self.interrupt(alloc, thread),
            FromEmacs::ReturnString { thread, .. } => self.answer(alloc, at, thread, m),
            FromEmacs::Return { thread, .. } => self.answer(alloc, at, thread, m),
            FromEmacs::Unreadable { packet, text } => {
                let mut outs = Rows::new(alloc);
                outs.push(ToEmacs::ReaderError {
                    packet: packet.copy(alloc)?,
                    text: text.copy(alloc)?,
                })?;
                Ok(outs)
            }
        }
    }

    /// A request for the thread of this name.
    fn request_by(
        &mut self,
        alloc: Global,
        at: u64,
        name: &ThreadName,
        id: i64,
        m: &FromEmacs,
    ) -> Result<Rows<ToEmacs>, NoMemory>
        requires mail { IsMail m.now }
        requires placed { ArePlaced at self.old.threads }
        requires few { length self.old.threads ≤ at + 2 }
        requires early { at < 2 ^ 62 }
        ensures { IfOk result (λ outs. (w : World) → w.places ≡ at → self.old ≡ shown w → Does (spec.requests_by w id m.now name.now) self.new outs) }
    {
        match name {
            ThreadName::New => self.hire(alloc, at, m),
            ThreadName::Repl => self.request(alloc, at, REPL, id, m),
            ThreadName::Id(t) => self.request(alloc, at, *t, id, m),
        }
    }

    /// A request for a new worker.
    fn hire(&mut self, alloc: Global, at: u64, m: &FromEmacs) -> Result<Rows<ToEmacs>, NoMemory>
        requires mail { IsMail m.now }
        requires few { length self.old.threads < 2 ^ 63 }
        ensures { IfOk result (λ outs. (w : World) → w.places ≡ at → self.old ≡ shown w → Does (spec.hires w m.now) self.new outs) }
    {
        let t = self.threads.hire(alloc, at, m)?;
        self.workers.push(t)?;
        Ok(Rows::new(alloc))
    }

    /// A request for a thread that stands already.
    fn request(
        &mut self,
        alloc: Global,
        at: u64,
        t: u64,
        id: i64,
        m: &FromEmacs,
    ) -> Result<Rows<ToEmacs>, NoMemory>
        requires mail { IsMail m.now }
        requires placed { ArePlaced at self.old.threads }
        ensures { IfOk result (λ outs. (w : World) → w.places ≡ at → self.old ≡ shown w → Does (spec.requests w t id m.now (thread_at w t)) self.new outs) }
    {
        let mut outs = Rows::new(alloc);
        if self.threads.post(alloc, t, at, m)? {
            route(&mut self.workers, t)?;
        } else {
            outs.push(ToEmacs::InvalidRpc {
                id,
                text: not_found(alloc, t)?,
            })?;
        }
        Ok(outs)
    }

    /// The answer to a question of the thread of this name. For a thread that isn't live it is dropped.
    fn answer(
        &mut self,
        alloc: Global,
        at: u64,
        name: &ThreadName,
        m: &FromEmacs,
    ) -> Result<Rows<ToEmacs>, NoMemory>
        requires mail { IsMail m.now }
        requires placed { ArePlaced at self.old.threads }
        ensures { IfOk result (λ outs. (w : World) → w.places ≡ at → self.old ≡ shown w → Does (spec.answers w (spec.named w name.now) m.now (thread_at w (spec.named w name.now))) self.new outs) }
    {
        let t = self.named(name);
        self.threads.post(alloc, t, at, m)?;
        Ok(Rows::new(alloc))
    }

    /// An interrupt of the thread of this name. For a thread that is live it is dropped.
    fn interrupt(&self, alloc: Global, name: &ThreadName) -> Result<Rows<ToEmacs>, NoMemory>
        ensures { IfOk result (λ outs. (w : World) → self.now ≡ shown w → Does (spec.arrives_as_built built w (mail.Interrupt name.now)) self.now outs) }
    {
        let mut outs = Rows::new(alloc);
        let t = self.named(name);
        if !self.threads.is_live(t) {
            outs.push(ToEmacs::DebugCondition {
                thread: t,
                text: not_found(alloc, t)?,
            })?;
        }
        Ok(outs)
    }

    /// Lends a thread to a seat.
    pub fn lend(&mut self, t: u64, seat: u64)
        ensures { (w : World) → self.old ≡ shown w → self.new ≡ shown (lends built.levels w seat t).after }
    {
        self.threads.lend(t, seat);
    }

    /// Makes steps of a thread that is live, `max` at most, until it waits for what isn't there or has ended, and ends its loan.
    pub fn burst(&mut self, alloc: Global, t: u64, max: u64) -> Result<Burst, NoMemory>
        requires live { is_some (thread_in self.old.threads t) ≡ true }
        ensures long { length self.new.threads ≡ length self.old.threads }
        ensures within { IfOk result (λ burst. burst.steps ≤ max) }
        ensures bursts { IfOk result (λ burst. (w : World) → w.closed ≡ false → self.old ≡ shown w → Bursts w max t burst.steps self.new burst.told) }
    {
        let mut outs = Rows::new(alloc);
        let run = self
            .threads
            .burst(alloc, t, &mut self.image, &mut outs, max)?;
        if run.over {
            remove_worker(&mut self.workers, t);
        }
        Ok(Burst {
            steps: run.steps,
            told: outs,
        })
    }
}
