ghost use Rattle.std.specs.Prelude.{◌≡◌, [], Some, None, true, OnOk};
ghost use Rattle.mailboxes.specs.Mail.{AllBefore, IsMail};
ghost use Rattle.server_rules.specs.Simple.{are_simple};
ghost use Rattle.session_model.specs.Arriving.{posted};
ghost use Rattle.session_model.specs.Legal.{can_step, is_active, is_idle, is_lendable, is_lent};
ghost use Rattle.session_model.specs.World.{fresh};
ghost use Rattle.swank_core.specs.Threads.{lent_to, thread_of};

use lisp_data::NoMemory;
use lisp_frames::Focus;
use lisp_step::Machine;
use mailboxes::Mailbox;
use rpc_messages::FromEmacs;
use std::alloc::Global;

/// A live thread.
pub struct Record {
    pub machine: Machine,
    pub mailbox: Mailbox,
    /// The interrupts that were kept and that no loan has taken.
    pub interrupts: u64,
    /// The seat to which the thread is lent.
    pub lent: Option<u64>,
}

impl Drop for Record {
    fn drop(self) {
        let Record {
            machine: _,
            mailbox: _,
            interrupts: _,
            lent: _,
        } = self;
    }
}

impl Record {
    /// A thread that waits for a request at its top. It takes no memory.
    pub fn new(alloc: Global, number: u64) -> Record
        ensures thread { thread_of result ≡ fresh [] }
        ensures number { result.machine.thread ≡ number }
        ensures simple { are_simple result.machine.stack.context ≡ true }
    {
        Record {
            machine: Machine::new(alloc, number),
            mailbox: Mailbox::new(alloc),
            interrupts: 0,
            lent: None,
        }
    }

    /// What it was sent and never took. The rest is dropped.
    pub fn into_mailbox(self) -> Mailbox
        ensures { result ≡ self.mailbox }
    {
        let Record {
            machine: _,
            mailbox,
            interrupts: _,
            lent: _,
        } = self;
        mailbox
    }

    /// Whether the thread can make a step: it doesn't wait for what isn't there.
    pub fn can_step(&self) -> bool
        ensures { result ≡ can_step (thread_of self.now) }
    {
        match self.machine.stack.focus() {
            Focus::Wait(pattern) => self.mailbox.accepts(pattern),
            _ => true,
        }
    }

    /// Whether it has an interrupt to take, or can make a step.
    pub fn is_active(&self) -> bool
        ensures { result ≡ is_active (thread_of self.now) }
    {
        self.interrupts > 0 || self.can_step()
    }

    pub fn is_lent(&self) -> bool
        ensures { result ≡ is_lent (thread_of self.now) }
    {
        self.lent.is_some()
    }

    pub fn is_lendable(&self) -> bool
        ensures { result ≡ is_lendable (thread_of self.now) }
    {
        self.is_active() && !self.is_lent()
    }

    pub fn is_idle(&self) -> bool
        ensures { result ≡ is_idle (Some (thread_of self.now)) }
    {
        !(self.is_active() || self.is_lent())
    }

    /// Adds a message to its mailbox.
    pub fn post(&mut self, at: u64, m: FromEmacs) -> Result<(), NoMemory>
        requires later { AllBefore at self.old.mailbox }
        requires mail { IsMail m }
        ensures thread { OnOk result (thread_of self.new ≡ posted (thread_of self.old) at m) }
        ensures machine { self.new.machine ≡ self.old.machine }
    {
        self.mailbox.post(at, m)
    }

    /// Lends the thread, which takes a pending interrupt.
    pub fn lend(&mut self, seat: u64)
        ensures thread { thread_of self.new ≡ lent_to seat (thread_of self.old) }
        ensures number { self.new.machine.thread ≡ self.old.machine.thread }
        ensures simple { are_simple self.old.machine.stack.context ≡ true → are_simple self.new.machine.stack.context ≡ true }
    {
        if self.interrupts > 0 {
            self.interrupts -= 1;
            self.machine.interrupt();
        }
        self.lent = Some(seat);
    }

    /// Ends the thread's loan.
    pub fn give_back(&mut self)
        ensures thread { thread_of self.new ≡ record (thread_of self.old) { lent = None } }
        ensures machine { self.new.machine ≡ self.old.machine }
    {
        self.lent = None;
    }
}
