ghost use Rattle.std.specs.Prelude.{◌≡◌, ◌+◌, ◌++◌, ◌∷◌, ◌<◌, ◌≤◌, ◌^◌, [], Some, None, drop, length, find, is_some, IfNone, IfOk, IfSome, OnOk, OnErr, false, true};
ghost use Rattle.std.specs.Option.{option_map_or};
ghost use Rattle.mailboxes.specs.Mail.{AllBefore, IsMail};
ghost use Rattle.session_model.specs.Arriving.{posted};
ghost use Rattle.session_model.specs.Legal.{are_idle, is_lendable};
ghost use Rattle.session_model.specs.Pipe.{numbers};
ghost use Rattle.session_model.specs.World.{fresh, thread_in, World};
ghost use Rattle.swank_core.specs.Bursts.{IsBurst};
ghost use Rattle.swank_core.specs.Kept.{first, found, AreAscending};
ghost use Rattle.swank_core.specs.Session.{lent_among};
ghost use Rattle.swank_core.specs.Threads.{changed, lent_to, number_of, thread_of, IsAt, IsPlace};

use crate::burst::{Run, make_steps, sweep};
use crate::record::Record;
use crate::texts::copy_of;
use lisp_data::{NoMemory, Rows};
use lisp_image::Image;
use rpc_messages::{FromEmacs, ToEmacs};
use std::alloc::Global;
use std::marker::Model;

/// The live threads. Contracts see the list of all threads by number, None where one has ended, or where there is none, as at 0.
pub struct Threads {
    /// In order of number.
    records: Vec<Record>,
    /// The number of the next thread.
    next: u64,
}

impl Model for Threads {
    ghost use Rattle.std.specs.Prelude.{List, Option};
    ghost use Rattle.std.specs.Coded.{codes};
    ghost use Rattle.lisp_data.specs.contracts.sexp.Sexp as sexp;
    ghost use Rattle.lisp_data.specs.contracts.value.Value as value;
    ghost use Rattle.syntax_trees.specs.contracts.ast.Ast as ast;
    ghost use Rattle.session_model.specs.World.{Thread};
    ghost use Rattle.swank_core.specs.Codes.{term_code};
    ghost use Rattle.swank_core.specs.Threads.{threads_of, AreKept};

    ghost Value = { List (Option Thread) };

    ghost coded = { Prim.hlevel (codes, term_code (Prim.hlevel (codes, ast.the_row.coded, value.the_row.coded, sexp.the_row.coded)) (Prim.hlevel (codes, ast.the_row.coded, value.the_row.coded, sexp.the_row.coded)), ast.the_row.coded, value.the_row.coded, sexp.the_row.coded) };

    ghost view = { λ t. threads_of t.next t.records.items };

    ghost invariant = { λ t. AreKept t.next t.records.items };
}

impl Drop for Threads {
    fn drop(self) {
        let Threads {
            records: _,
            next: _,
        } = self;
    }
}

/// The place of the first thread with this number or a later one.
fn place(records: &[Record], t: u64) -> usize
    requires ascending { AreAscending number_of 0 records.now }
    ensures bound { result ≤ length records.now }
    ensures place { IsPlace records.now result t }
{
    records.partition_point(|record| record.machine.thread < t)
}

/// The place of the thread of this number.
fn find(records: &[Record], t: u64) -> Option<usize>
    requires ascending { AreAscending number_of 0 records.now }
    ensures at { IfSome result (λ at. IsAt records.now at t) }
    ensures within { IfSome result (λ at. at < length records.now) }
    ensures none { IfNone result (found number_of thread_of records.now t ≡ None) }
{
    let at = place(records, t);
    if at < records.len() && records[at].machine.thread == t {
        return Some(at);
    }
    None
}

/// The number of the first thread from this place on that may be lent.
fn first_lendable(records: &[Record], from: usize) -> Option<u64>
    requires { from ≤ length records.now }
    ensures { result ≡ first number_of thread_of is_lendable (drop from records.now) }
{
    for record in &records[from..] {
        if record.is_lendable() {
            return Some(record.machine.thread);
        }
    }
    None
}

impl Threads {
    /// The threads of a new session: that of the REPL, number 1.
    pub fn new(alloc: Global) -> Result<Threads, NoMemory>
        ensures { IfOk result (λ threads. threads ≡ None ∷ Some (fresh []) ∷ []) }
    {
        let mut records = Vec::new(alloc);
        records.push(Record::new(alloc, 1))?;
        Ok(Threads { records, next: 2 })
    }

    /// Whether the thread of this number is live.
    pub fn is_live(&self, t: u64) -> bool
        ensures { result ≡ is_some (thread_in self.now t) }
    {
        find(&self.records, t).is_some()
    }

    /// Whether a thread that is live may be lent.
    pub fn is_lendable(&self, t: u64) -> bool
        ensures { result ≡ option_map_or is_lendable (thread_in self.now t) false }
    {
        match find(&self.records, t) {
            None => false,
            Some(at) => self.records[at].is_lendable(),
        }
    }

    /// The least thread above this number that may be lent.
    pub fn next_lendable(&self, after: u64) -> Option<u64>
        ensures least { result ≡ find (λ t. option_map_or is_lendable (thread_in self.now t) false) (numbers (length self.now) (after + 1)) }
        ensures small { IfSome result (λ t. t < 2 ^ 63) }
    {
        let records = self.records.as_slice();
        let from = after.checked_add(1)?;
        first_lendable(records, place(records, from))
    }

    /// Whether no thread could be lent or is lent.
    pub fn are_idle(&self) -> bool
        ensures { result ≡ are_idle self.now }
    {
        for record in &self.records {
            if !record.is_idle() {
                return false;
            }
        }
        true
    }

    /// How many threads are lent.
    pub fn lent(&self) -> u64
        ensures { result ≡ lent_among self.now }
    {
        let mut lent = 0;
        for record in &self.records {
            if record.is_lent() {
                lent += 1;
            }
        }
        lent
    }

    /// Makes a thread with a message for it, and gives its number.
    pub fn hire(&mut self, alloc: Global, at: u64, m: &FromEmacs) -> Result<u64, NoMemory>
        requires mail { IsMail m.now }
        requires few { length self.old < 2 ^ 63 }
        ensures number { IfOk result (λ t. t ≡ length self.old) }
        ensures hired { OnOk result (self.new ≡ self.old ++ Some (fresh ((at, m.now) ∷ [])) ∷ []) }
        ensures err { OnErr result (self.new ≡ self.old) }
    {
        let number = self.next;
        let mut record = Record::new(alloc, number);
        record.post(at, copy_of(alloc, m)?)?;
        self.records.push(record)?;
        self.next += 1;
        Ok(number)
    }

    /// Adds a message to a thread's mailbox. It says whether the thread is live; where it isn't, nothing changes.
    pub fn post(&mut self, alloc: Global, t: u64, at: u64, m: &FromEmacs) -> Result<bool, NoMemory>
        requires later { IfSome (thread_in self.old t) (λ thread. AllBefore at thread.mailbox) }
        requires mail { IsMail m.now }
        ensures live { IfOk result (λ live. live ≡ is_some (thread_in self.old t)) }
        ensures posted { OnOk result (self.new ≡ changed (λ thread. posted thread at m.now) t self.old) }
        ensures long { length self.new ≡ length self.old }
    {
        match find(&self.records, t) {
            None => Ok(false),
            Some(place) => {
                let copy = copy_of(alloc, m)?;
                self.records[place].post(at, copy)?;
                Ok(true)
            }
        }
    }

    /// Lends a thread that is live, which takes a pending interrupt.
    pub fn lend(&mut self, t: u64, seat: u64)
        ensures lent { self.new ≡ changed (lent_to seat) t self.old }
        ensures long { length self.new ≡ length self.old }
    {
        if let Some(place) = find(&self.records, t) {
            self.records[place].lend(seat);
        }
    }

    /// Makes steps of a live thread, `max` at most, until it waits for what isn't there or has ended, and ends its loan. A worker that
    /// ended is dropped, with an abort for each request that it never took. After want of memory the thread is dropped.
    pub fn burst(
        &mut self,
        alloc: Global,
        t: u64,
        image: &mut Image,
        outs: &mut Rows<ToEmacs>,
        max: u64,
    ) -> Result<Run, NoMemory>
        requires live { is_some (thread_in self.old t) ≡ true }
        ensures long { length self.new ≡ length self.old }
        ensures within { IfOk result (λ run. run.steps ≤ max) }
        ensures bursts { IfOk result (λ run. (w : World) → w.threads ≡ self.old → w.image ≡ image.old → w.closed ≡ false → IsBurst w max t outs.old self.new image.new outs.new run.steps run.over) }
    {
        match find(&self.records, t) {
            None => unreachable!(),
            Some(place) => match make_steps(&mut self.records[place], alloc, image, outs, max) {
                Err(NoMemory) => {
                    self.records.remove(place);
                    Err(NoMemory)
                }
                Ok(run) => {
                    if run.over {
                        let ended = self.records.remove(place);
                        sweep(alloc, ended.into_mailbox(), outs)?;
                        return Ok(run);
                    }
                    self.records[place].give_back();
                    Ok(run)
                }
            },
        }
    }
}
