ghost use Rattle.std.specs.Prelude.{◌≡◌, ◌+◌, ◌<◌, ◌≤◌, ◌++◌, ◌∷◌, [], false, length, slice_get, vec_capacity, vec_len, OnOk, OnErr};
ghost use Rattle.std.specs.Option.{option_copied};
ghost use Rattle.session_model.specs.declared.event.Event.TheVariants as event;
ghost use Rattle.swank_core.specs.Drains.{ends_with_drain};

use lisp_data::NoMemory;
use session_model::{Entry, Event};
use std::alloc::Global;
use std::marker::Model;

/// What has happened in a session, in order. Contracts see the list of its entries.
pub struct Journal {
    entries: Vec<Entry>,
    /// The last entry, where that is a drain: it stands here, so that adding it takes no memory.
    drain: Option<Entry>,
}

impl Model for Journal {
    ghost use Rattle.std.specs.Prelude.{◌≡◌, ◌++◌, true, List, option_to_list, IfSome};
    ghost use Rattle.session_model.specs.declared.event.Entry.{Entry};
    ghost use Rattle.lisp_data.specs.contracts.sexp.Sexp as sexp;
    ghost use Rattle.std.specs.Coded.{codes};
    ghost use Rattle.swank_core.specs.Drains.{is_drain};

    ghost Value = { List Entry };

    ghost coded = { Prim.hlevel (codes, sexp.the_row.coded) };

    ghost view = { λ j. j.entries.items ++ option_to_list j.drain };

    ghost invariant = { λ j. IfSome j.drain (λ last. is_drain last.event ≡ true) };
}

impl Drop for Journal {
    fn drop(self) {
        let Journal {
            entries: _,
            drain: _,
        } = self;
    }
}

impl Journal {
    /// The empty journal. It takes no memory.
    pub fn new(alloc: Global) -> Journal
        ensures { result ≡ [] }
    {
        Journal {
            entries: Vec::new(alloc),
            drain: None,
        }
    }

    /// How many entries there are.
    pub fn len(&self) -> u64
        ensures { result ≡ length self.now }
    {
        self.entries.len() as u64 + u64::from(self.drain.is_some())
    }

    /// The n-th entry, from 0.
    pub fn entry(&self, n: u64) -> Option<&Entry>
        ensures { option_copied result ≡ slice_get self.now n }
    {
        if n == self.entries.len() as u64 {
            return self.drain.as_ref();
        }
        self.entries.get(n as usize)
    }

    /// Adds an entry at the end.
    pub(crate) fn add(&mut self, entry: Entry) -> Result<(), NoMemory>
        ensures ok { OnOk result (self.new ≡ self.old ++ entry ∷ []) }
        ensures err { OnErr result (self.new ≡ self.old) }
    {
        self.entries.reserve(2)?;
        if let Some(last) = self.drain.take() {
            put(&mut self.entries, last);
        }
        put(&mut self.entries, entry);
        Ok(())
    }

    /// Adds the entry of a drain, where the last entry is none. It takes no memory.
    pub(crate) fn add_drain(&mut self, seat: u64, count: u64)
        requires apart { ends_with_drain self.old ≡ false }
        ensures { self.new ≡ self.old ++ record { seat = seat; event = event.Drain count } ∷ [] }
    {
        self.drain = Some(Entry {
            seat,
            event: Event::Drain(count),
        });
    }
}

/// Adds an entry where there is room for it.
fn put(entries: &mut Vec<Entry>, entry: Entry)
    requires { vec_len entries.old < vec_capacity entries.old }
    ensures items { entries.new.items ≡ entries.old.items ++ entry ∷ [] }
    ensures capacity { vec_capacity entries.old ≤ vec_capacity entries.new }
    ensures len { vec_len entries.new ≡ vec_len entries.old + 1 }
{
    entries.push(entry).unwrap();
}
