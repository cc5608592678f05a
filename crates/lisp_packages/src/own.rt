ghost use Rattle.std.specs.Prelude.{◌≡◌, ◌-◌, ◌↔◌, [], is_some, true, false, length, slice_get, take, IsTrue, IfOk, OnOk, OnErr};
ghost use Rattle.std.specs.Option.{option_copied};
ghost use Rattle.lisp_packages.specs.Entries.{entry_of, put_entry, added, with_external};

use crate::Entry;
use indexmap::IndexMap;
use lisp_data::NoMemory;
use std::alloc::Global;
use std::marker::Model;

/// The symbols present in a package, in order of interning, at most one of each name. Contracts see the list of their entries.
#[derive(Drop)]
pub struct Own {
    map: IndexMap<String, Entry>,
}

impl Model for Own {
    ghost use Rattle.std.specs.Prelude.{List};
    ghost use Rattle.indexmap.specs.IndexMap.{values};
    ghost use Rattle.lisp_packages.specs.declared.entry.Entry.{Entry};
    ghost use Rattle.lisp_packages.specs.Keyed.{IsKeyed};

    ghost Value = { List Entry };

    ghost view = { λ o. values o.map };

    ghost invariant = { λ o. IsKeyed o.map.entries };
}

impl Own {
    pub fn new(alloc: Global) -> Own
        ensures { result ≡ [] }
    {
        Own {
            map: IndexMap::new(alloc),
        }
    }

    pub fn len(&self) -> usize
        ensures { result ≡ length self.now }
    {
        self.map.len()
    }

    pub fn is_empty(&self) -> bool
        ensures { IsTrue result ↔ (self.now ≡ []) }
    {
        self.len() == 0
    }

    /// The entry of a name.
    pub fn get(&self, name: &str) -> Option<&Entry>
        ensures { option_copied result ≡ entry_of self.now name.now }
    {
        self.map.get(name)
    }

    pub fn has(&self, name: &str) -> bool
        ensures { result ≡ is_some (entry_of self.now name.now) }
    {
        self.get(name).is_some()
    }

    /// The n-th entry in order of interning, from 0.
    pub fn at(&self, n: usize) -> Option<&Entry>
        ensures { option_copied result ≡ slice_get self.now n }
    {
        let (_, entry) = self.map.get_index(n)?;
        Some(entry)
    }

    /// Puts the entry in the place of the one of its name, or at the end where its name is new.
    pub(crate) fn put(&mut self, entry: Entry) -> Result<(), NoMemory>
        ensures ok { OnOk result (self.new ≡ put_entry self.old entry) }
        ensures err { OnErr result (self.new ≡ self.old) }
    {
        let alloc = *self.map.allocator();
        let name = String::from_str(alloc, entry.symbol.symbol().name.as_str())?;
        self.map.insert(name, entry)?;
        Ok(())
    }

    /// Adds the entry at the end where its name is new, and tells whether it is.
    pub(crate) fn add(&mut self, entry: Entry) -> Result<bool, NoMemory>
        ensures ok { OnOk result (self.new ≡ added self.old entry) }
        ensures told { IfOk result (λ new. new ≡ true → take (length self.new - 1) self.new ≡ self.old) }
        ensures same { IfOk result (λ new. new ≡ false → self.new ≡ self.old) }
        ensures err { OnErr result (self.new ≡ self.old) }
    {
        if self.has(entry.symbol.symbol().name.as_str()) {
            return Ok(false);
        }
        self.put(entry)?;
        Ok(true)
    }

    /// Drops the last entry.
    pub(crate) fn drop_last(&mut self)
        ensures { self.new ≡ take (length self.old - 1) self.old }
    {
        let keep = self.len().saturating_sub(1);
        self.map.truncate(keep);
    }

    /// Drops the entries from the n-th on.
    pub(crate) fn truncate(&mut self, keep: usize)
        ensures { self.new ≡ take keep self.old }
    {
        self.map.truncate(keep);
    }

    /// Makes the symbol of a name external, where one is present.
    pub(crate) fn set_external(&mut self, name: &str)
        ensures { self.new ≡ with_external self.old name.now }
    {
        if let Some(entry) = self.map.get_mut(name) {
            entry.external = true;
            return;
        }
    }
}
