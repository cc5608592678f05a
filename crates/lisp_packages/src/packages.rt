ghost use Rattle.std.specs.Prelude.{◌≡◌, ◌<◌, Some, IfSome, ◌++◌, ◌-◌, [], ◌∷◌, Option, true, false, not, is_some, length, take, slice_get, option_map, IsTrue, IfOk, OnOk, OnErr};
ghost use Rattle.std.specs.Option.{option_copied, option_map_or};
ghost use Rattle.lisp_packages.specs.Entries.{entry_of, put_entry, added, with_external};
ghost use Rattle.lisp_packages.specs.Making.{cut};
ghost use Rattle.lisp_packages.specs.Packages.{place_of, name_at, uses_at, own_at, external_at, inherited, accessible, with_own, with_uses};
ghost use Rattle.lisp_packages.specs.Made.{shortened};

use crate::index::{add_names, find_place};
use crate::{Entry, Package};
use indexmap::IndexMap;
use lisp_data::{Name, NoMemory, Rows, Text};
use std::alloc::Global;
use std::marker::Model;

/// The packages of a Lisp image, in order of making. Contracts see the list of them.
#[derive(Drop)]
pub struct Packages {
    list: Vec<Package>,
    /// The places of their names and nicknames.
    names: IndexMap<String, usize>,
}

impl Model for Packages {
    ghost use Rattle.std.specs.Prelude.{List};
    ghost use Rattle.lisp_packages.specs.Named.{HasNames};
    ghost use Rattle.lisp_packages.specs.declared.lisp_package.Package.{Package};

    ghost Value = { List Package };

    ghost view = { λ p. p.list.items };

    ghost invariant = { λ p. HasNames p.names p.list.items };
}

impl Packages {
    pub(crate) fn none(alloc: Global) -> Packages
        ensures { result ≡ [] }
    {
        Packages {
            list: Vec::new(alloc),
            names: IndexMap::new(alloc),
        }
    }

    pub(crate) fn alloc(&self) -> Global {
        *self.list.allocator()
    }

    /// How many packages there are.
    pub(crate) fn count(&self) -> usize
        ensures { result ≡ length self.now }
    {
        self.list.len()
    }

    pub(crate) fn at(&self, place: usize) -> Option<&Package>
        ensures { option_copied result ≡ slice_get self.now place }
    {
        self.list.get(place)
    }

    pub(crate) fn get(&self, place: usize) -> &Package
        requires { place < length self.now }
        ensures { slice_get self.now place ≡ Some result.now }
    {
        &self.list[place]
    }

    /// Adds a package, made last.
    pub(crate) fn push(&mut self, package: Package) -> Result<(), NoMemory>
        ensures ok { OnOk result (self.new ≡ self.old ++ «package» ∷ []) }
        ensures err { OnErr result (self.new ≡ self.old) }
    {
        let place = self.list.len();
        add_names(self.list.as_slice(), &mut self.names, &package, place)?;
        self.list.push(package)?;
        Ok(())
    }

    /// The place of the package that a text names.
    pub(crate) fn place(&self, text: &str) -> Option<usize>
        ensures place { result ≡ place_of self.now text.now }
        ensures within { IfSome result (λ i. i < length self.now) }
    {
        find_place(self.list.as_slice(), &self.names, text)
    }

    /// The entry of a name among the symbols present in the package at a place.
    pub(crate) fn own(&self, place: usize, name: &str) -> Option<&Entry>
        ensures { option_copied result ≡ entry_of (own_at self.now place) name.now }
    {
        self.at(place)?.own.get(name)
    }

    pub(crate) fn external(&self, place: usize, name: &str) -> Option<&Name>
        ensures { option_copied result ≡ external_at self.now place name.now }
    {
        let entry = self.own(place, name)?;
        if entry.external {
            Some(&entry.symbol)
        } else {
            None
        }
    }

    pub(crate) fn inherited(&self, place: usize, name: &str) -> Option<&Name>
        ensures { option_copied result ≡ inherited self.now (uses_at self.now place) name.now }
    {
        for used in self.at(place)?.uses.as_slice() {
            let found = self.external(*used, name);
            if found.is_some() {
                return found;
            }
        }
        None
    }

    /// The symbol of a name that is accessible in the package at a place.
    pub(crate) fn accessible(&self, place: usize, name: &str) -> Option<&Name>
        ensures { option_copied result ≡ accessible self.now place name.now }
    {
        match self.own(place, name) {
            Some(entry) => Some(&entry.symbol),
            None => self.inherited(place, name),
        }
    }

    /// Adds the entry to the package at a place where its name is new there, and tells whether it is.
    pub(crate) fn add(&mut self, place: usize, entry: Entry) -> Result<bool, NoMemory>
        requires { place < length self.old }
        ensures ok { OnOk result (self.new ≡ with_own self.old place (added (own_at self.old place) entry)) }
        ensures told { IfOk result (λ new. new ≡ true → shortened self.new place ≡ self.old) }
        ensures same { IfOk result (λ new. new ≡ false → self.new ≡ self.old) }
        ensures err { OnErr result (self.new ≡ self.old) }
    {
        let told = self.list[place].own.add(entry)?;
        Ok(told)
    }

    /// Puts the entry in the place of the one of its name in the package at a place, or at the end where its name is new there.
    pub(crate) fn put(&mut self, place: usize, entry: Entry) -> Result<(), NoMemory>
        requires { place < length self.old }
        ensures ok { OnOk result (self.new ≡ with_own self.old place (put_entry (own_at self.old place) entry)) }
        ensures err { OnErr result (self.new ≡ self.old) }
    {
        self.list[place].own.put(entry)?;
        Ok(())
    }

    /// Drops the entry added last to the package at a place.
    pub(crate) fn drop_last(&mut self, place: usize)
        ensures { self.new ≡ shortened self.old place }
    {
        if place < self.list.len() {
            self.list[place].own.drop_last();
        }
    }

    pub(crate) fn add_use(&mut self, place: usize, used: usize) -> Result<(), NoMemory>
        requires { place < length self.old }
        ensures ok { OnOk result (self.new ≡ with_uses self.old place (uses_at self.old place ++ used ∷ [])) }
        ensures err { OnErr result (self.new ≡ self.old) }
    {
        self.list[place].uses.push(used)?;
        Ok(())
    }

    /// Drops the package made last.
    pub(crate) fn pop(&mut self)
        ensures { self.new ≡ take (length self.old - 1) self.old }
    {
        let keep = self.list.len().saturating_sub(1);
        self.list.truncate(keep);
    }

    /// Drops the uses and the symbols of the package at a place from these numbers on.
    pub(crate) fn cut(&mut self, place: usize, uses: usize, own: usize)
        ensures { self.new ≡ cut self.old place uses own }
    {
        if place < self.list.len() {
            let package = &mut self.list[place];
            package.uses.truncate(uses);
            package.own.truncate(own);
        }
    }

    /// Makes the symbol of a name that is present in the package at a place external.
    pub(crate) fn set_external(&mut self, place: usize, name: &str)
        ensures { self.new ≡ with_own self.old place (with_external (own_at self.old place) name.now) }
    {
        if place < self.list.len() {
            self.list[place].own.set_external(name);
        }
    }
}
