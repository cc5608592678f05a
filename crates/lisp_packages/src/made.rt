ghost use Rattle.std.specs.Prelude.{◌≡◌, ◌++◌, [], ◌∷◌, false, length, slice_get, option_map, IfOk, OnOk, OnErr};
ghost use Rattle.std.specs.String.{string_bytes};
ghost use Rattle.lisp_packages.specs.Made.{has_made};

use indexmap::IndexSet;
use lisp_data::NoMemory;
use std::alloc::Global;
use std::marker::Model;

/// The place of a package, and the name of a symbol that is new there.
#[derive(Drop, PartialEq, Eq, Hash)]
pub struct Fresh {
    pub place: usize,
    pub name: String,
}

/// The symbols that a form makes, in order of making, each once. Contracts see the list of places and names.
#[derive(Drop)]
pub struct Made {
    set: IndexSet<Fresh>,
}

impl Model for Made {
    ghost use Rattle.std.specs.Prelude.{List, ℕ, map};
    ghost use Rattle.std.specs.String.{string_bytes};

    ghost Value = { List (ℕ × List ℕ) };

    ghost view = { λ m. map (λ key. (key.place, string_bytes key.name)) m.set.keys };
}

impl Made {
    pub fn new(alloc: Global) -> Made
        ensures { result ≡ [] }
    {
        Made {
            set: IndexSet::new(alloc),
        }
    }

    pub fn len(&self) -> usize
        ensures { result ≡ length self.now }
    {
        self.set.len()
    }

    pub fn at(&self, n: usize) -> Option<&Fresh>
        ensures { option_map (λ fresh. (fresh.now.place, string_bytes fresh.now.name)) result ≡ slice_get self.now n }
    {
        self.set.get_index(n)
    }

    pub fn has(&self, alloc: Global, place: usize, name: &str) -> Result<bool, NoMemory>
        ensures { IfOk result (λ has. has ≡ has_made self.now place name.now) }
    {
        let fresh = Fresh {
            place,
            name: String::from_str(alloc, name)?,
        };
        Ok(self.set.contains(&fresh))
    }

    /// Adds a symbol that is new.
    pub fn add(&mut self, alloc: Global, place: usize, name: &str) -> Result<(), NoMemory>
        requires { has_made self.old place name.now ≡ false }
        ensures { OnOk result (self.new ≡ self.old ++ (place, name.now) ∷ []) }
    {
        let fresh = Fresh {
            place,
            name: String::from_str(alloc, name)?,
        };
        self.set.insert(fresh)?;
        Ok(())
    }
}
