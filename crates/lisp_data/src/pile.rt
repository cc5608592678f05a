ghost use Rattle.std.specs.Prelude.{◌≡◌, [], ◌∷◌, length, ◌↔◌, IsTrue, MatchOption, OnOk, OnErr};

use crate::{NoMemory, Rows};
use std::alloc::Global;
use std::marker::Model;

/// A pile of items, which contracts see as the list of them, the newest first.
pub struct Pile<T> {
    items: Vec<T>,
}

impl<T> Model for Pile<T> {
    ghost use Rattle.std.specs.Prelude.{List, reverse};
    ghost use Rattle.std.specs.Coded.{coded_list};

    ghost Value = { List T };

    ghost coded = { coded_list T.code };

    ghost view = { λ p. reverse p.items.items };
}

impl<T: Drop> Drop for Pile<T> {
    fn drop(self) {
        let Pile { items: _ } = self;
    }
}

impl<T> Pile<T> {
    /// An empty pile, which takes no memory.
    pub fn new(alloc: Global) -> Pile<T>
        ensures { result ≡ [] }
    {
        Pile {
            items: Vec::new(alloc),
        }
    }

    /// The pile of these items, the first of them on top. It takes no memory.
    pub fn of(items: Rows<T>) -> Pile<T>
        ensures { result ≡ items }
    {
        let mut items = items.into_vec();
        items.reverse();
        Pile { items }
    }

    pub fn len(&self) -> usize
        ensures { result ≡ length self.now }
    {
        self.items.len()
    }

    pub fn is_empty(&self) -> bool
        ensures { IsTrue result ↔ (self.now ≡ []) }
    {
        self.items.is_empty()
    }

    /// Takes the newest item off, None where there is none.
    pub fn pop(&mut self) -> Option<T>
        ensures { MatchOption result ((self.old ≡ []) × (self.new ≡ [])) (λ newest. self.old ≡ newest ∷ self.new) }
    {
        self.items.pop()
    }
}

impl<T: Drop> Pile<T> {
    /// Puts an item on top. The item is dropped where memory is wanting.
    pub fn push(&mut self, item: T) -> Result<(), NoMemory>
        ensures ok { OnOk result (self.new ≡ item ∷ self.old) }
        ensures err { OnErr result (self.new ≡ self.old) }
    {
        self.items.push(item)?;
        Ok(())
    }
}
