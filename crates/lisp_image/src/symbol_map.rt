ghost use Rattle.std.specs.Prelude.{◌≡◌, ◌<◌, [], None, length, slice_get, option_map, OnOk, OnErr};
ghost use Rattle.std.specs.Option.{option_copied};
ghost use Rattle.lisp_image.specs.SymbolMap.{value_of, with_value};
ghost use Rattle.lisp_image.specs.Places.{place_of, with_value_at};

use crate::places::{number_of, set_number};
use indexmap::IndexMap;
use lisp_data::{NoMemory, Symbol};
use std::alloc::Global;
use std::marker::Model;

/// A finite map from symbols. Contracts see the list of its symbols with their values, in order of first entry.
#[derive(Drop)]
pub struct SymbolMap<V> {
    homes: IndexMap<String, IndexMap<String, usize>>,
    entries: Vec<(Symbol, V)>,
}

impl<V> Model for SymbolMap<V> {
    ghost use Rattle.std.specs.Prelude.{List};
    ghost use Rattle.lisp_data.specs.declared.symbol.Symbol.{Symbol};
    ghost use Rattle.lisp_image.specs.Places.{IsIndexed};

    ghost Value = { List (Symbol × V) };

    ghost view = { λ m. m.entries.items };

    ghost invariant = { λ m. IsIndexed m.homes m.entries.items };
}

/// Puts the value in the place of the one of the entry at a place.
fn replace<V: Drop>(entries: &mut Vec<(Symbol, V)>, place: usize, value: V)
    ensures { entries.new.items ≡ with_value_at entries.old.items place value }
{
    if place < entries.len() {
        entries[place].1 = value;
    }
}

impl<V> SymbolMap<V> {
    /// A map of no symbols, which takes no memory.
    pub fn new(alloc: Global) -> SymbolMap<V>
        ensures { result ≡ [] }
    {
        SymbolMap {
            homes: IndexMap::new(alloc),
            entries: Vec::new(alloc),
        }
    }

    /// How many symbols have a value.
    pub fn len(&self) -> usize
        ensures { result ≡ length self.now }
    {
        self.entries.len()
    }

    fn place(&self, symbol: &Symbol) -> Option<usize>
        ensures { result ≡ place_of self.now symbol.now }
    {
        number_of(&self.homes, symbol.home.as_str(), symbol.name.as_str())
    }

    /// The symbol's value.
    pub fn get(&self, symbol: &Symbol) -> Option<&V>
        ensures { option_copied result ≡ value_of self.now symbol.now }
    {
        let place = self.place(symbol)?;
        let (_, value) = self.at(place)?;
        Some(value)
    }

    /// The n-th symbol in order of first entry, from 0, with its value.
    pub fn at(&self, n: usize) -> Option<(&Symbol, &V)>
        ensures { option_map (λ found. (found.0.now, found.1.now)) result ≡ slice_get self.now n }
    {
        let (symbol, value) = self.entries.get(n)?;
        Some((symbol, value))
    }
}

impl<V: Drop> SymbolMap<V> {
    /// Adds a symbol that has no value.
    fn add(&mut self, symbol: &Symbol, value: V) -> Result<(), NoMemory>
        requires { place_of self.old symbol.now ≡ None }
        ensures ok { OnOk result (self.new ≡ with_value self.old symbol.now value) }
        ensures err { OnErr result (self.new ≡ self.old) }
    {
        let alloc = *self.entries.allocator();
        let place = self.entries.len();
        self.entries.push((symbol.copy(alloc)?, value))?;
        let (home, name) = (symbol.home.as_str(), symbol.name.as_str());
        if let Err(fault) = set_number(&mut self.homes, home, name, place) {
            self.entries.pop();
            return Err(fault);
        }
        Ok(())
    }

    /// Gives the symbol this value. A symbol that has one keeps its place in the order.
    pub fn set(&mut self, symbol: &Symbol, value: V) -> Result<(), NoMemory>
        ensures ok { OnOk result (self.new ≡ with_value self.old symbol.now value) }
        ensures err { OnErr result (self.new ≡ self.old) }
    {
        match self.place(symbol) {
            Some(place) => {
                replace(&mut self.entries, place, value);
                Ok(())
            }
            None => self.add(symbol, value),
        }
    }
}
