ghost use Rattle.std.specs.Prelude.{◌≡◌, ◌<◌, ◌++◌, ◌-◌, [], ◌∷◌, None, Some, Ok, ◌||◌, drop, take, length, IfOk, IfErr, OnOk, OnErr};
ghost use Rattle.std.specs.List.{list_any};
ghost use Rattle.lisp_packages.specs.Causes.{IsCause};
ghost use Rattle.lisp_packages.specs.Changes.{KeepsOthers};
ghost use Rattle.lisp_packages.specs.Making.{new_package, place_in, places_named, with_use, with_used, symbol_to_export, present_at, all_present, uses_clash, export_clashes, exported, extended, defined, cut, IsUndone};
ghost use Rattle.lisp_packages.specs.Packages.{place_of, uses_at, own_at};

use crate::naming::new_entry;
use crate::{Entry, NameFault, Own, Package, Packages};
use lisp_data::{COMMON_LISP, Name, NoMemory, Rows, Text};
use std::alloc::Global;

/// A package of this name that has nothing yet.
fn new_package(alloc: Global, name: &Text) -> Result<Package, NoMemory>
    ensures { IfOk result (λ «package». «package» ≡ new_package name.now) }
{
    Ok(Package {
        name: name.copy(alloc)?,
        nicknames: Rows::new(alloc),
        uses: Rows::new(alloc),
        own: Own::new(alloc),
    })
}

impl Packages {
    /// The places of the packages that these texts name.
    fn places_named(&self, texts: &[Text]) -> Result<Rows<usize>, NameFault>
        ensures ok { IfOk result (λ places. places_named self.now texts.now ≡ Ok places) }
        ensures err { IfErr result (λ why. IsCause why (places_named self.now texts.now)) }
    {
        let mut places = Rows::new(self.alloc());
        for text in texts {
            match self.current(text) {
                Ok(place) => places.push(place)?,
                Err(fault) => return Err(fault),
            }
        }
        Ok(places)
    }

    /// Lets the package at a place use another, last in order of use, where it doesn't yet.
    fn add_new_use(&mut self, place: usize, used: usize) -> Result<(), NoMemory>
        requires { place < length self.old }
        ensures ok { OnOk result (self.new ≡ with_use self.old place used) }
        ensures undone { IsUndone place self.old self.new }
    {
        if self.get(place).does_use(used) {
            return Ok(());
        }
        self.add_use(place, used)?;
        Ok(())
    }

    fn add_uses(&mut self, place: usize, places: &[usize]) -> Result<(), NoMemory>
        requires { place < length self.old }
        ensures ok { OnOk result (self.new ≡ with_used self.old place places.now) }
        ensures undone { IsUndone place self.old self.new }
    {
        for used in places {
            self.add_new_use(place, *used)?;
        }
        Ok(())
    }

    /// The symbol that a name is to have in the package at a place: the one that is accessible there, else a new one.
    fn symbol_to_export(&self, place: usize, name: &str) -> Result<Name, NameFault>
        requires { place < length self.now }
        ensures ok { IfOk result (λ symbol. symbol_to_export self.now place name.now ≡ Ok symbol) }
        ensures err { IfErr result (λ why. IsCause why (symbol_to_export self.now place name.now)) }
    {
        let alloc = self.alloc();
        if let Some(symbol) = self.accessible(place, name) {
            return Ok(symbol.share()?);
        }
        let home = &self.get(place).name;
        if home.as_str() == COMMON_LISP {
            return Err(NameFault::NotExternal(Text::of(alloc, name)?, home.copy(alloc)?));
        }
        Ok(new_entry(alloc, home, name)?.symbol)
    }

    /// Makes the symbol of a name present in the package at a place, not yet external.
    fn make_present(&mut self, place: usize, name: &str) -> Result<(), NameFault>
        requires { place < length self.old }
        ensures ok { OnOk result (present_at self.old place name.now ≡ Ok self.new) }
        ensures err { IfErr result (λ why. IsCause why (present_at self.old place name.now)) }
        ensures undone { IsUndone place self.old self.new }
    {
        let symbol = self.symbol_to_export(place, name)?;
        let entry = Entry {
            symbol,
            external: false,
        };
        self.add(place, entry)?;
        Ok(())
    }

    fn make_all_present(&mut self, place: usize, names: &[Text]) -> Result<(), NameFault>
        requires { place < length self.old }
        ensures ok { OnOk result (all_present place names.now self.old ≡ Ok self.new) }
        ensures err { IfErr result (λ why. IsCause why (all_present place names.now self.old)) }
        ensures undone { IsUndone place self.old self.new }
    {
        for wanted in names {
            match self.make_present(place, wanted.as_str()) {
                Ok(()) => {}
                Err(fault) => return Err(fault),
            }
        }
        Ok(())
    }

    /// Whether an external symbol of one of these packages clashes in the one at a place.
    fn uses_clash(&self, place: usize, uses: &[usize]) -> bool
        ensures { result ≡ uses_clash self.now place uses.now }
    {
        for used in uses {
            if self.clashes_for_use(place, *used) {
                return true;
            }
        }
        false
    }

    /// Whether the symbol of a name, present in the package at a place and not yet external, clashes in a package that uses it.
    fn export_clashes(&self, place: usize, name: &str) -> bool
        ensures { result ≡ export_clashes self.now place name.now }
    {
        match self.own(place, name) {
            Some(entry) => !entry.external && self.clashes_for_users(place, &entry.symbol),
            None => false,
        }
    }

    fn exports_clash(&self, place: usize, names: &[Text]) -> bool
        ensures { result ≡ list_any (export_clashes self.now place) names.now }
    {
        for wanted in names {
            if self.export_clashes(place, wanted.as_str()) {
                return true;
            }
        }
        false
    }

    /// Whether the exports clash, or one of the uses behind the first ones.
    fn clashes_once_extended(&self, place: usize, first: usize, names: &[Text]) -> bool
        requires { place < length self.now }
        ensures { result ≡ (uses_clash self.now place (drop first (uses_at self.now place)) || list_any (export_clashes self.now place) names.now) }
    {
        let uses = self.get(place).uses.as_slice();
        let new = uses.get(first..).unwrap_or(&[]);
        self.uses_clash(place, new) || self.exports_clash(place, names)
    }

    /// Makes the symbols of these names, which are present in the package at a place, external.
    fn export_present(&mut self, place: usize, names: &[Text])
        ensures { self.new ≡ exported place names.now self.old }
    {
        for wanted in names {
            self.set_external(place, wanted.as_str());
        }
    }

    /// Adds the uses and exports, or stops somewhere on the way.
    fn extend_on(
        &mut self,
        place: usize,
        first: usize,
        places: &[usize],
        names: &[Text],
    ) -> Result<(), NameFault>
        requires within { place < length self.old }
        requires first { first ≡ length (uses_at self.old place) }
        ensures ok { OnOk result (extended self.old place places.now names.now ≡ Ok self.new) }
        ensures err { IfErr result (λ why. IsCause why (extended self.old place places.now names.now)) }
        ensures undone { OnErr result (IsUndone place self.old self.new) }
    {
        self.add_uses(place, places)?;
        match self.make_all_present(place, names) {
            Ok(()) => {}
            Err(fault) => return Err(fault),
        }
        if self.clashes_once_extended(place, first, names) {
            return Err(NameFault::Clash);
        }
        self.export_present(place, names);
        Ok(())
    }

    /// Adds the uses and exports that the package at a place lacks.
    fn extend(&mut self, place: usize, places: &[usize], names: &[Text]) -> Result<(), NameFault>
        requires { place < length self.old }
        ensures ok { OnOk result (extended self.old place places.now names.now ≡ Ok self.new) }
        ensures err { IfErr result (λ why. IsCause why (extended self.old place places.now names.now)) }
        ensures unchanged { OnErr result (self.new ≡ self.old) }
        ensures others { KeepsOthers (Some place) self.old self.new }
    {
        let uses = self.get(place).uses.len();
        let own = self.own_len(place);
        match self.extend_on(place, uses, places, names) {
            Ok(()) => Ok(()),
            Err(fault) => {
                self.cut(place, uses, own);
                Err(fault)
            }
        }
    }

    /// Makes a package of a new name with these uses and exports.
    fn make(&mut self, name: &Text, places: &[usize], names: &[Text]) -> Result<(), NameFault>
        requires { place_of self.old name.now ≡ None }
        ensures ok { OnOk result (extended (self.old ++ new_package name.now ∷ []) (length self.old) places.now names.now ≡ Ok self.new) }
        ensures err { IfErr result (λ why. IsCause why (extended (self.old ++ new_package name.now ∷ []) (length self.old) places.now names.now)) }
        ensures unchanged { OnErr result (self.new ≡ self.old) }
        ensures others { KeepsOthers (Some (length self.old)) self.old self.new }
    {
        let place = self.count();
        let package = new_package(self.alloc(), name)?;
        self.push(package)?;
        match self.extend(place, places, names) {
            Ok(()) => Ok(()),
            Err(fault) => {
                self.pop();
                Err(fault)
            }
        }
    }

    /// Makes the package of this name, or keeps the one that the name names, and adds the uses and exports that it lacks, in order.
    /// A name to be exported that names no symbol there names a new one.
    pub fn define_package(
        &mut self,
        name: &Text,
        uses: &[Text],
        exports: &[Text],
    ) -> Result<(), NameFault>
        ensures ok { OnOk result (defined self.old name.now uses.now exports.now ≡ Ok self.new) }
        ensures err { IfErr result (λ why. IsCause why (defined self.old name.now uses.now exports.now)) }
        ensures unchanged { OnErr result (self.new ≡ self.old) }
        ensures others { KeepsOthers (Some (place_in self.old name.now)) self.old self.new }
    {
        let places = self.places_named(uses)?;
        match self.place(name.as_str()) {
            Some(place) => self.extend(place, places.as_slice(), exports),
            None => self.make(name, places.as_slice(), exports),
        }
    }
}
