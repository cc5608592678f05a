ghost use Rattle.std.specs.Prelude.{◌≡◌, ◌<◌, Ok, Some, false, length, slice_get, IfOk, IfErr, OnOk, OnErr};
ghost use Rattle.std.specs.List.{list_any};
ghost use Rattle.std.specs.Option.{option_map_or};
ghost use Rattle.lisp_packages.specs.Causes.{IsCause};
ghost use Rattle.lisp_packages.specs.Changes.{intern_at, export_at, use_at, entry_clashes, KeepsOthers};
ghost use Rattle.lisp_packages.specs.Naming.{in_named};
ghost use Rattle.lisp_packages.specs.Packages.{place_of, own_at, clashes, clashes_for_user, clashes_for_users};

use crate::naming::new_entry;
use crate::{Entry, NameFault, Packages};
use lisp_data::{COMMON_LISP, KEYWORD, Name, Text};

impl Packages {
    /// Whether the package at a place has another symbol of this one's name.
    fn clashes(&self, place: usize, symbol: &Name) -> bool
        ensures { result ≡ clashes self.now place symbol.now }
    {
        match self.accessible(place, symbol.symbol().name.as_str()) {
            Some(there) => !there.symbol().same(symbol.symbol()),
            None => false,
        }
    }

    /// Whether the symbol clashes in one of the packages that use the one at a place.
    pub(crate) fn clashes_for_users(&self, place: usize, symbol: &Name) -> bool
        ensures { result ≡ clashes_for_users self.now place symbol.now }
    {
        for user in 0..self.count() {
            if self.clashes_for_user(place, symbol, user) {
                return true;
            }
        }
        false
    }

    /// Whether the package at the second place uses the one at the first, and the symbol clashes there.
    fn clashes_for_user(&self, place: usize, symbol: &Name, user: usize) -> bool
        requires { user < length self.now }
        ensures { result ≡ clashes_for_user self.now place symbol.now user }
    {
        self.get(user).does_use(place) && self.clashes(user, symbol)
    }

    /// The symbol that is accessible under this name in the package, else a new one. That of KEYWORD is external, and is refused
    /// where it would clash in a package that uses KEYWORD; COMMON-LISP gets no new symbol.
    pub fn intern(&mut self, package: &Text, name: &Text) -> Result<Name, NameFault>
        ensures ok { IfOk result (λ symbol. in_named self.old «package».now (λ i. intern_at self.old i name.now) ≡ Ok (self.new, symbol)) }
        ensures err { IfErr result (λ why. IsCause why (in_named self.old «package».now (λ i. intern_at self.old i name.now))) }
        ensures unchanged { OnErr result (self.new ≡ self.old) }
        ensures others { KeepsOthers (place_of self.old «package».now) self.old self.new }
    {
        let place = self.current(package)?;
        self.intern_at(place, name.as_str())
    }

    fn intern_at(&mut self, place: usize, name: &str) -> Result<Name, NameFault>
        requires { place < length self.old }
        ensures ok { IfOk result (λ symbol. intern_at self.old place name.now ≡ Ok (self.new, symbol)) }
        ensures err { IfErr result (λ why. IsCause why (intern_at self.old place name.now)) }
        ensures unchanged { OnErr result (self.new ≡ self.old) }
        ensures others { KeepsOthers (Some place) self.old self.new }
    {
        let alloc = self.alloc();
        if let Some(symbol) = self.accessible(place, name) {
            return Ok(symbol.share()?);
        }
        let home = &self.get(place).name;
        let entry = new_entry(alloc, home, name)?;
        if home.as_str() == KEYWORD && self.clashes_for_users(place, &entry.symbol) {
            return Err(NameFault::Clash);
        }
        if home.as_str() == COMMON_LISP {
            return Err(NameFault::NotExternal(Text::of(alloc, name)?, home.copy(alloc)?));
        }
        let symbol = entry.symbol.share()?;
        self.add(place, entry)?;
        Ok(symbol)
    }

    /// Makes the symbol external in the package, and present there.
    pub fn export(&mut self, package: &Text, symbol: &Name) -> Result<(), NameFault>
        ensures ok { OnOk result (in_named self.old «package».now (λ i. export_at self.old i symbol.now) ≡ Ok self.new) }
        ensures err { IfErr result (λ why. IsCause why (in_named self.old «package».now (λ i. export_at self.old i symbol.now))) }
        ensures unchanged { OnErr result (self.new ≡ self.old) }
        ensures others { KeepsOthers (place_of self.old «package».now) self.old self.new }
    {
        let place = self.current(package)?;
        self.export_at(place, symbol)
    }

    fn export_at(&mut self, place: usize, symbol: &Name) -> Result<(), NameFault>
        requires { place < length self.old }
        ensures ok { OnOk result (export_at self.old place symbol.now ≡ Ok self.new) }
        ensures err { IfErr result (λ why. IsCause why (export_at self.old place symbol.now)) }
        ensures unchanged { OnErr result (self.new ≡ self.old) }
        ensures others { KeepsOthers (Some place) self.old self.new }
    {
        if self.clashes(place, symbol) || self.clashes_for_users(place, symbol) {
            return Err(NameFault::Clash);
        }
        let entry = Entry {
            symbol: symbol.share()?,
            external: true,
        };
        self.put(place, entry)?;
        Ok(())
    }

    /// Whether the n-th symbol of the package at the second place is external and clashes in the one at the first.
    fn clashes_for_entry(&self, place: usize, used: usize, n: usize) -> bool
        ensures { result ≡ option_map_or (entry_clashes self.now place) (slice_get (own_at self.now used) n) false }
    {
        let Some(package) = self.at(used) else {
            return false;
        };
        match package.own.at(n) {
            Some(entry) => entry.external && self.clashes(place, &entry.symbol),
            None => false,
        }
    }

    /// Whether an external symbol of the package at the second place clashes in the one at the first.
    pub(crate) fn clashes_for_use(&self, place: usize, used: usize) -> bool
        ensures { result ≡ list_any (entry_clashes self.now place) (own_at self.now used) }
    {
        for n in 0..self.own_len(used) {
            if self.clashes_for_entry(place, used, n) {
                return true;
            }
        }
        false
    }

    /// How many symbols are present in the package at a place.
    pub(crate) fn own_len(&self, place: usize) -> usize
        ensures { result ≡ length (own_at self.now place) }
    {
        match self.at(place) {
            Some(package) => package.own.len(),
            None => 0,
        }
    }

    /// Lets the package use another, last in order of use. One that it uses already changes nothing.
    pub fn use_package(&mut self, package: &Text, used: &Text) -> Result<(), NameFault>
        ensures ok { OnOk result (in_named self.old «package».now (λ i. in_named self.old used.now (use_at self.old i)) ≡ Ok self.new) }
        ensures err { IfErr result (λ why. IsCause why (in_named self.old «package».now (λ i. in_named self.old used.now (use_at self.old i)))) }
        ensures unchanged { OnErr result (self.new ≡ self.old) }
        ensures others { KeepsOthers (place_of self.old «package».now) self.old self.new }
    {
        let place = self.current(package)?;
        let used = self.current(used)?;
        self.use_at(place, used)
    }

    fn use_at(&mut self, place: usize, used: usize) -> Result<(), NameFault>
        requires place { place < length self.old }
        requires used { used < length self.old }
        ensures ok { OnOk result (use_at self.old place used ≡ Ok self.new) }
        ensures err { IfErr result (λ why. IsCause why (use_at self.old place used)) }
        ensures unchanged { OnErr result (self.new ≡ self.old) }
        ensures others { KeepsOthers (Some place) self.old self.new }
    {
        if self.get(place).does_use(used) {
            return Ok(());
        }
        if self.clashes_for_use(place, used) {
            return Err(NameFault::Clash);
        }
        self.add_use(place, used)?;
        Ok(())
    }
}
