ghost use Rattle.std.specs.Prelude.{◌≡◌, Ok, option_map, option_and_then, slice_get, IfOk, IfErr};
ghost use Rattle.std.specs.Option.{option_copied};
ghost use Rattle.lisp_packages.specs.Causes.{IsCause};
ghost use Rattle.lisp_packages.specs.Naming.{in_named};
ghost use Rattle.lisp_packages.specs.Packages.{place_of, name_at, uses_at, own_at, accessible, prompt_of};

use crate::{NameFault, Packages};
use lisp_data::{Name, Text};

impl Packages {
    /// A copy of the full name of the package that a text names, as `*PACKAGE*` holds it.
    pub fn in_package(&self, name: &Text) -> Result<Text, NameFault>
        ensures ok { IfOk result (λ full. in_named self.now name.now (λ i. Ok (name_at self.now i)) ≡ Ok full) }
        ensures err { IfErr result (λ why. IsCause why (in_named self.now name.now (λ i. Ok (name_at self.now i)))) }
    {
        let place = self.current(name)?;
        Ok(self.get(place).name.copy(self.alloc())?)
    }

    /// The full name of the package that a text names; None where it names none.
    pub fn find_package(&self, name: &Text) -> Option<&Text>
        ensures { option_copied result ≡ option_map (name_at self.now) (place_of self.now name.now) }
    {
        let place = self.place(name.as_str())?;
        Some(&self.get(place).name)
    }

    /// The symbol that is accessible under this name in the package; None where there is none, or no such package.
    pub fn find_symbol(&self, package: &Text, name: &Text) -> Option<&Name>
        ensures { option_copied result ≡ option_and_then (λ i. accessible self.now i name.now) (place_of self.now «package».now) }
    {
        let place = self.place(package.as_str())?;
        self.accessible(place, name.as_str())
    }

    /// The full name of the n-th package in order of making, from 0.
    pub fn package_at(&self, n: u64) -> Option<&Text>
        ensures { option_copied result ≡ option_map (λ p. p.name) (slice_get self.now n) }
    {
        Some(&self.at(n as usize)?.name)
    }

    /// What a prompt shows for the package: its first nickname, else its name.
    pub fn prompt(&self, package: &Text) -> Option<&Text>
        ensures { option_copied result ≡ option_map prompt_of (option_and_then (slice_get self.now) (place_of self.now «package».now)) }
    {
        let place = self.place(package.as_str())?;
        let package = self.get(place);
        match package.nicknames.as_slice() {
            [nickname, ..] => Some(nickname),
            [] => Some(&package.name),
        }
    }

    /// The n-th symbol present in the package, in order of interning, from 0, and whether it is external.
    pub fn own_at(&self, package: &Text, n: u64) -> Option<(&Name, bool)>
        ensures symbol { option_map (λ found. found.0.now) result ≡ option_map (λ entry. entry.symbol) (option_and_then (λ i. slice_get (own_at self.now i) n) (place_of self.now «package».now)) }
        ensures external { option_map (λ found. found.1) result ≡ option_map (λ entry. entry.external) (option_and_then (λ i. slice_get (own_at self.now i) n) (place_of self.now «package».now)) }
    {
        let place = self.place(package.as_str())?;
        let entry = self.get(place).own.at(n as usize)?;
        Some((&entry.symbol, entry.external))
    }

    /// The full name of the n-th package that this one uses, in order of use, from 0.
    pub fn used_at(&self, package: &Text, n: u64) -> Option<&Text>
        ensures { option_copied result ≡ option_and_then (λ used. option_map (λ p. p.name) (slice_get self.now used)) (option_and_then (λ i. slice_get (uses_at self.now i) n) (place_of self.now «package».now)) }
    {
        let place = self.place(package.as_str())?;
        let used = *self.get(place).uses.as_slice().get(n as usize)?;
        Some(&self.at(used)?.name)
    }
}
