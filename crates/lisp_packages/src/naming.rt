ghost use Rattle.std.specs.Prelude.{◌≡◌, ◌<◌, ◌++◌, [], ◌∷◌, Option, None, Some, Ok, true, false, length, slice_get, option_map, IfOk, IfErr, OnOk, OnErr};
ghost use Rattle.std.specs.Str.{bytes_eq};
ghost use Rattle.lisp_data.specs.Symbols.{common_lisp, keyword_package};
ghost use Rattle.lisp_packages.specs.Causes.{IsCause, IsFault};
ghost use Rattle.lisp_packages.specs.declared.fault.NameFault.TheVariants.{NoPackage};
ghost use Rattle.lisp_packages.specs.Entries.{entry_of};
ghost use Rattle.lisp_packages.specs.Made.{has_made, with_made, with_made_at, undone};
ghost use Rattle.lisp_packages.specs.Naming.{Gives, new_entry, made_symbol, interned, keyword_named, external_named, in_named, qualified, prefixed, named, valued};
ghost use Rattle.lisp_packages.specs.Packages.{place_of, name_at, uses_at, own_at, external_at, inherited, accessible};

use crate::made::Made;
use crate::{Entry, NameFault, Packages};
use lisp_data::{COMMON_LISP, KEYWORD, Name, NoMemory, Pile, Rows, Sexp, Symbol, Text, Value};
use std::alloc::Global;

/// The entry of a symbol that is new in the package of this full name.
pub(crate) fn new_entry(alloc: Global, home: &Text, name: &str) -> Result<Entry, NoMemory>
    ensures { IfOk result (λ entry. entry ≡ new_entry home.now name.now) }
{
    let symbol = Symbol {
        home: home.copy(alloc)?,
        name: Text::of(alloc, name)?,
    };
    Ok(Entry {
        symbol: Name::new(alloc, symbol)?,
        external: home.as_str() == KEYWORD,
    })
}

impl Packages {
    /// The place of the package that a text names.
    pub(crate) fn current(&self, text: &Text) -> Result<usize, NameFault>
        ensures ok { IfOk result (λ place. place_of self.now text.now ≡ Some place) }
        ensures within { IfOk result (λ place. place < length self.now) }
        ensures none { OnErr result (place_of self.now text.now ≡ None) }
        ensures err { IfErr result (λ why. IsFault why (Some (NoPackage text.now))) }
    {
        match self.place(text.as_str()) {
            Some(place) => Ok(place),
            None => Err(NameFault::NoPackage(text.copy(self.alloc())?)),
        }
    }

    /// The entry of a name in the package at a place, once what is made is there.
    fn present(&self, made: &Made, place: usize, name: &str) -> Result<Option<Entry>, NoMemory>
        ensures { IfOk result (λ entry. entry ≡ entry_of (own_at (with_made self.now made.now) place) name.now) }
    {
        let alloc = self.alloc();
        let Some(package) = self.at(place) else {
            return Ok(None);
        };
        if let Some(entry) = package.own.get(name) {
            return Ok(Some(entry.share()?));
        }
        if !made.has(alloc, place, name)? {
            return Ok(None);
        }
        Ok(Some(new_entry(alloc, &package.name, name)?))
    }

    /// The external symbol of a name in the package at a place, once what is made is there.
    fn external_after(
        &self,
        made: &Made,
        place: usize,
        name: &str,
    ) -> Result<Option<Name>, NoMemory>
        ensures { IfOk result (λ symbol. symbol ≡ external_at (with_made self.now made.now) place name.now) }
    {
        match self.present(made, place, name)? {
            Some(entry) => Ok(if entry.external {
                Some(entry.symbol)
            } else {
                None
            }),
            None => Ok(None),
        }
    }

    fn inherited_after(
        &self,
        made: &Made,
        place: usize,
        name: &str,
    ) -> Result<Option<Name>, NoMemory>
        ensures { IfOk result (λ symbol. symbol ≡ inherited (with_made self.now made.now) (uses_at self.now place) name.now) }
    {
        let Some(package) = self.at(place) else {
            return Ok(None);
        };
        for used in package.uses.as_slice() {
            let found = self.external_after(made, *used, name)?;
            if found.is_some() {
                return Ok(found);
            }
        }
        Ok(None)
    }

    fn accessible_after(
        &self,
        made: &Made,
        place: usize,
        name: &str,
    ) -> Result<Option<Name>, NoMemory>
        ensures { IfOk result (λ symbol. symbol ≡ accessible (with_made self.now made.now) place name.now) }
    {
        if let Some(entry) = self.present(made, place, name)? {
            return Ok(Some(entry.symbol));
        }
        let found = self.inherited_after(made, place, name)?;
        Ok(found)
    }

    /// Makes a symbol of a name that is new in the package at a place.
    fn make_after(&self, made: &mut Made, place: usize, name: &str) -> Result<Name, NameFault>
        requires within { place < length self.now }
        requires new { entry_of (own_at (with_made self.now made.old) place) name.now ≡ None }
        ensures ok { IfOk result (λ symbol. made_symbol (with_made self.now made.old) place name.now ≡ Ok (with_made self.now made.new, symbol)) }
        ensures err { IfErr result (λ why. IsCause why (made_symbol (with_made self.now made.old) place name.now)) }
    {
        let alloc = self.alloc();
        let package = self.get(place);
        if package.name.as_str() == COMMON_LISP {
            return Err(NameFault::NotExternal(Text::of(alloc, name)?, package.name.copy(alloc)?));
        }
        let entry = new_entry(alloc, &package.name, name)?;
        made.add(alloc, place, name)?;
        Ok(entry.symbol)
    }

    fn interned_after(&self, made: &mut Made, place: usize, name: &str) -> Result<Name, NameFault>
        requires { place < length self.now }
        ensures ok { IfOk result (λ symbol. interned (with_made self.now made.old) place name.now ≡ Ok (with_made self.now made.new, symbol)) }
        ensures err { IfErr result (λ why. IsCause why (interned (with_made self.now made.old) place name.now)) }
    {
        match self.accessible_after(made, place, name)? {
            Some(symbol) => Ok(symbol),
            None => self.make_after(made, place, name),
        }
    }

    fn keyword_after(&self, made: &mut Made, place: usize, name: &str) -> Result<Name, NameFault>
        requires { place < length self.now }
        ensures ok { IfOk result (λ symbol. keyword_named (with_made self.now made.old) place name.now ≡ Ok (with_made self.now made.new, symbol)) }
        ensures err { IfErr result (λ why. IsCause why (keyword_named (with_made self.now made.old) place name.now)) }
    {
        match self.present(made, place, name)? {
            Some(entry) => Ok(entry.symbol),
            None => self.make_after(made, place, name),
        }
    }

    fn external_named_after(&self, made: &Made, place: usize, name: &str) -> Result<Name, NameFault>
        requires { place < length self.now }
        ensures ok { IfOk result (λ symbol. external_named (with_made self.now made.now) place name.now ≡ Ok (with_made self.now made.now, symbol)) }
        ensures err { IfErr result (λ why. IsCause why (external_named (with_made self.now made.now) place name.now)) }
    {
        match self.external_after(made, place, name)? {
            Some(symbol) => Ok(symbol),
            None => {
                let alloc = self.alloc();
                let name = Text::of(alloc, name)?;
                Err(NameFault::NotExternal(name, self.get(place).name.copy(alloc)?))
            }
        }
    }

    /// What stands after a package's name and a colon.
    fn qualified_after(&self, made: &mut Made, place: usize, rest: &str) -> Result<Name, NameFault>
        requires { place < length self.now }
        ensures ok { IfOk result (λ symbol. qualified (with_made self.now made.old) place rest.now ≡ Ok (with_made self.now made.new, symbol)) }
        ensures err { IfErr result (λ why. IsCause why (qualified (with_made self.now made.old) place rest.now)) }
    {
        match rest.split_once(':') {
            Some((before, name)) => {
                if before.is_empty() {
                    self.interned_after(made, place, name)
                } else {
                    self.external_named_after(made, place, rest)
                }
            }
            None => self.external_named_after(made, place, rest),
        }
    }

    /// A token that begins with a colon, without it.
    fn keyword_token(&self, made: &mut Made, name: &str) -> Result<Name, NameFault>
        ensures ok { IfOk result (λ symbol. prefixed (with_made self.now made.old) [] name.now ≡ Ok (with_made self.now made.new, symbol)) }
        ensures err { IfErr result (λ why. IsCause why (prefixed (with_made self.now made.old) [] name.now)) }
    {
        match self.place(KEYWORD) {
            Some(place) => self.keyword_after(made, place, name),
            None => Err(NameFault::NoPackage(Text::of(self.alloc(), KEYWORD)?)),
        }
    }

    /// A token with a package's name before its first colon.
    fn qualified_token(&self, made: &mut Made, prefix: &str, rest: &str) -> Result<Name, NameFault>
        ensures ok { IfOk result (λ symbol. in_named (with_made self.now made.old) prefix.now (λ i. qualified (with_made self.now made.old) i rest.now) ≡ Ok (with_made self.now made.new, symbol)) }
        ensures err { IfErr result (λ why. IsCause why (in_named (with_made self.now made.old) prefix.now (λ i. qualified (with_made self.now made.old) i rest.now))) }
    {
        match self.place(prefix) {
            Some(place) => self.qualified_after(made, place, rest),
            None => Err(NameFault::NoPackage(Text::of(self.alloc(), prefix)?)),
        }
    }

    fn prefixed_after(&self, made: &mut Made, prefix: &str, rest: &str) -> Result<Name, NameFault>
        ensures ok { IfOk result (λ symbol. prefixed (with_made self.now made.old) prefix.now rest.now ≡ Ok (with_made self.now made.new, symbol)) }
        ensures err { IfErr result (λ why. IsCause why (prefixed (with_made self.now made.old) prefix.now rest.now)) }
    {
        if prefix.is_empty() {
            self.keyword_token(made, rest)
        } else {
            self.qualified_token(made, prefix, rest)
        }
    }

    /// The symbol that a token names where the package at this place is current.
    fn named_after(&self, made: &mut Made, current: usize, token: &str) -> Result<Name, NameFault>
        requires { current < length self.now }
        ensures ok { IfOk result (λ symbol. named (with_made self.now made.old) current token.now ≡ Ok (with_made self.now made.new, symbol)) }
        ensures err { IfErr result (λ why. IsCause why (named (with_made self.now made.old) current token.now)) }
    {
        match token.split_once(':') {
            Some((prefix, rest)) => self.prefixed_after(made, prefix, rest),
            None => self.interned_after(made, current, token),
        }
    }

    /// The value of a form where the package at this place is current.
    fn valued_after(&self, made: &mut Made, current: usize, form: &Sexp) -> Result<Value, NameFault>
        requires { current < length self.now }
        ensures ok { IfOk result (λ value. valued current form.now (with_made self.now made.old) ≡ Ok (with_made self.now made.new, value)) }
        ensures err { IfErr result (λ why. IsCause why (valued current form.now (with_made self.now made.old))) }
    {
        let alloc = self.alloc();
        match form {
            Sexp::Int(number) => Ok(Value::Int(*number)),
            Sexp::Str(text) => Ok(Value::Str(text.copy(alloc)?)),
            Sexp::Sym(token) => match self.named_after(made, current, token.as_str()) {
                Ok(symbol) => Ok(Value::symbol(alloc, symbol)),
                Err(fault) => Err(fault),
            },
            Sexp::List(items) => {
                let mut values = Rows::new(alloc);
                for item in items.as_slice() {
                    match self.valued_after(made, current, item) {
                        Ok(value) => values.push(value)?,
                        Err(fault) => return Err(fault),
                    }
                }
                Ok(Value::List(values))
            }
        }
    }

    /// Makes the n-th of these symbols, and notes the place of its package where it is new there.
    fn commit_one(&mut self, made: &Made, n: usize, done: &mut Pile<usize>) -> Result<(), NoMemory>
        ensures ok { OnOk result (with_made_at self.old made.now n ≡ self.new) }
        ensures undone { undone done.new self.new ≡ undone done.old self.old }
    {
        let alloc = self.alloc();
        let Some(fresh) = made.at(n) else {
            return Ok(());
        };
        if fresh.place >= self.count() {
            return Ok(());
        }
        let home = &self.get(fresh.place).name;
        let entry = new_entry(alloc, home, fresh.name.as_str())?;
        done.push(fresh.place)?;
        let added = self.add(fresh.place, entry);
        if !matches!(added, Ok(true)) {
            done.pop();
        }
        added?;
        Ok(())
    }

    /// Takes back what was added at these places.
    fn undo(&mut self, done: &mut Pile<usize>)
        ensures { self.new ≡ undone done.old self.old }
    {
        while let Some(place) = done.pop() {
            self.drop_last(place);
        }
    }

    /// Makes all these symbols, or none.
    fn commit(&mut self, made: &Made) -> Result<(), NoMemory>
        ensures ok { OnOk result (self.new ≡ with_made self.old made.now) }
        ensures err { OnErr result (self.new ≡ self.old) }
    {
        let mut done = Pile::new(self.alloc());
        for n in 0..made.len() {
            match self.commit_one(made, n, &mut done) {
                Ok(()) => {}
                Err(fault) => {
                    self.undo(&mut done);
                    return Err(fault);
                }
            }
        }
        Ok(())
    }

    /// The symbol that a token names where this package is current. A token without a colon names the symbol that is accessible
    /// in the package, else a new one; `:x` the keyword; `p:x` an external symbol of P; `p::x` what `x` names in P.
    pub fn resolve(&mut self, package: &Text, token: &Text) -> Result<Name, NameFault>
        ensures ok { IfOk result (λ symbol. in_named self.old «package».now (λ i. named self.old i token.now) ≡ Ok (self.new, symbol)) }
        ensures err { IfErr result (λ why. IsCause why (in_named self.old «package».now (λ i. named self.old i token.now))) }
        ensures unchanged { OnErr result (self.new ≡ self.old) }
    {
        let current = self.current(package)?;
        let mut made = Made::new(self.alloc());
        let symbol = self.named_after(&mut made, current, token.as_str())?;
        self.commit(&made)?;
        Ok(symbol)
    }

    /// The value of a form where this package is current, with its tokens named from left to right. After a refusal none of its
    /// symbols is made.
    pub fn value_of(&mut self, package: &Text, form: &Sexp) -> Result<Value, NameFault>
        ensures ok { IfOk result (λ value. in_named self.old «package».now (λ i. valued i form.now self.old) ≡ Ok (self.new, value)) }
        ensures err { IfErr result (λ why. IsCause why (in_named self.old «package».now (λ i. valued i form.now self.old))) }
        ensures unchanged { OnErr result (self.new ≡ self.old) }
    {
        let current = self.current(package)?;
        let mut fresh = Made::new(self.alloc());
        let value = self.valued_after(&mut fresh, current, form)?;
        self.commit(&fresh)?;
        Ok(value)
    }

    /// What `value_of` would give. No symbol is made.
    pub fn look(&self, package: &Text, form: &Sexp) -> Result<Value, NameFault>
        ensures ok { IfOk result (λ value. Gives value (in_named self.now «package».now (λ i. valued i form.now self.now))) }
        ensures err { IfErr result (λ why. IsCause why (in_named self.now «package».now (λ i. valued i form.now self.now))) }
    {
        let current = self.current(package)?;
        let mut unmade = Made::new(self.alloc());
        self.valued_after(&mut unmade, current, form)
    }
}
