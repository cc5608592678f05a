ghost use Rattle.std.specs.Prelude.{◌≡◌, ◌↔◌, IsTrue, IfOk};
ghost use Rattle.lisp_data.specs.Same.{same_symbol};
ghost use Rattle.lisp_data.specs.Symbols.{cl, is_keyword, is_nil, is_of_common_lisp, keyword, names};

use crate::{NoMemory, Text};
use std::alloc::Global;

/// The home of the symbols that the language itself gives a meaning.
pub const COMMON_LISP: &str = "COMMON-LISP";

/// The home of the keywords.
pub const KEYWORD: &str = "KEYWORD";

/// A symbol: the full name of its home package, and its own name. Two symbols are the same where both agree.
pub struct Symbol {
    pub home: Text,
    pub name: Text,
}

impl Drop for Symbol {
    fn drop(self) {
        let Symbol { home: _, name: _ } = self;
    }
}

impl Symbol {
    /// The symbol of COMMON-LISP with this name.
    pub fn common_lisp(alloc: Global, name: &str) -> Result<Symbol, NoMemory>
        ensures { IfOk result (λ symbol. symbol ≡ cl name.now) }
    {
        Ok(Symbol {
            home: Text::of(alloc, COMMON_LISP)?,
            name: Text::of(alloc, name)?,
        })
    }

    /// The keyword with this name.
    pub fn keyword(alloc: Global, name: &str) -> Result<Symbol, NoMemory>
        ensures { IfOk result (λ symbol. symbol ≡ keyword name.now) }
    {
        Ok(Symbol {
            home: Text::of(alloc, KEYWORD)?,
            name: Text::of(alloc, name)?,
        })
    }

    pub fn is_of_common_lisp(&self) -> bool
        ensures { result ≡ is_of_common_lisp self.now }
    {
        self.home.as_str() == COMMON_LISP
    }

    pub fn is_keyword(&self) -> bool
        ensures { result ≡ is_keyword self.now }
    {
        self.home.as_str() == KEYWORD
    }

    /// Whether this is the symbol of COMMON-LISP with this name.
    pub fn is_standard(&self, name: &str) -> bool
        ensures { result ≡ names self.now name.now }
    {
        self.is_of_common_lisp() && self.name.as_str() == name
    }

    /// Whether the symbol is NIL, which as a value is the empty list.
    pub fn is_nil(&self) -> bool
        ensures { result ≡ is_nil self.now }
    {
        self.is_standard("NIL")
    }

    pub fn same(&self, other: &Symbol) -> bool
        ensures value { result ≡ same_symbol self.now other.now }
        ensures law { IsTrue result ↔ (self.now ≡ other.now) }
    {
        self.home.as_str() == other.home.as_str() && self.name.as_str() == other.name.as_str()
    }

    pub fn copy(&self, alloc: Global) -> Result<Symbol, NoMemory>
        ensures { IfOk result (λ symbol. symbol ≡ self.now) }
    {
        Ok(Symbol {
            home: self.home.copy(alloc)?,
            name: self.name.copy(alloc)?,
        })
    }
}
