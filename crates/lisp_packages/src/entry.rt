ghost use Rattle.std.specs.Prelude.{◌≡◌, IfOk};

use lisp_data::{Name, NoMemory};
use std::alloc::Global;

/// A symbol that is present in a package, and whether the package exports it.
#[derive(Drop)]
pub struct Entry {
    pub symbol: Name,
    pub external: bool,
}

impl Entry {
    /// Another owner of the symbol.
    pub fn share(&self) -> Result<Entry, NoMemory>
        ensures { IfOk result (λ entry. entry ≡ self.now) }
    {
        Ok(Entry {
            symbol: self.symbol.share()?,
            external: self.external,
        })
    }
}
