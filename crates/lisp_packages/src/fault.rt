use lisp_data::{NoMemory, Text};

/// Why a name has no symbol, or why a package can't be changed.
#[derive(Drop)]
pub enum NameFault {
    /// No package has this name or nickname.
    NoPackage(Text),
    /// No external symbol has this name in the package of this full name; in COMMON-LISP, where no symbol is made, none at all.
    NotExternal(Text, Text),
    /// Two different symbols of one name would become accessible in one package.
    Clash,
    NoMemory,
}

impl From<NoMemory> for NameFault {
    ghost use Rattle.std.specs.Prelude.{◌≡◌};
    ghost use Rattle.lisp_packages.specs.declared.fault.NameFault.TheVariants.{NoMemory};

    ghost from_gives = { λ _ fault. fault ≡ NoMemory };

    fn from(_none: NoMemory) -> NameFault {
        NameFault::NoMemory
    }
}
