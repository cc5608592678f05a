use lisp_data::{Condition, NoMemory};

/// Why a call has no value.
#[derive(Drop)]
pub enum BuiltinFault {
    /// The function raises this condition.
    Raised(Condition),
    NoMemory,
}

impl From<NoMemory> for BuiltinFault {
    ghost use Rattle.std.specs.Prelude.{◌≡◌};
    ghost use Rattle.lisp_builtins.specs.declared.fault.BuiltinFault.TheVariants.{NoMemory};

    ghost from_gives = { λ _ fault. fault ≡ NoMemory };

    fn from(_none: NoMemory) -> BuiltinFault {
        BuiltinFault::NoMemory
    }
}
