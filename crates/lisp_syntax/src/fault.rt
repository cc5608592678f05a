use lisp_data::{NoMemory, Value};

/// Why a form has no tree.
#[derive(Drop)]
pub enum ParseFault {
    /// No row of the syntax fits this subform, which is the first such one in preorder.
    Syntax(Value),
    NoMemory,
}

impl From<NoMemory> for ParseFault {
    ghost use Rattle.std.specs.Prelude.{◌≡◌};
    ghost use Rattle.lisp_syntax.specs.declared.fault.ParseFault.TheVariants as fault;

    ghost from_gives = { λ _ e. e ≡ fault.NoMemory };

    fn from(_fault: NoMemory) -> ParseFault {
        ParseFault::NoMemory
    }
}
