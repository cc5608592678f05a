use lisp_data::NoMemory;

/// Why a control text gives no text. The first place from the left decides, and the length only where no place has a fault.
#[derive(Clone, Copy, Debug, PartialEq, Eq)]
pub enum FormatFault {
    /// A tilde before a character that is no directive, or at the end.
    BadDirective,
    /// A directive that no argument is left for.
    TooFewArguments,
    /// A text that weighs more than a value may.
    TooLong,
    /// Want of memory.
    NoMemory,
}

impl From<NoMemory> for FormatFault {
    ghost use Rattle.std.specs.Prelude.{◌≡◌};
    ghost use Rattle.lisp_format.specs.declared.fault.FormatFault.TheVariants.{NoMemory};

    ghost from_gives = { λ _ fault. fault ≡ NoMemory };

    fn from(_none: NoMemory) -> FormatFault {
        FormatFault::NoMemory
    }
}
