ghost use Rattle.std.specs.Prelude.{◌≡◌};
ghost use Rattle.sexp_reader.specs.Names.{fault_name};

use lisp_data::NoMemory;

/// Why a text is no form. The first place from the left decides.
#[derive(Clone, Copy, Debug, PartialEq, Eq)]
pub enum ReadFault {
    /// The text holds nothing but whitespace and comments.
    End,
    /// The text ends inside a list or a string, or after a quote mark.
    Unclosed,
    /// A `)` where no list is open, or right after a quote mark.
    StrayClose,
    /// A token that is neither an integer nor a symbol.
    BadToken,
    /// A list or a quote mark that would be the 501st open one.
    TooDeep,
    /// An integer outside the signed 64-bit range.
    NumberTooWide,
    /// Something other than whitespace and comments after the one form.
    TrailingText,
    /// Want of memory.
    NoMemory,
}

impl ReadFault {
    /// The name of a fault, by which clients and users are told of it.
    pub fn name(self) -> &'static str
        ensures { result.now ≡ fault_name self }
    {
        match self {
            ReadFault::End => "End",
            ReadFault::Unclosed => "Unclosed",
            ReadFault::StrayClose => "StrayClose",
            ReadFault::BadToken => "BadToken",
            ReadFault::TooDeep => "TooDeep",
            ReadFault::NumberTooWide => "NumberTooWide",
            ReadFault::TrailingText => "TrailingText",
            ReadFault::NoMemory => "NoMemory",
        }
    }
}

impl From<NoMemory> for ReadFault {
    ghost use Rattle.std.specs.Prelude.{◌≡◌};
    ghost use Rattle.sexp_reader.specs.declared.fault.ReadFault.TheVariants.{NoMemory};

    ghost from_gives = { λ _ fault. fault ≡ NoMemory };

    fn from(_none: NoMemory) -> ReadFault {
        ReadFault::NoMemory
    }
}
