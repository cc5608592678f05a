ghost use Rattle.std.specs.Prelude.{◌≡◌};
ghost use Rattle.lisp_errors.specs.Wanted.{wanted_name};

/// What an argument should have been.
#[derive(Clone, Copy, Debug, PartialEq, Eq)]
pub enum Wanted {
    List,
    Integer,
    String,
    Symbol,
    /// A place, or the end of a part, within a list or a string.
    Index,
    /// The name of a type.
    Type,
    /// A condition, or the name of a type of conditions.
    Condition,
}

/// The name that the message gives.
pub fn wanted_name(wanted: Wanted) -> &'static str
    ensures { result.now ≡ wanted_name wanted }
{
    match wanted {
        Wanted::List => "LIST",
        Wanted::Integer => "INTEGER",
        Wanted::String => "STRING",
        Wanted::Symbol => "SYMBOL",
        Wanted::Index => "INDEX",
        Wanted::Type => "TYPE",
        Wanted::Condition => "CONDITION",
    }
}
