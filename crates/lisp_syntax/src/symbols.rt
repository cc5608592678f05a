ghost use Rattle.std.specs.Prelude.{◌≡◌};
ghost use Rattle.lisp_syntax.specs.Symbols.{is_readable, is_variable};

use lisp_data::Symbol;

/// Whether a form may bind or declare the symbol.
pub fn is_variable(symbol: &Symbol) -> bool
    ensures { result ≡ is_variable symbol.now }
{
    !symbol.is_keyword() && !symbol.is_of_common_lisp()
}

/// Whether a form may read and assign the symbol.
pub fn is_readable(symbol: &Symbol) -> bool
    ensures { result ≡ is_readable symbol.now }
{
    is_variable(symbol) || symbol.is_standard("*PACKAGE*")
}
