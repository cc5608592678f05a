ghost use Rattle.std.specs.Prelude.{◌≡◌, []};
ghost use Rattle.lisp_syntax.specs.Fits.{fitting_of};
ghost use Rattle.lisp_syntax.specs.Rows.{fitting};

use lisp_data::{NoMemory, Rows, Value};
use std::alloc::Global;
use syntax_trees::Row;

/// Why a value is no such part of a form.
#[derive(Clone, Copy)]
pub enum Misfit {
    NoRow,
    NoMemory,
}

impl From<NoMemory> for Misfit {
    ghost use Rattle.std.specs.Prelude.{◌≡◌};
    ghost use Rattle.lisp_syntax.specs.declared.fit.Misfit.TheVariants as misfit;

    ghost from_gives = { λ _ e. e ≡ misfit.NoMemory };

    fn from(_none: NoMemory) -> Misfit {
        Misfit::NoMemory
    }
}

/// The row that a form fits, and the subforms, which the form lends.
#[derive(Drop)]
pub struct Fit<'a> {
    pub row: Row,
    /// The subforms before the body. None stands for a NIL that isn't written.
    pub lead: Rows<Option<&'a Value>>,
    pub body: &'a [Value],
}

/// A row whose subforms are the body alone.
pub fn body<'a>(alloc: Global, row: Row, body: &'a [Value]) -> Fit<'a>
    ensures { fitting_of result ≡ fitting row [] body.entry.now }
{
    Fit {
        row,
        lead: Rows::new(alloc),
        body,
    }
}
