ghost use Rattle.std.specs.Prelude.{◌≡◌, ◌<◌, length, IfOk};
ghost use Rattle.syntax_trees.specs.Places.{form_at};

use crate::Ast;
use lisp_data::{NoMemory, Rows, Shared};
use std::alloc::Global;
use std::marker::Model;

/// A place of a shared row of forms, which contracts see as the form that stands there.
pub struct Code {
    row: Shared<Rows<Ast>>,
    at: usize,
}

impl Model for Code {
    ghost use Rattle.std.specs.Prelude.{length, ◌<◌};
    ghost use Rattle.syntax_trees.specs.Places.{form_at};
    ghost use Rattle.syntax_trees.specs.contracts.ast.Ast as ast;
    ghost use Rattle.syntax_trees.specs.declared.ast.Ast.{Ast};

    ghost Value = { Ast };

    ghost coded = { ast.the_row.coded };

    ghost view = { λ c. form_at c.at c.row };

    ghost invariant = { λ c. c.at < length c.row };
}

impl Drop for Code {
    fn drop(self) {
        let Code { row: _, at: _ } = self;
    }
}

impl Code {
    /// Puts a form where it can be shared. It is dropped where memory is wanting.
    pub fn new(alloc: Global, form: Ast) -> Result<Code, NoMemory>
        ensures { IfOk result (λ code. code ≡ form) }
    {
        let mut row = Rows::new(alloc);
        row.push(form)?;
        Ok(Code {
            row: Shared::new(alloc, row)?,
            at: 0,
        })
    }

    /// The form at a place of a row, counted from 0.
    pub fn of(row: Shared<Rows<Ast>>, at: usize) -> Code
        requires { at < length row }
        ensures { result ≡ form_at at row }
    {
        Code { row, at }
    }

    pub fn get(&self) -> &Ast
        ensures { result.now ≡ self.now }
    {
        &self.row.get().as_slice()[self.at]
    }

    /// One more owner of the row, at the same place.
    pub fn share(&self) -> Result<Code, NoMemory>
        ensures { IfOk result (λ other. other ≡ self.now) }
    {
        Ok(Code {
            row: self.row.share()?,
            at: self.at,
        })
    }
}
