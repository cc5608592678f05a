ghost use Rattle.std.specs.Prelude.{◌≡◌, [], ◌∷◌, drop, length, ◌↔◌, IsTrue, IfOk, MatchOption};

use crate::{Ast, Code};
use lisp_data::{NoMemory, Rows, Shared};
use std::marker::Model;

/// The forms of a shared row from a place on, which contracts see as the list of them.
pub struct Forms {
    row: Shared<Rows<Ast>>,
    at: usize,
}

impl Model for Forms {
    ghost use Rattle.std.specs.Coded.{coded_list};
    ghost use Rattle.std.specs.Prelude.{List, drop, length, ◌≤◌};
    ghost use Rattle.syntax_trees.specs.contracts.ast.Ast as ast;
    ghost use Rattle.syntax_trees.specs.declared.ast.Ast.{Ast};

    ghost Value = { List Ast };

    ghost coded = { coded_list ast.the_row.coded };

    ghost view = { λ f. drop f.at f.row };

    ghost invariant = { λ f. f.at ≤ length f.row };
}

impl Drop for Forms {
    fn drop(self) {
        let Forms { row: _, at: _ } = self;
    }
}

impl Forms {
    /// All forms of a row.
    pub fn of(row: Shared<Rows<Ast>>) -> Forms
        ensures { result ≡ row }
    {
        Forms { row, at: 0 }
    }

    /// The forms that are left.
    pub fn as_slice(&self) -> &[Ast]
        ensures { result.now ≡ self.now }
    {
        &self.row.get().as_slice()[self.at..]
    }

    pub fn len(&self) -> usize
        ensures { result ≡ length self.now }
    {
        self.row.get().len() - self.at
    }

    pub fn is_empty(&self) -> bool
        ensures { IsTrue result ↔ (self.now ≡ []) }
    {
        self.len() == 0
    }

    /// The first form that is left, None where none is.
    pub fn first(&self) -> Result<Option<Code>, NoMemory>
        ensures { IfOk result (λ first. MatchOption first (self.now ≡ []) (λ form. self.now ≡ form ∷ drop 1 self.now)) }
    {
        if self.is_empty() {
            return Ok(None);
        }
        Ok(Some(Code::of(self.row.share()?, self.at)))
    }

    /// The forms after the first.
    pub fn rest(self) -> Forms
        ensures { result ≡ drop 1 self }
    {
        let Forms { row, at } = self;
        if at < row.get().len() {
            Forms { row, at: at + 1 }
        } else {
            Forms { row, at }
        }
    }

    /// One more owner of the row, at the same place.
    pub fn share(&self) -> Result<Forms, NoMemory>
        ensures { IfOk result (λ other. other ≡ self.now) }
    {
        Ok(Forms {
            row: self.row.share()?,
            at: self.at,
        })
    }
}
