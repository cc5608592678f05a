ghost use Rattle.std.specs.Prelude.{◌≡◌, ◌≤◌, ◌-◌, [], length, IfOk, MatchOption};
ghost use Rattle.syntax_trees.specs.declared.row.Bare.TheVariants.{Progn};
ghost use Rattle.syntax_trees.specs.declared.row.Row.TheVariants.{Bare};
ghost use Rattle.term_model.specs.Progress.{begun, progress, row_in};

use lisp_data::{NoMemory, Rows, Value};
use std::alloc::Global;
use std::marker::Model;
use syntax_trees::{Ast, Code, Forms, Row};

/// A form of which parts are evaluated: its row, how many parts are taken, the values so far, and the forms that are left. A body is one too,
/// and is seen as a `progn`.
pub struct Partial {
    /// None of a body.
    node: Option<Code>,
    /// How many subforms there are in all; those that aren't left are done.
    parts: usize,
    values: Rows<Value>,
    rest: Forms,
}

impl Model for Partial {
    ghost use Rattle.lisp_data.specs.contracts.value.Value as value;
    ghost use Rattle.std.specs.Coded.{codes};
    ghost use Rattle.std.specs.Prelude.{◌-◌, ◌≤◌, length};
    ghost use Rattle.syntax_trees.specs.contracts.ast.Ast as ast;
    ghost use Rattle.term_model.specs.Progress.{Progress, progress, row_in};

    ghost Value = { Progress };

    ghost coded = { Prim.hlevel (codes, ast.the_row.coded, value.the_row.coded) };

    ghost view = { λ p. progress (row_in p.node) (p.parts - length p.rest) p.values p.rest };

    ghost invariant = { λ p. length p.rest ≤ p.parts };
}

impl Drop for Partial {
    fn drop(self) {
        let Partial {
            node: _,
            parts: _,
            values: _,
            rest: _,
        } = self;
    }
}

impl Partial {
    /// A form of which nothing is evaluated yet.
    pub fn of_form(alloc: Global, form: &Code) -> Result<Partial, NoMemory>
        ensures { IfOk result (λ partial. partial ≡ begun form.now) }
    {
        let rest = Forms::of(form.get().forms.share()?);
        Ok(Partial {
            node: Some(form.share()?),
            parts: rest.len(),
            values: Rows::new(alloc),
            rest,
        })
    }

    /// A body of which nothing is evaluated yet.
    pub fn of_body(alloc: Global, forms: Forms) -> Partial
        ensures { result ≡ progress (Bare Progn) 0 [] forms }
    {
        Partial {
            node: None,
            parts: forms.len(),
            values: Rows::new(alloc),
            rest: forms,
        }
    }

    /// The form, None of a body, how many subforms there are in all, the values so far, and the forms that are left.
    pub fn into_parts(self) -> (Option<Code>, usize, Rows<Value>, Forms)
        ensures whole { self ≡ progress (row_in result.0) (result.1 - length result.3) result.2 result.3 }
        ensures left { length result.3 ≤ result.1 }
    {
        let Partial {
            node,
            parts,
            values,
            rest,
        } = self;
        (node, parts, values, rest)
    }

    pub fn from_parts(node: Option<Code>, parts: usize, values: Rows<Value>, rest: Forms) -> Partial
        requires { length rest ≤ parts }
        ensures { result ≡ progress (row_in node) (parts - length rest) values rest }
    {
        Partial {
            node,
            parts,
            values,
            rest,
        }
    }

    /// The form's row, None of a body, which runs as `progn` does.
    pub fn row(&self) -> Option<&Row>
        ensures { MatchOption result (self.now.row ≡ Bare Progn) (λ row. self.now.row ≡ row.now) }
    {
        match &self.node {
            Some(node) => Some(&node.get().row),
            None => None,
        }
    }

    /// How many parts are taken.
    pub fn done(&self) -> usize
        ensures { result ≡ self.now.done }
    {
        self.parts - self.rest.len()
    }

    /// The values of the parts so far.
    pub fn values(&self) -> &[Value]
        ensures { result.now ≡ self.now.values }
    {
        self.values.as_slice()
    }

    /// The forms that are left.
    pub fn rest(&self) -> &[Ast]
        ensures { result.now ≡ self.now.rest }
    {
        self.rest.as_slice()
    }

    /// The forms that are left, to be kept.
    pub fn share_rest(&self) -> Result<Forms, NoMemory>
        ensures { IfOk result (λ forms. forms ≡ self.now.rest) }
    {
        self.rest.share()
    }
}
