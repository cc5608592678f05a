ghost use Rattle.std.specs.Prelude.{◌≡◌, ◌++◌, map, IfOk};
ghost use Rattle.lisp_syntax.specs.Parsing.{unparsed};
ghost use Rattle.lisp_syntax.specs.Rows.{fitted, form_of};

use crate::heads::head;
use crate::values::variable;
use lisp_data::{NoMemory, Pile, Rows, Value};
use std::alloc::Global;
use syntax_trees::{Ast, Row};

/// These items, and behind them the forms.
fn with_body(items: Rows<Value>, forms: Pile<Value>) -> Result<Rows<Value>, NoMemory>
    ensures { IfOk result (λ all. all ≡ items ++ forms) }
{
    let mut items = items;
    let mut forms = forms;
    while let Some(form) = forms.pop() {
        items.push(form)?;
    }
    Ok(items)
}

/// The form of a row with these subforms.
fn form_of(alloc: Global, row: &Row, forms: Rows<Value>) -> Result<Value, NoMemory>
    ensures { IfOk result (λ form. form ≡ form_of (fitted row.now forms)) }
{
    match row {
        Row::Literal(value) => value.copy(alloc),
        Row::Variable(name) => variable(name),
        _ => {
            let (items, rest) = head(alloc, row, Pile::of(forms))?;
            Ok(Value::List(with_body(items, rest)?))
        }
    }
}

/// The form that a tree stands for. It recurses once for each level of the tree.
#[cycle(unparse)]
pub fn unparse(alloc: Global, tree: &Ast) -> Result<Value, NoMemory>
    ensures { IfOk result (λ form. form ≡ unparsed tree.now) }
{
    let forms = forms_of(alloc, tree.forms.get().as_slice())?;
    form_of(alloc, &tree.row, forms)
}

#[cycle(unparse)]
fn forms_of(alloc: Global, trees: &[Ast]) -> Result<Rows<Value>, NoMemory>
    ensures { IfOk result (λ forms. forms ≡ map unparsed trees.now) }
{
    let mut forms = Rows::new(alloc);
    for tree in trees {
        forms.push(unparse(alloc, tree)?)?;
    }
    Ok(forms)
}
