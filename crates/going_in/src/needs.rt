ghost use Rattle.std.specs.Prelude.{◌≡◌, IfOk};
ghost use Rattle.syntax_trees.specs.Places.{row_of};
ghost use Rattle.term_model.specs.GoingIn.{needs, needs_bare, needs_held, needs_named, value_in};
ghost use Rattle.term_model.specs.Progress.{row_in};

use lisp_data::{NoMemory, Value};
use std::alloc::Global;
use syntax_trees::{Ast, Bare, Code, Holder, Named, Row};

fn needs_bare(row: Bare, forms: usize) -> usize
    ensures { result ≡ needs_bare row forms }
{
    match row {
        Bare::If | Bare::When | Bare::Unless | Bare::Catch => 1,
        Bare::Throw => 2,
        Bare::And | Bare::Or | Bare::Progn | Bare::Return => forms.min(1),
        Bare::Cond | Bare::Loop | Bare::UnwindProtect => 0,
        Bare::HandlerCase | Bare::IgnoreErrors | Bare::RestartCase => 0,
    }
}

fn needs_named(row: Named, forms: usize) -> usize
    ensures { result ≡ needs_named row forms }
{
    match row {
        Named::Block => 0,
        Named::ReturnFrom => forms.min(1),
        Named::Call => forms,
    }
}

fn needs_held(row: Holder) -> usize
    ensures { result ≡ needs_held row }
{
    match row {
        Holder::DoTimes | Holder::DoList | Holder::Defvar => 0,
        Holder::Defparameter => 1,
    }
}

/// How many of its subforms a row evaluates before its own step.
pub(crate) fn needs(row: &Row, forms: usize) -> usize
    ensures { result ≡ needs row.now forms }
{
    match row {
        Row::Bare(row) => needs_bare(*row, forms),
        Row::Named(row, _) => needs_named(*row, forms),
        Row::Held(row, _) => needs_held(*row),
        Row::Let(bindings) => bindings.len(),
        Row::LetStar(bindings) => bindings.len().min(1),
        Row::Setq(_) => forms.min(1),
        Row::HandlerBind(kinds) => kinds.len(),
        Row::WithSimpleRestart { arguments, .. } => *arguments,
        _ => 0,
    }
}

/// The same of a node; None stands for a body, which runs as `progn` does.
pub(crate) fn needs_in(node: &Option<Code>, forms: usize) -> usize
    ensures { result ≡ needs (row_in node.now) forms }
{
    match node {
        Some(node) => needs(&node.get().row, forms),
        None => forms.min(1),
    }
}

/// The value that a form is without evaluation: a literal, a quoted form, or a function's name.
pub(crate) fn value_in(alloc: Global, form: &Ast) -> Result<Option<Value>, NoMemory>
    ensures { IfOk result (λ value. value ≡ value_in form.now) }
{
    match &form.row {
        Row::Literal(value) | Row::Quote(value) => Ok(Some(value.copy(alloc)?)),
        Row::Function(name) => Ok(Some(Value::symbol(alloc, name.share()?))),
        _ => Ok(None),
    }
}
