//! The rows of the syntax: one reader a row, each of which reads a form one level deep.

ghost use Rattle.lisp_syntax.specs.Fits.{FindsAs, fitting_of};
ghost use Rattle.lisp_syntax.specs.Operators.{operator_of};
ghost use Rattle.lisp_syntax.specs.Table as table;
ghost use Rattle.syntax_trees.specs.declared.row.Row.TheVariants as row;

use crate::clauses::{are_bare, cond_clause, handler_clause, restart_clause};
use crate::fit::{Fit, Misfit, body};
use crate::items::{assignments, bindings, forms, handlers, options};
use crate::operator::{Operator, operator_of};
use crate::parameters::parameters;
use crate::parts::{designator, list, string, symbol, variable};
use crate::shape::{is_count, may_follow, may_hold, split};
use crate::sort::Sort;
use crate::symbols::is_readable;
use lisp_data::{Boxed, Name, Rows, Value};
use std::alloc::Global;
use syntax_trees::{Bare, Holder, Named, Row};

/// `(OPERATOR E ..)`
fn bare_row<'a>(alloc: Global, bare: Bare, parts: &'a [Value]) -> Result<Fit<'a>, Misfit>
    ensures { FindsAs fitting_of result (table.bare_row bare parts.now) }
{
    if !is_count(bare, parts.len()) {
        return Err(Misfit::NoRow);
    }
    let (lead, body) = split(bare, parts);
    are_bare(alloc, bare, body)?;
    Ok(Fit {
        row: Row::Bare(bare),
        lead: forms(alloc, lead)?,
        body,
    })
}

/// `(quote X)`
fn quote_row(alloc: Global, parts: &[Value]) -> Result<Fit, Misfit>
    ensures { FindsAs fitting_of result (table.quote_row parts.now) }
{
    let [value] = parts else {
        return Err(Misfit::NoRow);
    };
    Ok(body(alloc, Row::Quote(value.copy(alloc)?), &[]))
}

/// `(function F)`
fn function_row(alloc: Global, parts: &[Value]) -> Result<Fit, Misfit>
    ensures { FindsAs fitting_of result (table.function_row parts.now) }
{
    let [name] = parts else {
        return Err(Misfit::NoRow);
    };
    Ok(body(alloc, Row::Function(symbol(alloc, name)?), &[]))
}

/// `(block N body)`, `(return-from N [E])`
fn named_row<'a>(alloc: Global, named: Named, parts: &'a [Value]) -> Result<Fit<'a>, Misfit>
    ensures { FindsAs fitting_of result (table.named_row named parts.now) }
{
    let [name, forms @ ..] = parts else {
        return Err(Misfit::NoRow);
    };
    if !may_follow(named, forms) {
        return Err(Misfit::NoRow);
    }
    Ok(body(alloc, Row::Named(named, symbol(alloc, name)?), forms))
}

/// `(dotimes (V E) body)` and `(dolist (V E) body)`
fn counter_row<'a>(alloc: Global, holder: Holder, parts: &'a [Value]) -> Result<Fit<'a>, Misfit>
    ensures { FindsAs fitting_of result (table.counter_row holder parts.now) }
{
    let [counter, body @ ..] = parts else {
        return Err(Misfit::NoRow);
    };
    let [name, form] = list(counter)? else {
        return Err(Misfit::NoRow);
    };
    let row = Row::Held(holder, variable(name)?);
    let mut lead = Rows::new(alloc);
    lead.push(Some(form))?;
    Ok(Fit { row, lead, body })
}

/// `(defvar V [E])` and `(defparameter V E)`
fn declared_row<'a>(alloc: Global, holder: Holder, parts: &'a [Value]) -> Result<Fit<'a>, Misfit>
    ensures { FindsAs fitting_of result (table.declared_row holder parts.now) }
{
    let [name, forms @ ..] = parts else {
        return Err(Misfit::NoRow);
    };
    if !may_hold(holder, forms) {
        return Err(Misfit::NoRow);
    }
    Ok(body(alloc, Row::Held(holder, variable(name)?), forms))
}

fn held_row<'a>(alloc: Global, holder: Holder, parts: &'a [Value]) -> Result<Fit<'a>, Misfit>
    ensures { FindsAs fitting_of result (table.held_row holder parts.now) }
{
    match holder {
        Holder::DoTimes | Holder::DoList => counter_row(alloc, holder, parts),
        Holder::Defvar | Holder::Defparameter => declared_row(alloc, holder, parts),
    }
}

/// `(let (B..) body)`
fn let_row(alloc: Global, parts: &[Value]) -> Result<Fit, Misfit>
    ensures { FindsAs fitting_of result (table.let_row row.Let parts.now) }
{
    let [items, body @ ..] = parts else {
        return Err(Misfit::NoRow);
    };
    let (bindings, lead) = bindings(alloc, list(items)?)?;
    let row = Row::Let(bindings);
    Ok(Fit { row, lead, body })
}

/// `(let* (B..) body)`
fn let_star_row(alloc: Global, parts: &[Value]) -> Result<Fit, Misfit>
    ensures { FindsAs fitting_of result (table.let_row row.LetStar parts.now) }
{
    let [items, body @ ..] = parts else {
        return Err(Misfit::NoRow);
    };
    let (bindings, lead) = bindings(alloc, list(items)?)?;
    let row = Row::LetStar(bindings);
    Ok(Fit { row, lead, body })
}

/// `(setq V E ..)`
fn setq_row(alloc: Global, parts: &[Value]) -> Result<Fit, Misfit>
    ensures { FindsAs fitting_of result (table.setq_row parts.now) }
{
    let (variables, lead) = assignments(alloc, parts)?;
    Ok(Fit {
        row: Row::Setq(variables),
        lead,
        body: &[],
    })
}

/// `(defun F (P..) body)`
fn defun_row(alloc: Global, parts: &[Value]) -> Result<Fit, Misfit>
    ensures { FindsAs fitting_of result (table.defun_row parts.now) }
{
    let [name, items, forms @ ..] = parts else {
        return Err(Misfit::NoRow);
    };
    let name = variable(name)?;
    let parameters = Boxed::new(alloc, parameters(alloc, list(items)?)?)?;
    Ok(body(alloc, Row::Defun { name, parameters }, forms))
}

/// `(handler-bind ((TYPE E)..) body)`
fn handler_bind_row(alloc: Global, parts: &[Value]) -> Result<Fit, Misfit>
    ensures { FindsAs fitting_of result (table.handler_bind_row parts.now) }
{
    let [items, body @ ..] = parts else {
        return Err(Misfit::NoRow);
    };
    let (kinds, lead) = handlers(alloc, list(items)?)?;
    let row = Row::HandlerBind(kinds);
    Ok(Fit { row, lead, body })
}

/// `(with-simple-restart (N CONTROL ARG..) body)`
fn with_simple_restart_row(alloc: Global, parts: &[Value]) -> Result<Fit, Misfit>
    ensures { FindsAs fitting_of result (table.with_simple_restart_row parts.now) }
{
    let [control, body @ ..] = parts else {
        return Err(Misfit::NoRow);
    };
    let [name, text, arguments @ ..] = list(control)? else {
        return Err(Misfit::NoRow);
    };
    let row = Row::WithSimpleRestart {
        name: symbol(alloc, name)?,
        control: Boxed::new(alloc, string(alloc, text)?)?,
        arguments: arguments.len(),
    };
    let lead = forms(alloc, arguments)?;
    Ok(Fit { row, lead, body })
}

/// `(in-package P)`
fn in_package_row(alloc: Global, parts: &[Value]) -> Result<Fit, Misfit>
    ensures { FindsAs fitting_of result (table.in_package_row parts.now) }
{
    let [name] = parts else {
        return Err(Misfit::NoRow);
    };
    let name = Boxed::new(alloc, designator(alloc, name)?)?;
    Ok(body(alloc, Row::InPackage(name), &[]))
}

/// `(defpackage P [(:use P..)] [(:export P..)])`
fn defpackage_row(alloc: Global, parts: &[Value]) -> Result<Fit, Misfit>
    ensures { FindsAs fitting_of result (table.defpackage_row parts.now) }
{
    let [name, values @ ..] = parts else {
        return Err(Misfit::NoRow);
    };
    let name = Boxed::new(alloc, designator(alloc, name)?)?;
    let (uses, exports) = options(alloc, values)?;
    let row = Row::Defpackage {
        name,
        uses: Boxed::new(alloc, uses)?,
        exports: Boxed::new(alloc, exports)?,
    };
    Ok(body(alloc, row, &[]))
}

/// The row of an operator's form with these parts.
fn operation_row<'a>(
    alloc: Global,
    operator: Operator,
    parts: &'a [Value],
) -> Result<Fit<'a>, Misfit>
    ensures { FindsAs fitting_of result (table.operation_row operator parts.now) }
{
    match operator {
        Operator::Quote => quote_row(alloc, parts),
        Operator::Function => function_row(alloc, parts),
        Operator::Bare(bare) => bare_row(alloc, bare, parts),
        Operator::Block => named_row(alloc, Named::Block, parts),
        Operator::ReturnFrom => named_row(alloc, Named::ReturnFrom, parts),
        Operator::Held(holder) => held_row(alloc, holder, parts),
        Operator::Let => let_row(alloc, parts),
        Operator::LetStar => let_star_row(alloc, parts),
        Operator::Setq => setq_row(alloc, parts),
        Operator::Defun => defun_row(alloc, parts),
        Operator::HandlerBind => handler_bind_row(alloc, parts),
        Operator::WithSimpleRestart => with_simple_restart_row(alloc, parts),
        Operator::InPackage => in_package_row(alloc, parts),
        Operator::Defpackage => defpackage_row(alloc, parts),
    }
}

/// The row of a form that the symbol heads: an operator's, or a call of any other symbol.
fn headed_row<'a>(alloc: Global, head: Name, parts: &'a [Value]) -> Result<Fit<'a>, Misfit>
    ensures { FindsAs fitting_of result (table.symbol_row head (operator_of head) parts.now) }
{
    match operator_of(head.symbol()) {
        None => Ok(body(alloc, Row::Named(Named::Call, head), parts)),
        Some(operator) => operation_row(alloc, operator, parts),
    }
}

/// The row of a symbol: a keyword and T stand for themselves, and a variable is one that may be read.
fn name_row<'a>(alloc: Global, form: &Value, name: &Name) -> Result<Fit<'a>, Misfit>
    ensures { FindsAs fitting_of result (table.name_row form.now name.now) }
{
    let symbol = name.symbol();
    if symbol.is_keyword() || symbol.is_standard("T") {
        return Ok(body(alloc, Row::Literal(form.copy(alloc)?), &[]));
    }
    if is_readable(symbol) {
        return Ok(body(alloc, Row::Variable(name.share()?), &[]));
    }
    Err(Misfit::NoRow)
}

fn form_row(alloc: Global, form: &Value) -> Result<Fit, Misfit>
    ensures { FindsAs fitting_of result (table.form_row form.now) }
{
    match form {
        Value::Sym(name) => name_row(alloc, form, name),
        Value::List(items) => match items.as_slice() {
            [] => Ok(body(alloc, Row::Literal(Value::nil(alloc)), &[])),
            [head, parts @ ..] => headed_row(alloc, symbol(alloc, head)?, parts),
        },
        _ => Ok(body(alloc, Row::Literal(form.copy(alloc)?), &[])),
    }
}

/// The row of a value that is read as a form or as a clause.
#[tactic(auto, unfolding(crate::specs::Table::row_of))]
pub fn row_of(alloc: Global, sort: Sort, value: &Value) -> Result<Fit, Misfit>
    ensures { FindsAs fitting_of result (table.row_of sort value.now) }
{
    match sort {
        Sort::Form => form_row(alloc, value),
        Sort::CondClause => cond_clause(alloc, value),
        Sort::HandlerClause => handler_clause(alloc, value),
        Sort::RestartClause => restart_clause(alloc, value),
    }
}
