//! The clauses of `cond`, `handler-case` and `restart-case`, and what else the operators ask of their bodies.

ghost use Rattle.std.specs.Prelude.{◌≡◌, not, is_some};
ghost use Rattle.std.specs.List.{list_all};
ghost use Rattle.lisp_syntax.specs.Fits.{FindsAs, Passes, fitting_of};
ghost use Rattle.lisp_syntax.specs.Parts.{is_symbol};
ghost use Rattle.lisp_syntax.specs.Table as table;
ghost use Rattle.lisp_syntax.specs.Table.{are_bare};

use crate::fit::{Fit, Misfit, body};
use crate::items::{at_most_one, report, variables};
use crate::parts::{condition_type, is_symbol, list, restart_name};
use lisp_data::{Boxed, Value};
use std::alloc::Global;
use syntax_trees::{Bare, Row};

/// `(C body)`
#[tactic(auto, unfolding(crate::specs::Table::cond_clause_of))]
pub fn cond_clause(alloc: Global, value: &Value) -> Result<Fit, Misfit>
    ensures { FindsAs fitting_of result (table.cond_clause_of value.now) }
{
    let items = list(value)?;
    if items.is_empty() {
        return Err(Misfit::NoRow);
    }
    Ok(body(alloc, Row::CondClause, items))
}

/// `(TYPE ([V]) body)`
#[tactic(auto, unfolding(crate::specs::Table::handler_clause_of))]
pub fn handler_clause(alloc: Global, value: &Value) -> Result<Fit, Misfit>
    ensures { FindsAs fitting_of result (table.handler_clause_of value.now) }
{
    let [kind, variable, forms @ ..] = list(value)? else {
        return Err(Misfit::NoRow);
    };
    let kind = condition_type(kind)?;
    let variable = at_most_one(alloc, variable)?;
    Ok(body(alloc, Row::HandlerClause { kind, variable }, forms))
}

/// `(N (V..) [:report "TEXT"] body)`
#[tactic(auto, unfolding(crate::specs::Table::restart_clause_of))]
pub fn restart_clause(alloc: Global, value: &Value) -> Result<Fit, Misfit>
    ensures { FindsAs fitting_of result (table.restart_clause_of value.now) }
{
    let [name, parameters, forms @ ..] = list(value)? else {
        return Err(Misfit::NoRow);
    };
    let name = restart_name(name)?;
    let parameters = Boxed::new(alloc, variables(alloc, parameters)?)?;
    let (report, forms) = report(alloc, forms)?;
    Ok(body(
        alloc,
        Row::RestartClause {
            name,
            parameters,
            report,
        },
        forms,
    ))
}

/// Whether no form is a symbol.
fn are_compound(forms: &[Value]) -> bool
    ensures { result ≡ list_all (λ e. not (is_symbol e)) forms.now }
{
    let mut rest = forms;
    while let [form, more @ ..] = rest {
        if is_symbol(form) {
            return false;
        }
        rest = more;
    }
    true
}

/// Whether each value is a clause of `cond`. So below of the other clauses.
fn are_cond_clauses(alloc: Global, items: &[Value]) -> Result<(), Misfit>
    ensures { Passes result (list_all (λ c. is_some (table.cond_clause_of c)) items.now) }
{
    let mut rest = items;
    while let [item, more @ ..] = rest {
        cond_clause(alloc, item)?;
        rest = more;
    }
    Ok(())
}

fn are_handler_clauses(alloc: Global, items: &[Value]) -> Result<(), Misfit>
    ensures { Passes result (list_all (λ c. is_some (table.handler_clause_of c)) items.now) }
{
    let mut rest = items;
    while let [item, more @ ..] = rest {
        handler_clause(alloc, item)?;
        rest = more;
    }
    Ok(())
}

fn are_restart_clauses(alloc: Global, items: &[Value]) -> Result<(), Misfit>
    ensures { Passes result (list_all (λ c. is_some (table.restart_clause_of c)) items.now) }
{
    let mut rest = items;
    while let [item, more @ ..] = rest {
        restart_clause(alloc, item)?;
        rest = more;
    }
    Ok(())
}

/// Whether the body is what the operator asks of it.
pub fn are_bare(alloc: Global, bare: Bare, body: &[Value]) -> Result<(), Misfit>
    ensures { Passes result (are_bare bare body.now) }
{
    match bare {
        Bare::Loop if are_compound(body) => Ok(()),
        Bare::Loop => Err(Misfit::NoRow),
        Bare::Cond => are_cond_clauses(alloc, body),
        Bare::HandlerCase => are_handler_clauses(alloc, body),
        Bare::RestartCase => are_restart_clauses(alloc, body),
        _ => Ok(()),
    }
}
