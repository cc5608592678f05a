ghost use Rattle.std.specs.Prelude.{◌≡◌, ◌≤◌, ◌-◌, ◌∷◌, [], drop, length, IfOk, MatchOption};
ghost use Rattle.going_in.specs.Clauses.{has_clauses};
ghost use Rattle.syntax_trees.specs.Places.{forms_of, row_of};
ghost use Rattle.syntax_trees.specs.declared.row.Bare.TheVariants as bare;
ghost use Rattle.syntax_trees.specs.declared.row.Row.TheVariants as row;
ghost use Rattle.term_model.specs.GoingIn.{advanced, body, cond, continued, first_part, found, look, ready, tested};
ghost use Rattle.term_model.specs.Progress.{row_in};

use crate::needs::{needs, needs_in, value_in};
use lisp_data::{NoMemory, Rows, Value};
use std::alloc::Global;
use syntax_trees::{Ast, Bare, Code, Forms, Row};
use term_model::{Focus, Found, Partial};

/// Goes into so many of the parts that are left, until one is no value.
#[tactic(auto, using(crate::proofs::GoingLemmas::found_value, crate::proofs::GoingLemmas::found_form, crate::proofs::GoingLemmas::found_end, crate::proofs::GoingLemmas::found_none))]
fn found(
    alloc: Global,
    needed: usize,
    node: Option<Code>,
    parts: usize,
    values: Rows<Value>,
    rest: Forms,
) -> Result<Found, NoMemory>
    requires { length rest ≤ parts }
    ensures { IfOk result (λ met. met ≡ found needed (row_in node) (parts - length rest) values rest) }
{
    let (mut needed, mut values, mut rest) = (needed, values, rest);
    'parts: while needed > 0 {
        let Some(part) = rest.first()? else {
            break 'parts;
        };
        rest = rest.rest();
        match value_in(alloc, part.get())? {
            Some(value) => values.push(value)?,
            None => {
                return Ok(Found::Inside(Partial::from_parts(node, parts, values, rest), part));
            }
        }
        needed -= 1;
    }
    Ok(Found::Here(Focus::Form(Partial::from_parts(node, parts, values, rest))))
}

/// The same of the parts that are left of a form.
fn found_in(alloc: Global, needed: usize, partial: Partial) -> Result<Found, NoMemory>
    ensures { IfOk result (λ met. met ≡ found needed partial.row partial.done partial.values partial.rest) }
{
    let (node, parts, values, rest) = partial.into_parts();
    found(alloc, needed, node, parts, values, rest)
}

/// Whether the subforms are the clauses of `cond`.
fn has_clauses(row: &Row) -> bool
    ensures { result ≡ has_clauses row.now }
{
    match row {
        Row::Bare(Bare::Cond) => true,
        _ => false,
    }
}

/// Goes into the parts of a form that is no value.
#[tactic(auto, using(crate::proofs::GoingLemmas::first_clause, crate::proofs::GoingLemmas::first_of_others, crate::proofs::GoingLemmas::clauses_of_cond))]
fn first_part(alloc: Global, form: &Code) -> Result<Found, NoMemory>
    ensures { IfOk result (λ met. met ≡ first_part (row_of form.now) (forms_of form.now)) }
{
    let partial = Partial::of_form(alloc, form)?;
    let Ast { row, forms } = form.get();
    if has_clauses(row) {
        return cond(alloc, partial);
    }
    found_in(alloc, needs(row, forms.get().len()), partial)
}

/// What going into a form meets first: that it is a value, that it is a redex, or its next part to evaluate with the layer round that
/// part.
pub fn look(alloc: Global, form: &Code) -> Result<Found, NoMemory>
    ensures { IfOk result (λ met. met ≡ look form.now) }
{
    match value_in(alloc, form.get())? {
        Some(value) => Ok(Found::Already(value)),
        None => first_part(alloc, form),
    }
}

/// Goes on with the value of the part that the form waits for.
pub(crate) fn resume(alloc: Global, partial: Partial, value: Value) -> Result<Found, NoMemory>
    ensures { IfOk result (λ met. met ≡ continued partial value) }
{
    let (node, parts, mut values, rest) = partial.into_parts();
    let needed = needs_in(&node, parts).saturating_sub(parts - rest.len());
    values.push(value)?;
    found(alloc, needed, node, parts, values, rest)
}

/// Goes into the next part alone, without the values so far: for the rows that come a part at a time.
pub fn advance(alloc: Global, partial: Partial) -> Result<Found, NoMemory>
    ensures { IfOk result (λ met. met ≡ advanced partial) }
{
    let (node, parts, _, rest) = partial.into_parts();
    found(alloc, 1, node, parts, Rows::new(alloc), rest)
}

/// What going into a body meets: its forms come one after another, one form alone stands for itself, and none for NIL.
#[tactic(auto, using(crate::proofs::GoingLemmas::body_more, crate::proofs::GoingLemmas::body_one))]
pub fn body(alloc: Global, forms: Forms) -> Result<Found, NoMemory>
    ensures { IfOk result (λ met. met ≡ body forms) }
{
    if forms.len() > 1 {
        return found_in(alloc, 1, Partial::of_body(alloc, forms));
    }
    match forms.first()? {
        Some(form) => look(alloc, &form),
        None => Ok(Found::Already(Value::nil(alloc))),
    }
}

/// The test of a clause, None where it has none.
fn test_of(alloc: Global, clause: &Code) -> Result<Option<Code>, NoMemory>
    ensures { IfOk result (λ test. MatchOption test (forms_of clause.now ≡ []) (λ form. forms_of clause.now ≡ form ∷ drop 1 (forms_of clause.now))) }
{
    Partial::of_form(alloc, clause)?.share_rest()?.first()
}

/// The redex of `cond` with the value of a clause's test.
fn with_test(
    alloc: Global,
    value: Value,
    node: Option<Code>,
    parts: usize,
    clauses: Forms,
) -> Result<Found, NoMemory>
    requires row { row_in node ≡ row.Bare bare.Cond }
    requires left { length clauses ≤ parts }
    ensures { IfOk result (λ met. met ≡ ready (row.Bare bare.Cond) (parts - length clauses) (value ∷ []) clauses) }
{
    let mut values = Rows::new(alloc);
    values.push(value)?;
    Ok(Found::Here(Focus::Form(Partial::from_parts(node, parts, values, clauses))))
}

/// Goes into the test of this clause, the first of those that are left.
#[tactic(auto, using(crate::proofs::GoingLemmas::tested_none, crate::proofs::GoingLemmas::tested_value, crate::proofs::GoingLemmas::tested_form))]
fn tested(
    alloc: Global,
    clause: &Code,
    node: Option<Code>,
    parts: usize,
    clauses: Forms,
) -> Result<Found, NoMemory>
    requires row { row_in node ≡ row.Bare bare.Cond }
    requires left { length clauses ≤ parts }
    ensures { IfOk result (λ met. met ≡ tested (parts - length clauses) clauses (forms_of clause.now)) }
{
    let Some(test) = test_of(alloc, clause)? else {
        return with_test(alloc, Value::nil(alloc), node, parts, clauses);
    };
    match value_in(alloc, test.get())? {
        Some(value) => with_test(alloc, value, node, parts, clauses),
        None => {
            let values = Rows::new(alloc);
            Ok(Found::Inside(Partial::from_parts(node, parts, values, clauses), test))
        }
    }
}

/// Goes into the test of the first clause that is left. The clause stays among those that are left.
#[tactic(auto, using(crate::proofs::GoingLemmas::cond_clause))]
pub fn cond(alloc: Global, partial: Partial) -> Result<Found, NoMemory>
    requires { partial.row ≡ row.Bare bare.Cond }
    ensures { IfOk result (λ met. met ≡ cond partial.done partial.rest) }
{
    let (node, parts, _, clauses) = partial.into_parts();
    match clauses.first()? {
        Some(clause) => tested(alloc, &clause, node, parts, clauses),
        None => {
            let values = Rows::new(alloc);
            Ok(Found::Here(Focus::Form(Partial::from_parts(node, parts, values, clauses))))
        }
    }
}
