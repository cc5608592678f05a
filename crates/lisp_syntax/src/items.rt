//! The parts of a form that list further parts: bindings, assignments, handlers, variables, designators.

ghost use Rattle.std.specs.Prelude.{◌≡◌, map, codes, IfOk};
ghost use Rattle.lisp_syntax.specs.Fits.{Finds, FindsAs, bound, written, listed};
ghost use Rattle.lisp_syntax.specs.Parts.{each_of, variable_of, variables_of, at_most_one_of, designator_of, only_option, option_of, options_of, report_of};
ghost use Rattle.lisp_syntax.specs.Table.{assignments_of, binding_of, each_with, handled, handler_of};

use crate::fit::Misfit;
use crate::parts::{condition_type, designator, is_key, list, readable, string, variable};
use lisp_data::{Boxed, Name, NoMemory, Rows, Text, TypeId, Value};
use std::alloc::Global;
use syntax_trees::{Binding, Designator, Init};

/// Items that bring a subform each, and these. None stands for a NIL that isn't written.
pub type Led<'a, T> = (Rows<T>, Rows<Option<&'a Value>>);

/// `V`, `(V)` or `(V E)`
#[tactic(auto, unfolding(crate::specs::Table::binding_of))]
fn binding<'a>(alloc: Global, value: &'a Value) -> Result<(Binding, Option<&'a Value>), Misfit>
    ensures { FindsAs bound result (binding_of value.now) }
{
    let (variable, init, form) = match value {
        Value::List(items) => match items.as_slice() {
            [variable] => (variable, Init::Empty, None),
            [variable, form] => (variable, Init::Form, Some(form)),
            _ => return Err(Misfit::NoRow),
        },
        _ => (value, Init::Bare, None),
    };
    let variable = readable(variable)?;
    Ok((Binding { variable, init }, form))
}

pub fn bindings<'a>(alloc: Global, items: &'a [Value]) -> Result<Led<'a, Binding>, Misfit>
    ensures { FindsAs listed result (each_with binding_of items.now) }
{
    let mut bindings = Rows::new(alloc);
    let mut forms = Rows::new(alloc);
    let mut rest = items;
    while let [item, more @ ..] = rest {
        let (binding, form) = binding(alloc, item)?;
        bindings.push(binding)?;
        forms.push(form)?;
        rest = more;
    }
    Ok((bindings, forms))
}

/// `V E`, any number of times.
pub fn assignments<'a>(alloc: Global, parts: &'a [Value]) -> Result<Led<'a, Name>, Misfit>
    ensures { FindsAs listed result (assignments_of parts.now) }
{
    let mut variables = Rows::new(alloc);
    let mut forms = Rows::new(alloc);
    let mut rest = parts;
    while let [name, form, more @ ..] = rest {
        variables.push(readable(name)?)?;
        forms.push(Some(form))?;
        rest = more;
    }
    if !rest.is_empty() {
        return Err(Misfit::NoRow);
    }
    Ok((variables, forms))
}

/// `(TYPE E)`
#[tactic(auto, unfolding(crate::specs::Table::handler_of))]
fn handler<'a>(value: &'a Value) -> Result<(TypeId, &'a Value), Misfit>
    ensures { FindsAs (λ h. handled h.1.now h.0) result (handler_of value.now) }
{
    let [kind, function] = list(value)? else {
        return Err(Misfit::NoRow);
    };
    let kind = condition_type(kind)?;
    Ok((kind, function))
}

pub fn handlers<'a>(alloc: Global, items: &'a [Value]) -> Result<Led<'a, TypeId>, Misfit>
    ensures { FindsAs listed result (each_with handler_of items.now) }
{
    let mut kinds = Rows::new(alloc);
    let mut forms = Rows::new(alloc);
    let mut rest = items;
    while let [item, more @ ..] = rest {
        let (kind, function) = handler(item)?;
        kinds.push(kind)?;
        forms.push(Some(function))?;
        rest = more;
    }
    Ok((kinds, forms))
}

/// These subforms as they stand.
pub fn forms<'a>(alloc: Global, items: &'a [Value]) -> Result<Rows<Option<&'a Value>>, NoMemory>
    ensures { IfOk result (λ forms. map written forms ≡ items.now) }
{
    let mut forms = Rows::new(alloc);
    for item in items {
        forms.push(Some(item))?;
    }
    Ok(forms)
}

fn names(alloc: Global, items: &[Value]) -> Result<Rows<Name>, Misfit>
    ensures { Finds result (each_of variable_of items.now) }
{
    let mut names = Rows::new(alloc);
    let mut rest = items;
    while let [item, more @ ..] = rest {
        names.push(variable(item)?)?;
        rest = more;
    }
    Ok(names)
}

/// `(V..)`
#[tactic(auto, unfolding(crate::specs::Parts::variables_of))]
pub fn variables(alloc: Global, value: &Value) -> Result<Rows<Name>, Misfit>
    ensures { Finds result (variables_of value.now) }
{
    names(alloc, list(value)?)
}

/// `([V])`
#[tactic(auto, unfolding(crate::specs::Parts::at_most_one_of))]
pub fn at_most_one(alloc: Global, value: &Value) -> Result<Option<Name>, Misfit>
    ensures { Finds result (at_most_one_of value.now) }
{
    match list(value)? {
        [] => Ok(None),
        [name] => Ok(Some(variable(name)?)),
        _ => Err(Misfit::NoRow),
    }
}

/// `[:report "TEXT"] body`: the text, if the forms begin with it, and the body.
#[tactic(auto, unfolding(crate::specs::Parts::report_of))]
pub fn report(alloc: Global, forms: &[Value]) -> Result<(Option<Boxed<Text>>, &[Value]), NoMemory>
    ensures { IfOk result (λ r. (r.0, r.1.now) ≡ report_of forms.now) }
{
    match forms {
        [key, Value::Str(text), body @ ..] if is_key("REPORT", key) => {
            Ok((Some(Boxed::new(alloc, text.copy(alloc)?)?), body))
        }
        _ => Ok((None, forms)),
    }
}

fn designators(alloc: Global, items: &[Value]) -> Result<Rows<Designator>, Misfit>
    ensures { Finds result (each_of designator_of items.now) }
{
    let mut names = Rows::new(alloc);
    let mut rest = items;
    while let [item, more @ ..] = rest {
        names.push(designator(alloc, item)?)?;
        rest = more;
    }
    Ok(names)
}

/// `(:KEY P..)`
#[tactic(auto, unfolding(crate::specs::Parts::option_of))]
fn option(alloc: Global, key: &str, value: &Value) -> Result<Rows<Designator>, Misfit>
    ensures { Finds result (option_of key.now value.now) }
{
    match list(value)? {
        [first, items @ ..] if is_key(key, first) => designators(alloc, items),
        _ => Err(Misfit::NoRow),
    }
}

/// The names that `:use` lists, and those that `:export` lists. None stands for an option that isn't written.
pub type Options = (Option<Rows<Designator>>, Option<Rows<Designator>>);

/// `(:use P..)` or `(:export P..)`
fn only_option(alloc: Global, value: &Value) -> Result<Options, Misfit>
    ensures { Finds result (only_option (option_of (codes "USE") value.now) (option_of (codes "EXPORT") value.now)) }
{
    match option(alloc, "USE", value) {
        Ok(uses) => Ok((Some(uses), None)),
        Err(Misfit::NoRow) => Ok((None, Some(option(alloc, "EXPORT", value)?))),
        Err(Misfit::NoMemory) => Err(Misfit::NoMemory),
    }
}

/// `[(:use P..)] [(:export P..)]`
#[tactic(auto, unfolding(crate::specs::Parts::options_of))]
pub fn options(alloc: Global, values: &[Value]) -> Result<Options, Misfit>
    ensures { Finds result (options_of values.now) }
{
    match values {
        [] => Ok((None, None)),
        [only] => only_option(alloc, only),
        [uses, exports] => {
            let uses = option(alloc, "USE", uses)?;
            let exports = option(alloc, "EXPORT", exports)?;
            Ok((Some(uses), Some(exports)))
        }
        _ => Err(Misfit::NoRow),
    }
}
