//! The parts of a form that are no forms themselves.

ghost use Rattle.std.specs.Prelude.{◌≡◌, codes, IfOk};
ghost use Rattle.lisp_data.specs.Parts.{value_items, value_text};
ghost use Rattle.lisp_syntax.specs.Fits.{Finds, FindsAs};
ghost use Rattle.lisp_syntax.specs.Parts.{symbol_of, is_symbol, variable_of, readable_of, restart_name_of, is_key, marks, condition_type_of, condition_type_named, parameter_of, designator_of, designator_at};

use crate::fit::Misfit;
use crate::symbols::{is_readable, is_variable};
use lisp_data::{Name, Text, TypeId, Value};
use lisp_types::{is_kind, type_by_name};
use std::alloc::Global;
use syntax_trees::Designator;

/// The items of a list.
pub fn list(value: &Value) -> Result<&[Value], Misfit>
    ensures { FindsAs (λ items. items.now) result (value_items value.now) }
{
    match value {
        Value::List(items) => Ok(items.as_slice()),
        _ => Err(Misfit::NoRow),
    }
}

pub fn string(alloc: Global, value: &Value) -> Result<Text, Misfit>
    ensures { Finds result (value_text value.now) }
{
    match value {
        Value::Str(text) => Ok(text.copy(alloc)?),
        _ => Err(Misfit::NoRow),
    }
}

/// The symbol that a value is, NIL among them.
#[tactic(auto, unfolding(crate::specs::Parts::symbol_of))]
pub fn symbol(alloc: Global, value: &Value) -> Result<Name, Misfit>
    ensures { Finds result (symbol_of value.now) }
{
    match value {
        Value::Sym(name) if !name.symbol().is_nil() => Ok(name.share()?),
        Value::List(items) if items.is_empty() => Ok(Name::common_lisp(alloc, "NIL")?),
        _ => Err(Misfit::NoRow),
    }
}

/// Whether the value is a symbol, NIL among them.
#[tactic(auto, unfolding(crate::specs::Parts::is_symbol))]
pub fn is_symbol(value: &Value) -> bool
    ensures { result ≡ is_symbol value.now }
{
    match value {
        Value::Sym(_) => true,
        Value::List(items) => items.is_empty(),
        _ => false,
    }
}

/// What a form may bind or declare.
#[tactic(auto, unfolding(crate::specs::Parts::variable_of))]
pub fn variable(value: &Value) -> Result<Name, Misfit>
    ensures { Finds result (variable_of value.now) }
{
    match value {
        Value::Sym(name) if is_variable(name.symbol()) => Ok(name.share()?),
        _ => Err(Misfit::NoRow),
    }
}

/// What a form may assign, and `let` may bind.
#[tactic(auto, unfolding(crate::specs::Parts::readable_of))]
pub fn readable(value: &Value) -> Result<Name, Misfit>
    ensures { Finds result (readable_of value.now) }
{
    match value {
        Value::Sym(name) if is_readable(name.symbol()) => Ok(name.share()?),
        _ => Err(Misfit::NoRow),
    }
}

/// The name of a restart, which isn't NIL.
#[tactic(auto, unfolding(crate::specs::Parts::restart_name_of))]
pub fn restart_name(value: &Value) -> Result<Name, Misfit>
    ensures { Finds result (restart_name_of value.now) }
{
    match value {
        Value::Sym(name) if !name.symbol().is_nil() => Ok(name.share()?),
        _ => Err(Misfit::NoRow),
    }
}

/// Whether the value is the keyword with this name.
#[tactic(auto, unfolding(crate::specs::Parts::is_key))]
pub fn is_key(key: &str, value: &Value) -> bool
    ensures { result ≡ is_key key.now value.now }
{
    match value {
        Value::Sym(name) => name.symbol().is_keyword() && name.symbol().name.as_str() == key,
        _ => false,
    }
}

/// Whether the value is this marker of a list of parameters.
#[tactic(auto, unfolding(crate::specs::Parts::marks))]
pub fn marks(marker: &str, value: &Value) -> bool
    ensures { result ≡ marks marker.now value.now }
{
    match value {
        Value::Sym(name) => name.symbol().is_standard(marker),
        _ => false,
    }
}

fn condition_type_named(name: &str) -> Result<TypeId, Misfit>
    ensures { Finds result (condition_type_named name.now) }
{
    match type_by_name(name) {
        Some(kind) if is_kind(kind, TypeId::Condition) => Ok(kind),
        _ => Err(Misfit::NoRow),
    }
}

/// The condition type that the value names.
#[tactic(auto, unfolding(crate::specs::Parts::condition_type_of))]
pub fn condition_type(value: &Value) -> Result<TypeId, Misfit>
    ensures { Finds result (condition_type_of value.now) }
{
    match value {
        Value::Sym(name) if name.symbol().is_of_common_lisp() => {
            condition_type_named(name.symbol().name.as_str())
        }
        _ => Err(Misfit::NoRow),
    }
}

/// A parameter of a function: any symbol but the two markers.
#[tactic(auto, unfolding(crate::specs::Parts::parameter_of))]
pub fn parameter(alloc: Global, value: &Value) -> Result<Name, Misfit>
    ensures { Finds result (parameter_of value.now) }
{
    let symbol = symbol(alloc, value)?;
    if symbol.symbol().is_standard("&OPTIONAL") || symbol.symbol().is_standard("&REST") {
        return Err(Misfit::NoRow);
    }
    Ok(symbol)
}

/// What names a package or a symbol.
#[tactic(auto, unfolding(crate::specs::Parts::designator_of))]
pub fn designator(alloc: Global, value: &Value) -> Result<Designator, Misfit>
    ensures { Finds result (designator_of value.now) }
{
    match value {
        Value::Str(text) => Ok(Designator::Str(text.copy(alloc)?)),
        _ => Ok(Designator::Sym(symbol(alloc, value)?)),
    }
}
