//! The parts of a form that are no forms themselves, as values.

ghost use Rattle.std.specs.Prelude.{◌≡◌, ◌∷◌, ◌++◌, map, codes, IfOk};
ghost use Rattle.lisp_data.specs.Symbols.{keyword, value_of_symbol};
ghost use Rattle.lisp_data.specs.declared.value.Value as value;
ghost use Rattle.lisp_syntax.specs.Parts.{at_most_one_form, designator_form, marked, option_forms, parameter_forms, rest_marked, type_form, variables_form};

use lisp_data::{Name, NoMemory, Rows, TypeId, Value};
use std::alloc::Global;
use syntax_trees::{Designator, Parameters};

/// A variable as a value.
pub fn variable(name: &Name) -> Result<Value, NoMemory>
    ensures { IfOk result (λ form. form ≡ value.Sym name.now) }
{
    Ok(Value::Sym(name.share()?))
}

/// A symbol as a value: the empty list at NIL.
pub fn symbol(alloc: Global, name: &Name) -> Result<Value, NoMemory>
    ensures { IfOk result (λ form. form ≡ value_of_symbol name.now) }
{
    Ok(Value::symbol(alloc, name.share()?))
}

/// The symbol that names a type.
pub fn type_form(alloc: Global, kind: TypeId) -> Result<Value, NoMemory>
    ensures { IfOk result (λ form. form ≡ type_form kind) }
{
    Ok(Value::Sym(Name::common_lisp(alloc, kind.name())?))
}

/// These items and the symbols, each as a value.
pub fn with_symbols(
    alloc: Global,
    items: Rows<Value>,
    names: &[Name],
) -> Result<Rows<Value>, NoMemory>
    ensures { IfOk result (λ all. all ≡ items ++ map value_of_symbol names.now) }
{
    let mut items = items;
    for name in names {
        items.push(symbol(alloc, name)?)?;
    }
    Ok(items)
}

/// These items, and `&optional` with its symbols where it is written.
pub fn with_optionals(
    alloc: Global,
    items: Rows<Value>,
    names: &Option<Rows<Name>>,
) -> Result<Rows<Value>, NoMemory>
    ensures { IfOk result (λ all. all ≡ items ++ marked (codes "&OPTIONAL") names.now) }
{
    let mut items = items;
    let Some(names) = names else {
        return Ok(items);
    };
    items.push(Value::Sym(Name::common_lisp(alloc, "&OPTIONAL")?))?;
    with_symbols(alloc, items, names.as_slice())
}

/// These items, and `&rest` with its symbol where it is written.
pub fn with_rest(
    alloc: Global,
    items: Rows<Value>,
    name: &Option<Name>,
) -> Result<Rows<Value>, NoMemory>
    ensures { IfOk result (λ all. all ≡ items ++ rest_marked name.now) }
{
    let mut items = items;
    if let Some(name) = name {
        items.push(Value::Sym(Name::common_lisp(alloc, "&REST")?))?;
        items.push(symbol(alloc, name)?)?;
    }
    Ok(items)
}

/// The list of a function's parameters.
pub fn parameters(alloc: Global, parameters: &Parameters) -> Result<Value, NoMemory>
    ensures { IfOk result (λ form. form ≡ value.List (parameter_forms parameters.now)) }
{
    let items = with_symbols(alloc, Rows::new(alloc), parameters.required.as_slice())?;
    let items = with_optionals(alloc, items, &parameters.optional)?;
    Ok(Value::List(with_rest(alloc, items, &parameters.rest)?))
}

/// The list of these variables.
pub fn variables(alloc: Global, names: &[Name]) -> Result<Value, NoMemory>
    ensures { IfOk result (λ form. form ≡ variables_form names.now) }
{
    let mut items = Rows::new(alloc);
    for name in names {
        items.push(variable(name)?)?;
    }
    Ok(Value::List(items))
}

/// The list of a variable, if there is one.
pub fn at_most_one(alloc: Global, name: &Option<Name>) -> Result<Value, NoMemory>
    ensures { IfOk result (λ form. form ≡ at_most_one_form name.now) }
{
    let mut items = Rows::new(alloc);
    if let Some(name) = name {
        items.push(variable(name)?)?;
    }
    Ok(Value::List(items))
}

pub fn designator(alloc: Global, name: &Designator) -> Result<Value, NoMemory>
    ensures { IfOk result (λ form. form ≡ designator_form name.now) }
{
    match name {
        Designator::Str(text) => Ok(Value::Str(text.copy(alloc)?)),
        Designator::Sym(name) => symbol(alloc, name),
    }
}

/// The list of an option of `defpackage`.
pub fn option_list(alloc: Global, key: &str, names: &[Designator]) -> Result<Value, NoMemory>
    ensures { IfOk result (λ form. form ≡ value.List (value.Sym (keyword key.now) ∷ map designator_form names.now)) }
{
    let mut items = Rows::new(alloc);
    items.push(Value::Sym(Name::keyword(alloc, key)?))?;
    for name in names {
        items.push(designator(alloc, name)?)?;
    }
    Ok(Value::List(items))
}

/// These items, and an option of `defpackage` where it is written.
pub fn with_option(
    alloc: Global,
    items: Rows<Value>,
    key: &str,
    names: &Option<Rows<Designator>>,
) -> Result<Rows<Value>, NoMemory>
    ensures { IfOk result (λ all. all ≡ items ++ option_forms key.now names.now) }
{
    let mut items = items;
    if let Some(names) = names {
        items.push(option_list(alloc, key, names.as_slice())?)?;
    }
    Ok(items)
}
