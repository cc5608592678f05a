ghost use Rattle.std.specs.Prelude.{◌≡◌, IfOk, Ok};
ghost use Rattle.std.specs.Option.{option_copied};
ghost use Rattle.lisp_data.specs.declared.value.Value.TheVariants as variant;
ghost use Rattle.lisp_data.specs.declared.value.Value.TheViews.{out-Value};
ghost use Rattle.sexp_printer.specs.UserText.{user_text};
ghost use Rattle.lisp_builtins.specs.Answers.{Answers, Makes};
ghost use Rattle.lisp_builtins.specs.Texts.{symbol_name_at, name_at, named_of, of_one_name, of_two_names, of_one_symbol};

use crate::answer::{refuse_kind, refuse_number, refuse_size};
use crate::signature::Naming;
use crate::{BuiltinFault, Op};
use lisp_data::{NoMemory, Text, Value};
use lisp_errors::{MAX_WEIGHT, Wanted};
use sexp_printer::{print_user, user_length};
use std::alloc::Global;

/// The user text of a value, which is not made where it would be too large.
pub fn printed(
    alloc: Global,
    value: &Value,
    package: &Text,
    escape: bool,
) -> Result<Value, BuiltinFault>
    ensures { Makes result (Ok (variant.Str (user_text «package».now escape value.now))) }
{
    if user_length(value, package, escape) >= MAX_WEIGHT {
        return refuse_size(alloc);
    }
    Ok(Value::Str(print_user(alloc, value, package, escape)?))
}

/// The name of a symbol, None where the value is none.
fn symbol_name(value: &Value) -> Option<&str>
    ensures { option_copied result ≡ symbol_name_at (out-Value value.now) }
{
    match value {
        Value::Sym(name) => Some(name.symbol().name.as_str()),
        Value::List(items) if items.is_empty() => Some("NIL"),
        _ => None,
    }
}

/// A string, or the name of a symbol.
fn name(value: &Value) -> Option<&str>
    ensures { option_copied result ≡ name_at (out-Value value.now) }
{
    match value {
        Value::Str(text) => Some(text.as_str()),
        other => symbol_name(other),
    }
}

fn named(alloc: Global, function: Naming, text: &str) -> Result<Text, NoMemory>
    ensures { IfOk result (λ t. t ≡ named_of function text.now) }
{
    match function {
        Naming::Itself => Ok(Text::of(alloc, text)?),
        Naming::Upcase => Ok(Text::ascii_uppercase(alloc, text)?),
        Naming::Downcase => Ok(Text::ascii_lowercase(alloc, text)?),
    }
}

pub fn of_one_name(
    alloc: Global,
    function: Naming,
    op: Op,
    args: &[Value],
    package: &Text,
) -> Result<Value, BuiltinFault>
    ensures { Answers result (of_one_name function op «package».now args.now) }
{
    let [value] = args else {
        return refuse_number(alloc, op, package);
    };
    match name(value) {
        Some(text) => Ok(Value::Str(named(alloc, function, text)?)),
        None => refuse_kind(alloc, value, Wanted::String, package),
    }
}

pub fn of_two_names(
    alloc: Global,
    op: Op,
    args: &[Value],
    package: &Text,
) -> Result<Value, BuiltinFault>
    ensures { Answers result (of_two_names op «package».now args.now) }
{
    let [a, b] = args else {
        return refuse_number(alloc, op, package);
    };
    match (name(a), name(b)) {
        (Some(x), Some(y)) => Ok(Value::truth(alloc, x == y)?),
        (Some(_), None) => refuse_kind(alloc, b, Wanted::String, package),
        (None, _) => refuse_kind(alloc, a, Wanted::String, package),
    }
}

pub fn of_one_symbol(
    alloc: Global,
    op: Op,
    args: &[Value],
    package: &Text,
) -> Result<Value, BuiltinFault>
    ensures { Answers result (of_one_symbol op «package».now args.now) }
{
    let [value] = args else {
        return refuse_number(alloc, op, package);
    };
    match symbol_name(value) {
        Some(text) => Ok(Value::Str(Text::of(alloc, text)?)),
        None => refuse_kind(alloc, value, Wanted::Symbol, package),
    }
}
