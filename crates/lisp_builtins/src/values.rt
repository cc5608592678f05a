ghost use Rattle.std.specs.Prelude.{◌≡◌};
ghost use Rattle.lisp_builtins.specs.Answers.{Answers, Makes};
ghost use Rattle.lisp_builtins.specs.Values.{is_cons, is_list, is_symbol, is_string, is_keyword, any_of, of_one_value, type_in, of_type, both_of, of_two_values};

use crate::answer::{refuse_kind, refuse_number, standard_symbol};
use crate::numbers::is_integer;
use crate::signature::{Any, Both};
use crate::texts::printed;
use crate::{BuiltinFault, Op};
use lisp_data::{Text, TypeId, Value};
use lisp_errors::Wanted;
use lisp_types::{is_kind, type_by_name, type_of};
use std::alloc::Global;

/// Whether this is a list with items.
fn is_cons(value: &Value) -> bool
    ensures { result ≡ is_cons value.now }
{
    match value {
        Value::List(items) => !items.is_empty(),
        _ => false,
    }
}

pub fn is_list(value: &Value) -> bool
    ensures { result ≡ is_list value.now }
{
    matches!(value, Value::List(_))
}

fn is_symbol(value: &Value) -> bool
    ensures { result ≡ is_symbol value.now }
{
    match value {
        Value::Sym(_) => true,
        Value::List(items) => items.is_empty(),
        _ => false,
    }
}

fn is_string(value: &Value) -> bool
    ensures { result ≡ is_string value.now }
{
    matches!(value, Value::Str(_))
}

fn is_keyword(value: &Value) -> bool
    ensures { result ≡ is_keyword value.now }
{
    match value {
        Value::Sym(name) => name.symbol().is_keyword(),
        _ => false,
    }
}

fn any(alloc: Global, function: Any, value: &Value, package: &Text) -> Result<Value, BuiltinFault>
    ensures { Makes result (any_of function «package».now value.now) }
{
    let holds = match function {
        Any::IsNil => value.is_nil(),
        Any::IsAtom => !is_cons(value),
        Any::IsCons => is_cons(value),
        Any::IsList => is_list(value),
        Any::IsSymbol => is_symbol(value),
        Any::IsString => is_string(value),
        Any::IsInteger => is_integer(value),
        Any::IsKeyword => is_keyword(value),
        Any::Princ => return printed(alloc, value, package, false),
        Any::Prin1 => return printed(alloc, value, package, true),
        Any::TypeOf => return Ok(standard_symbol(alloc, type_of(value).name())?),
        Any::Identity => return Ok(value.copy(alloc)?),
    };
    Ok(Value::truth(alloc, holds)?)
}

pub fn of_one_value(
    alloc: Global,
    function: Any,
    op: Op,
    args: &[Value],
    package: &Text,
) -> Result<Value, BuiltinFault>
    ensures { Makes result (of_one_value function op «package».now args.now) }
{
    match args {
        [value] => any(alloc, function, value, package),
        _ => refuse_number(alloc, op, package),
    }
}

/// The type that a value names, None where it names none.
pub fn type_in(value: &Value) -> Option<TypeId>
    ensures { result ≡ type_in value.now }
{
    match value {
        Value::Sym(name) if name.symbol().is_of_common_lisp() => type_by_name(
            name.symbol().name.as_str(),
        ),
        _ => None,
    }
}

fn of_type(
    alloc: Global,
    value: &Value,
    kind: &Value,
    package: &Text,
) -> Result<Value, BuiltinFault>
    ensures { Answers result (of_type «package».now value.now kind.now (type_in kind.now)) }
{
    match type_in(kind) {
        Some(t) => Ok(Value::truth(alloc, is_kind(type_of(value), t))?),
        None => refuse_kind(alloc, kind, Wanted::Type, package),
    }
}

fn both(
    alloc: Global,
    function: Both,
    a: &Value,
    b: &Value,
    package: &Text,
) -> Result<Value, BuiltinFault>
    ensures { Answers result (both_of function «package».now a.now b.now) }
{
    match function {
        Both::AreSame => Ok(Value::truth(alloc, a.same(b))?),
        Both::IsOfType => of_type(alloc, a, b, package),
    }
}

pub fn of_two_values(
    alloc: Global,
    function: Both,
    op: Op,
    args: &[Value],
    package: &Text,
) -> Result<Value, BuiltinFault>
    ensures { Answers result (of_two_values function op «package».now args.now) }
{
    match args {
        [a, b] => both(alloc, function, a, b, package),
        _ => refuse_number(alloc, op, package),
    }
}
