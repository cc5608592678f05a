ghost use Rattle.std.specs.Prelude.{◌≡◌, IfOk};
ghost use Rattle.lisp_data.specs.declared.value.Value.TheViews.{out-Value};
ghost use Rattle.lisp_format.specs.Formatted.{formatted};
ghost use Rattle.lisp_builtins.specs.Answers.{Answers};
ghost use Rattle.lisp_builtins.specs.Conditions.{condition_type_in, is_key, condition_of, plain_message, of_plain, of_message, of_control, of_new_condition};

use crate::answer::{refuse_kind, refuse_number, refuse_size};
use crate::values::type_in;
use crate::{BuiltinFault, Op};
use lisp_data::{Boxed, Condition, NoMemory, Text, TypeId, Value};
use lisp_errors::{Wanted, bad_directive, too_few_arguments};
use lisp_format::{FormatFault, format_text};
use lisp_types::is_kind;
use std::alloc::Global;

/// The type of conditions that a value names, None where it names none.
fn condition_type_in(value: &Value) -> Option<TypeId>
    ensures { result ≡ condition_type_in value.now }
{
    match type_in(value) {
        Some(t) if is_kind(t, TypeId::Condition) => Some(t),
        _ => None,
    }
}

/// Whether a value is the keyword of that name.
fn is_key(value: &Value, name: &str) -> bool
    ensures { result ≡ is_key name.now value.now }
{
    match value {
        Value::Sym(symbol) => symbol.symbol().is_keyword() && symbol.symbol().name.as_str() == name,
        _ => false,
    }
}

fn condition(alloc: Global, kind: TypeId, message: Text) -> Result<Value, NoMemory>
    ensures { IfOk result (λ v. v ≡ condition_of kind message) }
{
    let datum = Value::nil(alloc);
    let condition = Condition {
        kind,
        message,
        datum,
    };
    Ok(Value::Cond(Boxed::new(alloc, condition)?))
}

fn plain_message(alloc: Global, kind: TypeId) -> Result<Text, NoMemory>
    ensures { IfOk result (λ message. message ≡ plain_message kind) }
{
    let mut message = Text::of(alloc, "Condition of type ")?;
    message.push_str(kind.name())?;
    message.push_str(".")?;
    Ok(message)
}

fn plain(alloc: Global, kind: &Value, package: &Text) -> Result<Value, BuiltinFault>
    ensures { Answers result (of_plain «package».now kind.now (condition_type_in kind.now)) }
{
    match condition_type_in(kind) {
        Some(t) => Ok(condition(alloc, t, plain_message(alloc, t)?)?),
        None => refuse_kind(alloc, kind, Wanted::Condition, package),
    }
}

fn messaged(
    alloc: Global,
    kind: TypeId,
    control: &Text,
    arguments: &[Value],
    package: &Text,
) -> Result<Value, BuiltinFault>
    ensures { Answers result (of_message kind (formatted «package».now control.now arguments.now)) }
{
    match format_text(alloc, control, arguments, package) {
        Ok(message) => Ok(condition(alloc, kind, message)?),
        Err(FormatFault::BadDirective) => Err(BuiltinFault::Raised(bad_directive(alloc)?)),
        Err(FormatFault::TooFewArguments) => Err(BuiltinFault::Raised(too_few_arguments(alloc)?)),
        Err(FormatFault::TooLong) => refuse_size(alloc),
        Err(FormatFault::NoMemory) => Err(BuiltinFault::NoMemory),
    }
}

fn controlled(
    alloc: Global,
    kind: &Value,
    control: &Value,
    arguments: &Value,
    package: &Text,
) -> Result<Value, BuiltinFault>
    ensures { Answers result (of_control «package».now kind.now control.now arguments.now (condition_type_in kind.now) (out-Value control.now) (out-Value arguments.now)) }
{
    let Some(t) = condition_type_in(kind) else {
        return refuse_kind(alloc, kind, Wanted::Condition, package);
    };
    match (control, arguments) {
        (Value::Str(text), Value::List(items)) => {
            messaged(alloc, t, text, items.as_slice(), package)
        }
        (Value::Str(_), other) => refuse_kind(alloc, other, Wanted::List, package),
        (other, _) => refuse_kind(alloc, other, Wanted::String, package),
    }
}

pub fn of_new_condition(
    alloc: Global,
    op: Op,
    args: &[Value],
    package: &Text,
) -> Result<Value, BuiltinFault>
    ensures { Answers result (of_new_condition op «package».now args.now) }
{
    match args {
        [kind] => plain(alloc, kind, package),
        [kind, first, control, second, arguments]
            if is_key(first, "FORMAT-CONTROL") && is_key(second, "FORMAT-ARGUMENTS") => {
            controlled(alloc, kind, control, arguments, package)
        }
        _ => refuse_number(alloc, op, package),
    }
}
