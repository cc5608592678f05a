ghost use Rattle.std.specs.Prelude.{◌≡◌, IfOk};
ghost use Rattle.lisp_errors.specs.Causes.{message_within, naming, wrong_kind, unbound_variable, undefined_function, wrong_number_of_arguments, bad_form, no_catch_tag, no_block, no_restart};
ghost use Rattle.lisp_errors.specs.Limits.{limited};
ghost use Rattle.lisp_errors.specs.Texts.{with_datum, without_datum};

use crate::limits::{MAX_WEIGHT, limited, value_too_large};
use crate::wanted::{Wanted, wanted_name};
use lisp_data::{Condition, NoMemory, Text, TypeId, Value};
use sexp_printer::{print_user, user_length};
use std::alloc::Global;

/// The message that has the value's user text, with escape, between these two. None where that text alone passes the limit:
/// nothing is printed then.
fn message_naming(
    alloc: Global,
    before: &str,
    value: &Value,
    after: &str,
    current: &Text,
) -> Result<Option<Text>, NoMemory>
    ensures { IfOk result (λ message. message ≡ message_within current.now before.now value.now after.now) }
{
    if user_length(value, current, true) > MAX_WEIGHT {
        return Ok(None);
    }
    let mut message = Text::of(alloc, before)?;
    let named = print_user(alloc, value, current, true)?;
    message.push_str(named.as_str())?;
    message.push_str(after)?;
    Ok(Some(message))
}

/// The condition whose message names this value, with the value as its datum.
fn about(
    alloc: Global,
    kind: TypeId,
    before: &str,
    value: &Value,
    after: &str,
    current: &Text,
) -> Result<Condition, NoMemory>
    ensures { IfOk result (λ c. c ≡ limited (with_datum kind (naming current.now before.now value.now after.now) value.now)) }
{
    match message_naming(alloc, before, value, after, current)? {
        None => Ok(value_too_large(alloc)?),
        Some(message) => {
            let datum = value.copy(alloc)?;
            Ok(limited(
                alloc,
                Condition {
                    kind,
                    message,
                    datum,
                },
            )?)
        }
    }
}

/// The same without a datum.
fn stating(
    alloc: Global,
    kind: TypeId,
    before: &str,
    value: &Value,
    after: &str,
    current: &Text,
) -> Result<Condition, NoMemory>
    ensures { IfOk result (λ c. c ≡ limited (without_datum kind (naming current.now before.now value.now after.now))) }
{
    match message_naming(alloc, before, value, after, current)? {
        None => Ok(value_too_large(alloc)?),
        Some(message) => {
            let datum = Value::nil(alloc);
            Ok(limited(
                alloc,
                Condition {
                    kind,
                    message,
                    datum,
                },
            )?)
        }
    }
}

/// A value is not of the kind wanted. The package is the full name of the current one, here and below.
#[tactic(auto, unfolding(crate::specs::Causes::wrong_kind))]
pub fn wrong_kind(
    alloc: Global,
    value: &Value,
    wanted: Wanted,
    package: &Text,
) -> Result<Condition, NoMemory>
    ensures { IfOk result (λ c. c ≡ wrong_kind «package».now value.now wanted) }
{
    let mut after = Text::of(alloc, " is not of type ")?;
    after.push_str(wanted_name(wanted))?;
    after.push_str(".")?;
    Ok(about(
        alloc,
        TypeId::TypeError,
        "The value ",
        value,
        after.as_str(),
        package,
    )?)
}

/// A variable has no value.
#[tactic(auto, unfolding(crate::specs::Causes::unbound_variable))]
pub fn unbound_variable(
    alloc: Global,
    symbol: &Value,
    package: &Text,
) -> Result<Condition, NoMemory>
    ensures { IfOk result (λ c. c ≡ unbound_variable «package».now symbol.now) }
{
    about(
        alloc,
        TypeId::UnboundVariable,
        "The variable ",
        symbol,
        " is unbound.",
        package,
    )
}

/// A symbol names no function. NIL, a symbol too, is the empty list.
#[tactic(auto, unfolding(crate::specs::Causes::undefined_function))]
pub fn undefined_function(
    alloc: Global,
    symbol: &Value,
    package: &Text,
) -> Result<Condition, NoMemory>
    ensures { IfOk result (λ c. c ≡ undefined_function «package».now symbol.now) }
{
    about(
        alloc,
        TypeId::UndefinedFunction,
        "The function ",
        symbol,
        " is undefined.",
        package,
    )
}

/// A function, given by its symbol, is called with too few or too many arguments.
#[tactic(auto, unfolding(crate::specs::Causes::wrong_number_of_arguments))]
pub fn wrong_number_of_arguments(
    alloc: Global,
    function: &Value,
    package: &Text,
) -> Result<Condition, NoMemory>
    ensures { IfOk result (λ c. c ≡ wrong_number_of_arguments «package».now function.now) }
{
    stating(
        alloc,
        TypeId::ProgramError,
        "Wrong number of arguments for ",
        function,
        ".",
        package,
    )
}

/// A form fits no row of the syntax.
#[tactic(auto, unfolding(crate::specs::Causes::bad_form))]
pub fn bad_form(alloc: Global, form: &Value, package: &Text) -> Result<Condition, NoMemory>
    ensures { IfOk result (λ c. c ≡ bad_form «package».now form.now) }
{
    stating(alloc, TypeId::ProgramError, "Bad form: ", form, "", package)
}

/// No catch has this tag.
#[tactic(auto, unfolding(crate::specs::Causes::no_catch_tag))]
pub fn no_catch_tag(alloc: Global, tag: &Value, package: &Text) -> Result<Condition, NoMemory>
    ensures { IfOk result (λ c. c ≡ no_catch_tag «package».now tag.now) }
{
    stating(
        alloc,
        TypeId::ControlError,
        "No catch tag: ",
        tag,
        ".",
        package,
    )
}

/// No block has this name.
#[tactic(auto, unfolding(crate::specs::Causes::no_block))]
pub fn no_block(alloc: Global, name: &Value, package: &Text) -> Result<Condition, NoMemory>
    ensures { IfOk result (λ c. c ≡ no_block «package».now name.now) }
{
    stating(
        alloc,
        TypeId::ControlError,
        "No block: ",
        name,
        ".",
        package,
    )
}

/// No restart has this name.
#[tactic(auto, unfolding(crate::specs::Causes::no_restart))]
pub fn no_restart(alloc: Global, name: &Value, package: &Text) -> Result<Condition, NoMemory>
    ensures { IfOk result (λ c. c ≡ no_restart «package».now name.now) }
{
    stating(
        alloc,
        TypeId::ControlError,
        "No restart: ",
        name,
        ".",
        package,
    )
}
