ghost use Rattle.std.specs.Prelude.{◌≡◌, IfOk};
ghost use Rattle.lisp_errors.specs.Causes.{name_conflict, division_by_zero, integer_out_of_range, inexact_quotient, stack_exhausted, no_part, bad_directive, too_few_arguments};
ghost use Rattle.lisp_errors.specs.Texts.{without_datum};

use itoa::Buffer;
use lisp_data::{Condition, NoMemory, Text, TypeId, Value};
use std::alloc::Global;

/// A condition with this message and no datum.
pub fn fixed(alloc: Global, kind: TypeId, message: &str) -> Result<Condition, NoMemory>
    ensures { IfOk result (λ c. c ≡ without_datum kind message.now) }
{
    Ok(Condition {
        kind,
        message: Text::of(alloc, message)?,
        datum: Value::nil(alloc),
    })
}

/// Two symbols of one name would become accessible in one package.
#[tactic(auto, unfolding(crate::specs::Causes::name_conflict))]
pub fn name_conflict(alloc: Global) -> Result<Condition, NoMemory>
    ensures { IfOk result (λ c. c ≡ name_conflict) }
{
    fixed(alloc, TypeId::SimpleError, "Name conflict.")
}

/// A divisor is zero.
#[tactic(auto, unfolding(crate::specs::Causes::division_by_zero))]
pub fn division_by_zero(alloc: Global) -> Result<Condition, NoMemory>
    ensures { IfOk result (λ c. c ≡ division_by_zero) }
{
    fixed(alloc, TypeId::DivisionByZero, "Division by zero.")
}

/// A result is outside 64 bits.
#[tactic(auto, unfolding(crate::specs::Causes::integer_out_of_range))]
pub fn integer_out_of_range(alloc: Global) -> Result<Condition, NoMemory>
    ensures { IfOk result (λ c. c ≡ integer_out_of_range) }
{
    fixed(alloc, TypeId::ArithmeticError, "Integer out of range.")
}

/// A quotient is no integer.
#[tactic(auto, unfolding(crate::specs::Causes::inexact_quotient))]
pub fn inexact_quotient(alloc: Global) -> Result<Condition, NoMemory>
    ensures { IfOk result (λ c. c ≡ inexact_quotient) }
{
    fixed(
        alloc,
        TypeId::ArithmeticError,
        "Quotient is not an integer.",
    )
}

/// The stack would pass its limit.
#[tactic(auto, unfolding(crate::specs::Causes::stack_exhausted))]
pub fn stack_exhausted(alloc: Global) -> Result<Condition, NoMemory>
    ensures { IfOk result (λ c. c ≡ stack_exhausted) }
{
    fixed(alloc, TypeId::StorageCondition, "Control stack exhausted.")
}

/// The inspected value has no part of that number.
#[tactic(auto, unfolding(crate::specs::Causes::no_part))]
pub fn no_part(alloc: Global, number: i64) -> Result<Condition, NoMemory>
    ensures { IfOk result (λ c. c ≡ no_part number) }
{
    let mut message = Text::of(alloc, "No part: ")?;
    let mut buffer = Buffer::new();
    message.push_str(buffer.format(number))?;
    message.push_str(".")?;
    Ok(fixed(alloc, TypeId::SimpleError, message.as_str())?)
}

/// A control text has a directive that isn't known.
#[tactic(auto, unfolding(crate::specs::Causes::bad_directive))]
pub fn bad_directive(alloc: Global) -> Result<Condition, NoMemory>
    ensures { IfOk result (λ c. c ≡ bad_directive) }
{
    fixed(alloc, TypeId::SimpleError, "Format: BadDirective.")
}

/// A control text has a directive that no argument is left for.
#[tactic(auto, unfolding(crate::specs::Causes::too_few_arguments))]
pub fn too_few_arguments(alloc: Global) -> Result<Condition, NoMemory>
    ensures { IfOk result (λ c. c ≡ too_few_arguments) }
{
    fixed(alloc, TypeId::SimpleError, "Format: TooFewArguments.")
}
