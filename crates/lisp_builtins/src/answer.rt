ghost use Rattle.std.specs.Prelude.{◌≡◌, IfOk, Err};
ghost use Rattle.lisp_errors.specs.Limits.{value_too_large};
ghost use Rattle.lisp_builtins.specs.Answers.{standard_symbol, refused_number, refused_kind, Answers};

use crate::op::name_of;
use crate::{BuiltinFault, Op};
use lisp_data::{Name, NoMemory, Text, Value};
use lisp_errors::{Wanted, value_too_large, wrong_kind, wrong_number_of_arguments};
use std::alloc::Global;

/// A symbol of COMMON-LISP.
pub fn standard_symbol(alloc: Global, name: &str) -> Result<Value, NoMemory>
    ensures { IfOk result (λ v. v ≡ standard_symbol name.now) }
{
    Ok(Value::Sym(Name::common_lisp(alloc, name)?))
}

/// The answer to too few or too many arguments.
pub fn refuse_number(alloc: Global, op: Op, package: &Text) -> Result<Value, BuiltinFault>
    ensures { Answers result (refused_number «package».now op) }
{
    let function = standard_symbol(alloc, name_of(op))?;
    Err(BuiltinFault::Raised(wrong_number_of_arguments(alloc, &function, package)?))
}

/// The answer to a value that is not of the kind wanted.
pub fn refuse_kind(
    alloc: Global,
    value: &Value,
    wanted: Wanted,
    package: &Text,
) -> Result<Value, BuiltinFault>
    ensures { Answers result (refused_kind «package».now value.now wanted) }
{
    Err(BuiltinFault::Raised(wrong_kind(alloc, value, wanted, package)?))
}

/// The answer in place of a value that is too large.
pub fn refuse_size(alloc: Global) -> Result<Value, BuiltinFault>
    ensures { Answers result (Err value_too_large) }
{
    Err(BuiltinFault::Raised(value_too_large(alloc)?))
}
