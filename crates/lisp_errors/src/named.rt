ghost use Rattle.std.specs.Prelude.{◌≡◌, ◌++◌, IfOk};
ghost use Rattle.lisp_errors.specs.Causes.{bad_arguments, reader_fault, package_not_found, symbol_not_external};
ghost use Rattle.lisp_errors.specs.Limits.{limited};
ghost use Rattle.lisp_errors.specs.Texts.{without_datum};

use crate::limits::limited;
use lisp_data::{Condition, NoMemory, Text, TypeId, Value};
use std::alloc::Global;

/// The condition whose message is these three texts in a row.
fn joined(
    alloc: Global,
    kind: TypeId,
    before: &str,
    name: &str,
    after: &str,
) -> Result<Condition, NoMemory>
    ensures { IfOk result (λ c. c ≡ limited (without_datum kind (before.now ++ name.now ++ after.now))) }
{
    let mut message = Text::of(alloc, before)?;
    message.push_str(name)?;
    message.push_str(after)?;
    let datum = Value::nil(alloc);
    Ok(limited(
        alloc,
        Condition {
            kind,
            message,
            datum,
        },
    )?)
}

/// A request's function has arguments that it doesn't take. The name is the function's, in upper case and without prefix.
#[tactic(auto, unfolding(crate::specs::Causes::bad_arguments))]
pub fn bad_arguments(alloc: Global, name: &str) -> Result<Condition, NoMemory>
    ensures { IfOk result (λ c. c ≡ bad_arguments name.now) }
{
    joined(alloc, TypeId::ProgramError, "Bad arguments for ", name, ".")
}

/// A text is no form. The fault is the name of the reader's.
#[tactic(auto, unfolding(crate::specs::Causes::reader_fault))]
pub fn reader_fault(alloc: Global, fault: &str) -> Result<Condition, NoMemory>
    ensures { IfOk result (λ c. c ≡ reader_fault fault.now) }
{
    joined(alloc, TypeId::SimpleError, "Reader: ", fault, ".")
}

/// No package has this name, which is given as it was looked up.
#[tactic(auto, unfolding(crate::specs::Causes::package_not_found))]
pub fn package_not_found(alloc: Global, name: &str) -> Result<Condition, NoMemory>
    ensures { IfOk result (λ c. c ≡ package_not_found name.now) }
{
    joined(alloc, TypeId::SimpleError, "Package ", name, " not found.")
}

/// The package with that full name has no external symbol of this name, which is given without its prefix.
#[tactic(auto, unfolding(crate::specs::Causes::symbol_not_external))]
pub fn symbol_not_external(alloc: Global, name: &str, home: &str) -> Result<Condition, NoMemory>
    ensures { IfOk result (λ c. c ≡ symbol_not_external name.now home.now) }
{
    let mut after = Text::of(alloc, " not external in ")?;
    after.push_str(home)?;
    after.push_str(".")?;
    Ok(joined(alloc, TypeId::SimpleError, "Symbol ", name, after.as_str())?)
}
