ghost use Rattle.std.specs.Prelude.{◌≡◌, IfOk};
ghost use Rattle.lisp_data.specs.declared.value.Value.TheVariants as value;
ghost use Rattle.lisp_data.specs.Symbols.{cl};
ghost use Rattle.swank_rpc.specs.Calls as calls;

use lisp_data::{Condition, Name, NoMemory, Sexp, Text, TypeId, Value};
use lisp_errors::{limited, undefined_function};
use sexp_printer::print_form;
use std::alloc::Global;

/// The form is no list with a symbol as head.
pub fn bad_call(alloc: Global, form: &Sexp) -> Result<Condition, NoMemory>
    ensures { IfOk result (λ c. c ≡ calls.bad_call form.now) }
{
    let mut message = Text::of(alloc, "Bad form: ")?;
    let shown = print_form(alloc, form)?;
    message.push_str(shown.as_str())?;
    let datum = Value::nil(alloc);
    Ok(limited(
        alloc,
        Condition {
            kind: TypeId::ProgramError,
            message,
            datum,
        },
    )?)
}

/// A head that no package resolves, as a symbol with its token as name.
fn head_symbol(alloc: Global, head: &Text) -> Result<Value, NoMemory>
    ensures { IfOk result (λ symbol. symbol ≡ value.Sym (cl head.now)) }
{
    Ok(Value::Sym(Name::common_lisp(alloc, head.as_str())?))
}

/// The head names no function. The package is the full name of the current one.
pub fn unknown_function(alloc: Global, head: &Text, package: &Text) -> Result<Condition, NoMemory>
    ensures { IfOk result (λ c. c ≡ calls.unknown_function «package».now head.now) }
{
    let symbol = head_symbol(alloc, head)?;
    undefined_function(alloc, &symbol, package)
}
