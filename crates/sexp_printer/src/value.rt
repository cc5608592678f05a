ghost use Rattle.std.specs.Prelude.{◌≡◌, ◌++◌, IfOk, OnOk};
ghost use Rattle.sexp_printer.specs.UserText.{is_bare, symbol_text, string_text, condition_text, user_text};

use crate::piece::{write_integer, write_quoted};
use lisp_data::{COMMON_LISP, Condition, NoMemory, Symbol, Text, Value};
use std::alloc::Global;

/// Whether a symbol with this home prints by its name alone.
pub fn is_bare(home: &str, current: &str) -> bool
    ensures { result ≡ is_bare home.now current.now }
{
    home == COMMON_LISP || home == current
}

fn write_symbol(out: &mut Text, current: &str, symbol: &Symbol) -> Result<(), NoMemory>
    ensures { OnOk result (out.new ≡ out.old ++ symbol_text current.now symbol.now) }
{
    let home = symbol.home.as_str();
    let name = symbol.name.as_str();
    if symbol.is_keyword() {
        out.push(':')?;
        return out.push_str(name);
    }
    if is_bare(home, current) {
        return out.push_str(name);
    }
    out.push_str(home)?;
    out.push_str("::")?;
    out.push_str(name)
}

fn write_condition(out: &mut Text, escape: bool, condition: &Condition) -> Result<(), NoMemory>
    ensures { OnOk result (out.new ≡ out.old ++ condition_text escape condition.now.kind condition.now.message) }
{
    let message = condition.message.as_str();
    if !escape {
        return out.push_str(message);
    }
    out.push_str("#<")?;
    out.push_str(condition.kind.name())?;
    out.push(' ')?;
    write_quoted(out, message)?;
    out.push('>')
}

fn write_string(out: &mut Text, escape: bool, text: &str) -> Result<(), NoMemory>
    ensures { OnOk result (out.new ≡ out.old ++ string_text escape text.now) }
{
    if escape {
        write_quoted(out, text)
    } else {
        out.push_str(text)
    }
}

fn write(out: &mut Text, current: &str, escape: bool, value: &Value) -> Result<(), NoMemory>
    ensures { OnOk result (out.new ≡ out.old ++ user_text current.now escape value.now) }
{
    match value {
        Value::Int(number) => write_integer(out, *number),
        Value::Str(text) => write_string(out, escape, text.as_str()),
        Value::Sym(name) => write_symbol(out, current, name.symbol()),
        Value::List(items) => match items.as_slice() {
            [] => out.push_str("NIL"),
            [first, others @ ..] => {
                out.push('(')?;
                write(out, current, escape, first)?;
                for item in others {
                    out.push(' ')?;
                    write(out, current, escape, item)?;
                }
                out.push(')')
            }
        },
        Value::Cond(condition) => write_condition(out, escape, condition.get()),
    }
}

/// The user text of a value. The package is the full name of the current one, whose symbols print by their names alone. Escape
/// tells whether strings stand in double quotes and conditions with their types, inside lists too (HyperSpec, functions PRIN1
/// and PRINC).
pub fn print_user(
    alloc: Global,
    value: &Value,
    package: &Text,
    escape: bool,
) -> Result<Text, NoMemory>
    ensures text { IfOk result (λ text. text ≡ user_text «package».now escape value.now) }
{
    let mut out = Text::new(alloc);
    write(&mut out, package.as_str(), escape, value)?;
    Ok(out)
}
