ghost use Rattle.std.specs.Prelude.{◌≡◌, ◌++◌, IfOk, OnOk};
ghost use Rattle.std.specs.Str.{chars};
ghost use Rattle.sexp_printer.specs.Case.{change_of};
ghost use Rattle.sexp_printer.specs.Plain.{IsPlain};
ghost use Rattle.sexp_printer.specs.Printed.{changed, text_of, printed, shown};
ghost use Rattle.sexp_reader.specs.Grammar.{max_open, IsSpelled};

use crate::piece::{write_integer, write_quoted};
use lisp_data::{NoMemory, Sexp, Text};
use std::alloc::Global;

/// The case in which symbols are printed.
#[derive(Clone, Copy, Debug, PartialEq, Eq)]
enum Case {
    Lower,
    Upper,
}

fn in_case(case: Case, c: char) -> char
    ensures { result ≡ change_of case c }
{
    match case {
        Case::Lower => c.to_ascii_lowercase(),
        Case::Upper => c.to_ascii_uppercase(),
    }
}

fn write_symbol(out: &mut Text, case: Case, token: &str) -> Result<(), NoMemory>
    ensures { OnOk result (out.new ≡ out.old ++ changed (change_of case) token.now) }
{
    let mut rest = token.chars();
    while let Some(c) = rest.next() {
        out.push(in_case(case, c))?;
    }
    Ok(())
}

fn write(out: &mut Text, case: Case, form: &Sexp) -> Result<(), NoMemory>
    ensures { OnOk result (out.new ≡ out.old ++ text_of (change_of case) form.now) }
{
    match form {
        Sexp::Int(number) => write_integer(out, *number),
        Sexp::Str(text) => write_quoted(out, text.as_str()),
        Sexp::Sym(token) => write_symbol(out, case, token.as_str()),
        Sexp::List(items) => match items.as_slice() {
            [] => write_symbol(out, case, "NIL"),
            [first, others @ ..] => {
                out.push('(')?;
                write(out, case, first)?;
                for item in others {
                    out.push(' ')?;
                    write(out, case, item)?;
                }
                out.push(')')
            }
        },
    }
}

fn print_in(alloc: Global, case: Case, form: &Sexp) -> Result<Text, NoMemory>
    ensures { IfOk result (λ text. text ≡ text_of (change_of case) form.now) }
{
    let mut out = Text::new(alloc);
    write(&mut out, case, form)?;
    Ok(out)
}

/// The wire text of a form: symbols and `nil` in lower case, as SLIME's `swank/rpc.lisp` prints them. The text of a plain form
/// is read back as that form.
pub fn print_wire(alloc: Global, form: &Sexp) -> Result<Text, NoMemory>
    ensures text { IfOk result (λ text. text ≡ printed form.now) }
    ensures spelled { IsPlain max_open form.now → IfOk result (λ text. IsSpelled (chars text) form.now) }
{
    print_in(alloc, Case::Lower, form)
}

/// The text of a form as it is shown: as on the wire, with symbols and `NIL` in upper case.
pub fn print_form(alloc: Global, form: &Sexp) -> Result<Text, NoMemory>
    ensures text { IfOk result (λ text. text ≡ shown form.now) }
{
    print_in(alloc, Case::Upper, form)
}
