ghost use Rattle.std.specs.Prelude.{◌≡◌, IfOk};
ghost use Rattle.lisp_data.specs.declared.sexp.Sexp.{out-Sexp};
ghost use Rattle.swank_rpc.specs.Kept as spec;

use lisp_data::{NoMemory, Sexp, Text};
use std::alloc::Global;

fn truth(alloc: Global, holds: bool) -> Result<Sexp, NoMemory>
    ensures { IfOk result (λ form. form ≡ spec.truth holds) }
{
    if holds {
        Sexp::symbol(alloc, "T")
    } else {
        Ok(Sexp::nil(alloc))
    }
}

/// What is kept of a text that begins to be evaluated: whether it has a form, and the full name of the global package.
pub fn keep(alloc: Global, has_form: bool, global: Text) -> Result<Sexp, NoMemory>
    ensures { IfOk result (λ form. form ≡ spec.kept has_form global) }
{
    let items = [truth(alloc, has_form)?, Sexp::Str(global)];
    Ok(Sexp::list(alloc, items)?)
}

fn is_true(form: &Sexp) -> bool
    ensures { result ≡ spec.is_true (out-Sexp form.now) }
{
    match form {
        Sexp::List(items) => !items.is_empty(),
        _ => true,
    }
}

/// Whether the text has a form.
pub fn has_form(kept: &Sexp) -> bool
    ensures { result ≡ spec.has_form kept.now }
{
    match kept.as_list() {
        Some([first, ..]) => is_true(first),
        _ => false,
    }
}

fn is_string(form: &Sexp, text: &Text) -> bool
    ensures { result ≡ spec.is_string text.now (out-Sexp form.now) }
{
    match form.as_text() {
        Some(other) => other.as_str() == text.as_str(),
        None => false,
    }
}

/// Whether the global package had this full name when the evaluation began.
pub fn began_in(kept: &Sexp, global: &Text) -> bool
    ensures { result ≡ spec.began_in kept.now global.now }
{
    match kept.as_list() {
        Some([_, second, ..]) => is_string(second, global),
        _ => false,
    }
}
