ghost use Rattle.std.specs.Prelude.{◌≡◌, option_map};
ghost use Rattle.std.specs.Option.{option_copied};
ghost use Rattle.lisp_data.specs.declared.sexp.Sexp.{out-Sexp};
ghost use Rattle.swank_rpc.specs.Calls as calls;

use crate::function::is_unbuilt;
use lisp_data::{Sexp, Text};
use lisp_errors::MAX_WEIGHT;

/// A form's head and its arguments, where it is a list with a symbol as head.
pub fn parts(form: &Sexp) -> Option<(&Text, &[Sexp])>
    ensures { option_map (λ call. (call.0.now, call.1.now)) result ≡ calls.parts form.now }
{
    match form.as_list() {
        Some([head, arguments @ ..]) => match head.as_symbol() {
            Some(token) => Some((token, arguments)),
            None => None,
        },
        _ => None,
    }
}

/// Whether a form weighs more than a request's may.
pub fn is_too_heavy(form: &Sexp) -> bool
    ensures { result ≡ calls.is_too_heavy form.now }
{
    form.weight() > MAX_WEIGHT
}

/// Whether the function that a request's form calls is built. It holds too of a form that calls none of the functions: it raises.
pub fn is_served(call: &Sexp) -> bool
    ensures { result ≡ calls.is_served call.now }
{
    match parts(call) {
        Some((head, _)) => !is_unbuilt(head.as_str()),
        None => true,
    }
}

fn is_quote(form: &Sexp) -> bool
    ensures { result ≡ calls.is_quote (out-Sexp form.now) }
{
    match form {
        Sexp::Sym(token) => token.as_str().eq_ignore_ascii_case("QUOTE"),
        _ => false,
    }
}

/// An argument that is a string, as a literal or quoted.
fn text_of(form: &Sexp) -> Option<&Text>
    ensures { option_copied result ≡ calls.text_of (out-Sexp form.now) }
{
    match form {
        Sexp::Str(text) => Some(text),
        Sexp::List(items) => match items.as_slice() {
            [mark, quoted] => {
                if is_quote(mark) {
                    quoted.as_text()
                } else {
                    None
                }
            }
            _ => None,
        },
        _ => None,
    }
}

/// The first argument, where it is a string.
pub fn first_text(arguments: &[Sexp]) -> Option<&Text>
    ensures { option_copied result ≡ calls.first_text arguments.now }
{
    match arguments {
        [argument, ..] => text_of(argument),
        [] => None,
    }
}
