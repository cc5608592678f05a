ghost use Rattle.std.specs.Prelude.{◌≡◌, IfOk};
ghost use Rattle.std.specs.List.{list_any};
ghost use Rattle.std.specs.Str.{bytes_eq};
ghost use Rattle.lisp_data.specs.declared.sexp.Sexp.TheViews.{out-Sexp};
ghost use Rattle.step_model.specs.CurrentPackage.{bare_name, binds_package, bound_if, bound_package, global_value, head_in, headed_by, without_mark, without_quotes};
ghost use Rattle.lisp_dynamic.specs.Values.{bound_in};
ghost use Rattle.lisp_packages.specs.Packages.{place_of};

use crate::packages::USER_PACKAGE;
use lisp_data::{NoMemory, Sexp, Text, Value};
use lisp_image::Image;
use std::alloc::Global;

/// The heads of the requests that work in the global package.
const UNBOUND_HEADS: [&str; 8] = [
    "SWANK:LISTENER-EVAL",
    "SWANK::LISTENER-EVAL",
    "SWANK-REPL:LISTENER-EVAL",
    "SWANK-REPL::LISTENER-EVAL",
    "SWANK:CREATE-REPL",
    "SWANK::CREATE-REPL",
    "SWANK-REPL:CREATE-REPL",
    "SWANK-REPL::CREATE-REPL",
];

/// Without `#:` or `:` at the front.
fn without_mark(text: &str) -> &str
    ensures { result.now ≡ without_mark text.now }
{
    if let Some(name) = text.strip_prefix("#:") {
        return name;
    }
    match text.strip_prefix(":") {
        Some(name) => name,
        None => text,
    }
}

/// Without double quotes around it.
fn without_quotes(text: &str) -> &str
    ensures { result.now ≡ without_quotes text.now }
{
    match text.strip_prefix("\"") {
        Some(rest) => match rest.strip_suffix("\"") {
            Some(name) => name,
            None => text,
        },
        None => text,
    }
}

/// The name of a package as a request writes it, in upper case.
fn bare_name(alloc: Global, text: &str) -> Result<Text, NoMemory>
    ensures { IfOk result (λ name. name ≡ bare_name text.now) }
{
    Text::ascii_uppercase(alloc, without_quotes(without_mark(text)))
}

/// A copy of the global value of `*PACKAGE*`.
fn global_value(alloc: Global, image: &Image) -> Result<Value, NoMemory>
    ensures { IfOk result (λ value. value ≡ global_value image.now) }
{
    match image.global(image.package_variable().symbol()) {
        Some(value) => value.copy(alloc),
        None => Ok(Value::Str(Text::of(alloc, USER_PACKAGE)?)),
    }
}

/// What a request of this package binds `*PACKAGE*` to.
fn bound_package(alloc: Global, image: &Image, package: Option<Text>) -> Result<Value, NoMemory>
    ensures { IfOk result (λ value. value ≡ bound_package image.now «package») }
{
    match package {
        Some(text) => bound_name(alloc, image, text.as_str()),
        None => global_value(alloc, image),
    }
}

/// The name itself where it names a package, else the global value.
fn bound_name(alloc: Global, image: &Image, text: &str) -> Result<Value, NoMemory>
    ensures { IfOk result (λ value. value ≡ bound_if (place_of image.now.packages (bare_name text.now)) (bare_name text.now) (global_value image.now)) }
{
    let name = bare_name(alloc, text)?;
    match image.names().find_package(&name) {
        Some(_) => Ok(Value::Str(name)),
        None => global_value(alloc, image),
    }
}

/// A symbol's name in upper case; of another form the empty text.
fn upper_name(alloc: Global, form: &Sexp) -> Result<Text, NoMemory>
    ensures { IfOk result (λ name. name ≡ head_in (out-Sexp form.now)) }
{
    match form {
        Sexp::Sym(token) => Text::ascii_uppercase(alloc, token.as_str()),
        _ => Ok(Text::new(alloc)),
    }
}

/// The head of a request's form in upper case.
fn upper_head(alloc: Global, form: &Sexp) -> Result<Text, NoMemory>
    ensures { IfOk result (λ name. name ≡ headed_by (out-Sexp form.now)) }
{
    match form {
        Sexp::List(items) => match items.as_slice() {
            [head, ..] => upper_name(alloc, head),
            [] => Ok(Text::new(alloc)),
        },
        _ => Ok(Text::new(alloc)),
    }
}

fn is_among(names: &[&str], name: &str) -> bool
    ensures { result ≡ list_any (λ other. bytes_eq name.now other.now) names.now }
{
    names.iter().any(|other| name == *other)
}

/// Whether a request of this form binds `*PACKAGE*`.
fn binds_package(alloc: Global, form: &Sexp) -> Result<bool, NoMemory>
    ensures { IfOk result (λ binds. binds ≡ binds_package form.now) }
{
    let head = upper_head(alloc, form)?;
    Ok(!is_among(&UNBOUND_HEADS, head.as_str()))
}

/// What a request of this form and this package binds `*PACKAGE*` to; None where it has no such binding.
pub fn package_of_request(
    alloc: Global,
    image: &Image,
    form: &Sexp,
    package: Option<Text>,
) -> Result<Option<Value>, NoMemory>
    ensures { IfOk result (λ value. value ≡ bound_in (binds_package form.now) (bound_package image.now «package»)) }
{
    if !binds_package(alloc, form)? {
        return Ok(None);
    }
    Ok(Some(bound_package(alloc, image, package)?))
}
