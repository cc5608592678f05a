ghost use Rattle.std.specs.Prelude.{◌≡◌, IfOk, OnOk};
ghost use Rattle.swank_rpc.specs.Calls.{first_text as argument};
ghost use Rattle.swank_rpc.specs.Commands.{answer_of, called, evaluates, image_after, row, sets_package, with_text};
ghost use Rattle.lisp_errors.specs.Causes.{bad_arguments as no_arguments};
ghost use Rattle.swank_rpc.specs.Names as names;
ghost use Rattle.swank_rpc.specs.declared.answer.Answer.TheVariants as answers;
ghost use Rattle.swank_rpc.specs.declared.function.SwankFunction.TheVariants as function;

use crate::Answer;
use crate::call::{first_text, is_too_heavy, parts};
use crate::function::{SwankFunction, function_of, name_of};
use crate::packages::{connection_info, package_names, repl_package};
use crate::refusal::{bad_call, unknown_function};
use crate::text::evaluate;
use lisp_data::{NoMemory, Sexp, Text};
use lisp_dynamic::set_global_package;
use lisp_errors::{bad_arguments, package_not_found, value_too_large};
use lisp_image::Image;
use std::alloc::Global;

/// The function's arguments are missing, or not of the kind that it takes.
fn refuse(alloc: Global, function: SwankFunction) -> Result<Answer, NoMemory>
    ensures { IfOk result (λ answer. answer ≡ answers.Raised (no_arguments (names.name_of function))) }
{
    Ok(Answer::Raised(bad_arguments(alloc, name_of(function))?))
}

/// Makes the package that a text names the global one, and answers its name and prompt.
fn set_package(alloc: Global, text: &Text, image: &mut Image) -> Result<Answer, NoMemory>
    ensures answer { IfOk result (λ answer. answer ≡ answer_of (sets_package image.old text.now)) }
    ensures image { OnOk result (image.new ≡ image_after (sets_package image.old text.now) image.old) }
{
    let global = match image.names().find_package(text) {
        Some(name) => name.copy(alloc)?,
        None => return Ok(Answer::Raised(package_not_found(alloc, text.as_str())?)),
    };
    set_global_package(image, global)?;
    Ok(Answer::Value(repl_package(alloc, image)?))
}

/// Sets the global package to the one that the first argument names.
fn set_named_package(
    alloc: Global,
    arguments: &[Sexp],
    image: &mut Image,
) -> Result<Answer, NoMemory>
    ensures answer { IfOk result (λ answer. answer ≡ answer_of (with_text function.SetPackage (argument arguments.now) (sets_package image.old))) }
    ensures image { OnOk result (image.new ≡ image_after (with_text function.SetPackage (argument arguments.now) (sets_package image.old)) image.old) }
{
    match first_text(arguments) {
        Some(text) => set_package(alloc, text, image),
        None => refuse(alloc, SwankFunction::SetPackage),
    }
}

/// Evaluates the text that is the first argument.
fn evaluate_argument(
    alloc: Global,
    function: SwankFunction,
    arguments: &[Sexp],
    image: &Image,
) -> Result<Answer, NoMemory>
    ensures { IfOk result (λ answer. answer ≡ answer_of (with_text function (argument arguments.now) (evaluates image.now))) }
{
    match first_text(arguments) {
        Some(text) => evaluate(alloc, text, image),
        None => refuse(alloc, function),
    }
}

/// Calls a function with these arguments.
fn call_function(
    alloc: Global,
    function: SwankFunction,
    arguments: &[Sexp],
    image: &mut Image,
) -> Result<Answer, NoMemory>
    ensures answer { IfOk result (λ answer. answer ≡ answer_of (row image.old arguments.now function)) }
    ensures image { OnOk result (image.new ≡ image_after (row image.old arguments.now function) image.old) }
{
    match function {
        SwankFunction::ConnectionInfo => Ok(Answer::Value(connection_info(alloc, image)?)),
        SwankFunction::CreateRepl => Ok(Answer::Value(repl_package(alloc, image)?)),
        SwankFunction::SetPackage => set_named_package(alloc, arguments, image),
        SwankFunction::SwankRequire => Ok(Answer::Value(Sexp::nil(alloc))),
        SwankFunction::BufferFirstChange => Ok(Answer::Value(Sexp::nil(alloc))),
        SwankFunction::InteractiveEval => evaluate_argument(alloc, function, arguments, image),
        SwankFunction::InteractiveEvalRegion => evaluate_argument(
            alloc, function, arguments, image,
        ),
        SwankFunction::ListenerEval => evaluate_argument(alloc, function, arguments, image),
        SwankFunction::ListAllPackageNames => {
            Ok(Answer::Value(package_names(alloc, image.names())?))
        }
    }
}

/// What the function that a request's form calls says is to be done. The package is the full name of the thread's current one. Of the
/// functions that are built only `set-package` changes the image: it sets the global value of `*PACKAGE*`. After want of memory nothing
/// is said of the image.
pub fn call_rpc(
    alloc: Global,
    call: &Sexp,
    package: &Text,
    image: &mut Image,
) -> Result<Answer, NoMemory>
    ensures answer { IfOk result (λ answer. answer ≡ answer_of (called call.now «package».now image.old)) }
    ensures image { OnOk result (image.new ≡ image_after (called call.now «package».now image.old) image.old) }
{
    if is_too_heavy(call) {
        return Ok(Answer::Raised(value_too_large(alloc)?));
    }
    match parts(call) {
        Some((head, arguments)) => match function_of(head.as_str()) {
            Some(function) => call_function(alloc, function, arguments, image),
            None => Ok(Answer::Raised(unknown_function(alloc, head, package)?)),
        },
        None => Ok(Answer::Raised(bad_call(alloc, call)?)),
    }
}
