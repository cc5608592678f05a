ghost use Rattle.std.specs.Prelude.{◌≡◌, ◌++◌, codes, map, IfOk, OnOk};
ghost use Rattle.swank_rpc.specs.Finishes.{answer_of, ended, function_called as called_function, message_of, new_package, replies_value, writes_text, writes_value, written};
ghost use Rattle.swank_rpc.specs.Texts.{no_value};
ghost use Rattle.swank_rpc.specs.Kept.{has_form as is_some_form};

use crate::Answer;
use crate::call::parts;
use crate::function::{SwankFunction, function_of};
use crate::kept::{began_in, has_form};
use crate::packages::prompt;
use crate::text::value_text;
use lisp_data::{NoMemory, Rows, Sexp, Text, Value};
use lisp_dynamic::global_package;
use lisp_errors::value_too_large;
use lisp_image::Image;
use rpc_messages::ToEmacs;
use std::alloc::Global;

const NO_VALUE: &str = "; No value";

/// The function that a request's form calls.
fn function_called(call: &Sexp) -> Option<SwankFunction>
    ensures { result ≡ called_function call.now }
{
    match parts(call) {
        Some((head, _)) => function_of(head.as_str()),
        None => None,
    }
}

/// The reply `"=> V"`, or that there is no value.
fn reply(alloc: Global, has_form: bool, value: &Value, package: &Text) -> Result<Answer, NoMemory>
    ensures { IfOk result (λ answer. answer ≡ answer_of (replies_value has_form value.now «package».now)) }
{
    if !has_form {
        return Ok(Answer::Value(Sexp::string(alloc, NO_VALUE)?));
    }
    match value_text(alloc, "=> ", value, package, "")? {
        Some(text) => Ok(Answer::Value(Sexp::Str(text))),
        None => Ok(Answer::Raised(value_too_large(alloc)?)),
    }
}

/// Tells the global package where it isn't that of the beginning.
fn tell_package(
    alloc: Global,
    kept: &Sexp,
    image: &Image,
    outs: &mut Rows<ToEmacs>,
) -> Result<(), NoMemory>
    ensures { OnOk result (outs.new ≡ outs.old ++ map message_of (new_package kept.now image.now)) }
{
    let name = global_package(alloc, image)?;
    if began_in(kept, &name) {
        return Ok(());
    }
    let prompt = prompt(alloc, image.names(), &name)?;
    outs.push(ToEmacs::NewPackage { name, prompt })?;
    Ok(())
}

/// Writes the result of the REPL, and then the new package.
fn write_text(
    alloc: Global,
    kept: &Sexp,
    image: &Image,
    text: Text,
    outs: &mut Rows<ToEmacs>,
) -> Result<Answer, NoMemory>
    ensures answer { IfOk result (λ answer. answer ≡ answer_of (writes_text kept.now image.now text)) }
    ensures outs { OnOk result (outs.new ≡ outs.old ++ written (writes_text kept.now image.now text)) }
{
    outs.push(ToEmacs::WriteString {
        text,
        repl_result: true,
    })?;
    tell_package(alloc, kept, image, outs)?;
    Ok(Answer::Value(Sexp::nil(alloc)))
}

/// That there is no value, and a newline.
fn no_value_line(alloc: Global) -> Result<Text, NoMemory>
    ensures { IfOk result (λ text. text ≡ no_value ++ codes "\n") }
{
    let mut text = Text::of(alloc, NO_VALUE)?;
    text.push_str("\n")?;
    Ok(text)
}

/// Writes V, or that there is no value, and a newline.
fn write_value(
    alloc: Global,
    kept: &Sexp,
    value: &Value,
    package: &Text,
    image: &Image,
    outs: &mut Rows<ToEmacs>,
) -> Result<Answer, NoMemory>
    ensures answer { IfOk result (λ answer. answer ≡ answer_of (writes_value (is_some_form kept.now) kept.now value.now «package».now image.now)) }
    ensures outs { OnOk result (outs.new ≡ outs.old ++ written (writes_value (is_some_form kept.now) kept.now value.now «package».now image.now)) }
{
    if !has_form(kept) {
        let text = no_value_line(alloc)?;
        return write_text(alloc, kept, image, text, outs);
    }
    match value_text(alloc, "", value, package, "\n")? {
        Some(text) => write_text(alloc, kept, image, text, outs),
        None => Ok(Answer::Raised(value_too_large(alloc)?)),
    }
}

/// What the value of a request's forms gives, once they are evaluated: messages at the end of `outs`, and the reply, or what is raised.
/// `kept` is what [`call_rpc`](crate::call_rpc) gave with the forms, and the package is the full name of the thread's current one.
/// After want of memory nothing is said of `outs`.
pub fn end_rpc(
    alloc: Global,
    call: &Sexp,
    kept: &Sexp,
    value: Value,
    package: &Text,
    image: &Image,
    outs: &mut Rows<ToEmacs>,
) -> Result<Answer, NoMemory>
    ensures answer { IfOk result (λ answer. answer ≡ answer_of (ended call.now kept.now value «package».now image.now)) }
    ensures outs { OnOk result (outs.new ≡ outs.old ++ written (ended call.now kept.now value «package».now image.now)) }
{
    match function_called(call) {
        Some(SwankFunction::InteractiveEval) => reply(alloc, has_form(kept), &value, package),
        Some(SwankFunction::InteractiveEvalRegion) => reply(alloc, has_form(kept), &value, package),
        Some(SwankFunction::ListenerEval) => write_value(alloc, kept, &value, package, image, outs),
        _ => Ok(Answer::Value(Sexp::nil(alloc))),
    }
}
