ghost use Rattle.std.specs.Prelude.{◌≡◌, ◌≢◌, IfOk};
ghost use Rattle.sexp_reader.specs.Names.{fault_name};
ghost use Rattle.lisp_errors.specs.Causes.{reader_fault as unreadable};
ghost use Rattle.sexp_reader.specs.Answers.{Gives};
ghost use Rattle.swank_rpc.specs.Commands.{answer_of, evaluates};
ghost use Rattle.swank_rpc.specs.Texts as spec;

use crate::Answer;
use crate::kept::keep;
use lisp_data::{Condition, NoMemory, Rows, Text, Value};
use lisp_dynamic::global_package;
use lisp_errors::{MAX_WEIGHT, reader_fault};
use lisp_image::Image;
use sexp_printer::{print_user, user_length};
use sexp_reader::{Placed, ReadFault, read_all};
use std::alloc::Global;

/// The condition of a text that has this fault. Want of memory is none.
fn refusal(alloc: Global, fault: ReadFault) -> Result<Condition, NoMemory>
    ensures condition { IfOk result (λ c. c ≡ unreadable (fault_name fault)) }
    ensures fault { IfOk result (λ _. fault ≢ ReadFault.NoMemory) }
{
    match fault {
        ReadFault::NoMemory => Err(NoMemory),
        _ => reader_fault(alloc, fault.name()),
    }
}

/// The forms of a text, each with its place, or the text's fault.
fn forms(alloc: Global, text: &Text) -> Result<Rows<Placed>, ReadFault>
    ensures { Gives (λ forms. forms) result (spec.forms_of text.now) }
{
    read_all(alloc, text)
}

/// The forms of a text are to be evaluated, or the text has a fault.
pub fn evaluate(alloc: Global, text: &Text, image: &Image) -> Result<Answer, NoMemory>
    ensures { IfOk result (λ answer. answer ≡ answer_of (evaluates image.now text.now)) }
{
    match forms(alloc, text) {
        Ok(forms) => {
            let global = global_package(alloc, image)?;
            let kept = keep(alloc, !forms.is_empty(), global)?;
            Ok(Answer::Run { forms, kept })
        }
        Err(fault) => Ok(Answer::Raised(refusal(alloc, fault)?)),
    }
}

/// The user text of a value, with escape, between these two. None where the whole would be too large: nothing is printed then.
pub fn value_text(
    alloc: Global,
    before: &str,
    value: &Value,
    package: &Text,
    after: &str,
) -> Result<Option<Text>, NoMemory>
    ensures { IfOk result (λ text. text ≡ spec.within (spec.value_text before.now «package».now value.now after.now)) }
{
    let length = user_length(value, package, true)
        .saturating_add(before.len() as u64)
        .saturating_add(after.len() as u64);
    if length >= MAX_WEIGHT {
        return Ok(None);
    }
    let mut text = Text::of(alloc, before)?;
    let shown = print_user(alloc, value, package, true)?;
    text.push_str(shown.as_str())?;
    text.push_str(after)?;
    Ok(Some(text))
}
