ghost use Rattle.std.specs.Prelude.{◌≡◌, ◌++◌, ◌∷◌, [], None, IfOk, OnOk};
ghost use Rattle.step_model.specs.CurrentPackage.{current_package};
ghost use Rattle.swank_rpc.specs.Calls.{is_served};
ghost use Rattle.swank_rpc.specs.Commands.{called};
ghost use Rattle.term_model.specs.declared.focus.Focus.TheVariants as focus;
ghost use Rattle.term_model.specs.declared.found.Found.TheVariants as found;
ghost use Rattle.term_model.specs.declared.plain.Plain.TheVariants as plain;
ghost use Rattle.lisp_step.specs.Rows.{answer_if, called_in, calls, carried, carried_or_left, image_called, image_if, laid, request_of};

use crate::going::lay;
use crate::leaving::leave;
use lisp_data::{NoMemory, Pile, Rows, Sexp, Text};
use lisp_dynamic::current_package;
use lisp_frames::Stack;
use lisp_image::Image;
use rpc_messages::ToEmacs;
use sexp_reader::Placed;
use std::alloc::Global;
use swank_rpc::{Answer, call_rpc, is_served};
use term_model::{Focus, Found, Outcome, Plain};

/// Evaluates the forms of a text inside the layer that makes the reply.
fn evaluate(
    alloc: Global,
    forms: Rows<Placed>,
    kept: Sexp,
    stack: &mut Stack,
) -> Result<(), NoMemory>
    ensures { OnOk result (stack.new ≡ laid stack.old (plain.Answer kept ∷ []) (found.Here (focus.Forms forms None))) }
{
    let mut markers = Rows::new(alloc);
    markers.push(Plain::Answer(kept))?;
    let forms = Pile::of(forms);
    let origin = None;
    lay(
        alloc,
        stack,
        markers,
        Found::Here(Focus::Forms { forms, origin }),
    )
}

/// Does what an answer says: a reply or forms to evaluate stand in place of the redex, and a condition leaves. It says whether it left.
pub(crate) fn carry_out(
    alloc: Global,
    answer: Answer,
    stack: &mut Stack,
    outs: &mut Rows<ToEmacs>,
) -> Result<bool, NoMemory>
    ensures stack { OnOk result (stack.new ≡ (carried stack.old answer).stack) }
    ensures outs { OnOk result (outs.new ≡ outs.old ++ (carried stack.old answer).messages) }
    ensures over { IfOk result (λ over. over ≡ (carried stack.old answer).over) }
{
    match answer {
        Answer::Value(reply) => {
            stack.set_focus(Focus::Given(Outcome::Reply(reply)));
            Ok(false)
        }
        Answer::Run { forms, kept } => {
            evaluate(alloc, forms, kept, stack)?;
            Ok(false)
        }
        Answer::Raised(_) => {
            leave(stack, outs)?;
            Ok(true)
        }
    }
}

/// Calls the function of a request's form; None where it isn't built.
fn call_form(
    alloc: Global,
    form: &Sexp,
    package: &Text,
    image: &mut Image,
) -> Result<Option<Answer>, NoMemory>
    ensures answer { IfOk result (λ answer. answer ≡ answer_if (is_served form.now) (called form.now «package».now image.old)) }
    ensures image { OnOk result (image.new ≡ image_if (is_served form.now) image.old (called form.now «package».now image.old)) }
{
    if !is_served(form) {
        return Ok(None);
    }
    Ok(Some(call_rpc(alloc, form, package, image)?))
}

/// The same with the form of the nearest request, in the current package.
fn call_nearest(alloc: Global, stack: &Stack, image: &mut Image) -> Result<Option<Answer>, NoMemory>
    ensures answer { IfOk result (λ answer. answer ≡ answer_if (is_served (request_of stack.now.context)) (called_in image.old stack.now.context)) }
    ensures image { OnOk result (image.new ≡ image_called image.old stack.now.context) }
{
    let package = current_package(alloc, stack, image)?;
    match stack.served_form() {
        Some(form) => call_form(alloc, form, &package, image),
        None => call_form(alloc, &Sexp::nil(alloc), &package, image),
    }
}

/// Calls the function of the nearest request and does what it answers. It says whether it left.
pub(crate) fn call(
    alloc: Global,
    stack: &mut Stack,
    image: &mut Image,
    outs: &mut Rows<ToEmacs>,
) -> Result<bool, NoMemory>
    ensures stack { OnOk result (stack.new ≡ (calls image.old stack.old).stack) }
    ensures outs { OnOk result (outs.new ≡ outs.old ++ (calls image.old stack.old).messages) }
    ensures over { IfOk result (λ over. over ≡ (calls image.old stack.old).over) }
    ensures image { OnOk result (image.new ≡ image_called image.old stack.old.context) }
{
    match call_nearest(alloc, stack, image)? {
        Some(answer) => carry_out(alloc, answer, stack, outs),
        None => {
            leave(stack, outs)?;
            Ok(true)
        }
    }
}
