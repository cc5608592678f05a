ghost use Rattle.std.specs.Prelude.{◌≡◌, ◌++◌, IfOk, OnOk};
ghost use Rattle.step_model.specs.CurrentPackage.{current_package};
ghost use Rattle.step_model.specs.Perform.{is_top};
ghost use Rattle.swank_rpc.specs.Finishes.{answer_of, written};
ghost use Rattle.term_model.specs.declared.focus.Focus.TheVariants as focus;
ghost use Rattle.term_model.specs.declared.kept.Outcome.TheVariants as outcome;
ghost use Rattle.lisp_frames.specs.Stack.{with_redex, within};
ghost use Rattle.lisp_step.specs.Rows.{ended_in, finished, gives, in_layer, in_plain, request_ended};

use crate::going::give;
use crate::leaving::leave;
use crate::requests::carry_out;
use crate::task::{Part, part_of};
use lisp_data::{NoMemory, Rows, Sexp, Value};
use lisp_dynamic::current_package;
use lisp_frames::Stack;
use lisp_image::Image;
use rpc_messages::{Pattern, Returned, ToEmacs};
use std::alloc::Global;
use swank_rpc::{Answer, end_rpc};
use term_model::{Focus, Frame, Outcome};

/// What the value of the nearest request's forms gives, once its messages are written.
fn end(
    alloc: Global,
    kept: &Sexp,
    value: Value,
    stack: &Stack,
    image: &Image,
    outs: &mut Rows<ToEmacs>,
) -> Result<Answer, NoMemory>
    ensures answer { IfOk result (λ answer. answer ≡ answer_of (ended_in image.now stack.now.context kept.now value)) }
    ensures outs { OnOk result (outs.new ≡ outs.old ++ written (ended_in image.now stack.now.context kept.now value)) }
{
    let package = current_package(alloc, stack, image)?;
    match stack.served_form() {
        Some(form) => end_rpc(alloc, form, kept, value, &package, image, outs),
        None => {
            let form = Sexp::nil(alloc);
            end_rpc(alloc, &form, kept, value, &package, image, outs)
        }
    }
}

/// Makes the reply of a value. It says whether it left; so below.
fn finish(
    alloc: Global,
    kept: &Sexp,
    value: Value,
    stack: &mut Stack,
    image: &Image,
    outs: &mut Rows<ToEmacs>,
) -> Result<bool, NoMemory>
    ensures stack { OnOk result (stack.new ≡ (finished stack.old (ended_in image.now stack.old.context kept.now value)).stack) }
    ensures outs { OnOk result (outs.new ≡ outs.old ++ (finished stack.old (ended_in image.now stack.old.context kept.now value)).messages) }
    ensures over { IfOk result (λ over. over ≡ (finished stack.old (ended_in image.now stack.old.context kept.now value)).over) }
{
    let answer = end(alloc, kept, value, stack, image, outs)?;
    carry_out(alloc, answer, stack, outs)
}

/// Gives an outcome to a plain layer, which is off the stack.
fn give_in_plain(
    alloc: Global,
    part: Part,
    outcome: Outcome,
    stack: &mut Stack,
    image: &Image,
    outs: &mut Rows<ToEmacs>,
) -> Result<bool, NoMemory>
    ensures stack { OnOk result (stack.new ≡ (in_plain image.now stack.old part outcome).stack) }
    ensures outs { OnOk result (outs.new ≡ outs.old ++ (in_plain image.now stack.old part outcome).messages) }
    ensures over { IfOk result (λ over. over ≡ (in_plain image.now stack.old part outcome).over) }
{
    match (part, outcome) {
        (Part::Before(redex), _) => {
            stack.set_focus(redex);
            Ok(false)
        }
        (Part::Answer(kept), Outcome::Value(value)) => {
            finish(alloc, &kept, value, stack, image, outs)
        }
        (Part::Answer(_), outcome) => {
            give(alloc, stack, outcome)?;
            Ok(false)
        }
        (Part::Other, outcome) => {
            give(alloc, stack, outcome)?;
            Ok(false)
        }
    }
}

/// Ends a request, which is off the stack, with its reply. It says whether the request stood at the thread's top.
fn end_request(
    id: i64,
    reply: Sexp,
    stack: &mut Stack,
    outs: &mut Rows<ToEmacs>,
) -> Result<bool, NoMemory>
    ensures stack { OnOk result (stack.new ≡ (request_ended stack.old id reply).stack) }
    ensures outs { OnOk result (outs.new ≡ outs.old ++ (request_ended stack.old id reply).messages) }
    ensures over { IfOk result (λ over. over ≡ (request_ended stack.old id reply).over) }
{
    outs.push(ToEmacs::Return {
        id,
        result: Returned::Ok(reply),
    })?;
    stack.set_focus(Focus::Wait(Pattern::Rex));
    Ok(is_at_top(stack))
}

/// Whether nothing is around the redex.
fn is_at_top(stack: &Stack) -> bool
    ensures { result ≡ is_top stack.now.context }
{
    stack.depth() == 1
}

/// Puts a request back with a value in it, which is no reply.
fn keep_request(request: Frame, value: Value, stack: &mut Stack) -> Result<(), NoMemory>
    ensures { OnOk result (stack.new ≡ with_redex (focus.Given (outcome.Value value)) (within request stack.old)) }
{
    stack.push_over(request)?;
    stack.set_focus(Focus::Given(Outcome::Value(value)));
    Ok(())
}

/// Gives an outcome to the layer that was directly around it and is off the stack.
fn give_in_layer(
    alloc: Global,
    layer: Option<Frame>,
    outcome: Outcome,
    stack: &mut Stack,
    image: &Image,
    outs: &mut Rows<ToEmacs>,
) -> Result<bool, NoMemory>
    ensures stack { OnOk result (stack.new ≡ (in_layer image.now stack.old layer outcome).stack) }
    ensures outs { OnOk result (outs.new ≡ outs.old ++ (in_layer image.now stack.old layer outcome).messages) }
    ensures over { IfOk result (λ over. over ≡ (in_layer image.now stack.old layer outcome).over) }
{
    match (layer, outcome) {
        (Some(Frame::On(layer)), outcome) => {
            give_in_plain(alloc, part_of(layer), outcome, stack, image, outs)
        }
        (Some(Frame::Rex { id, .. }), Outcome::Reply(reply)) => {
            end_request(id, reply, stack, outs)
        }
        (Some(Frame::Rex { at, id, form }), Outcome::Value(value)) => {
            keep_request(Frame::Rex { at, id, form }, value, stack)?;
            Ok(false)
        }
        _ => {
            leave(stack, outs)?;
            Ok(true)
        }
    }
}

/// Gives an outcome to the layer that is directly around the redex.
pub(crate) fn give_outcome(
    alloc: Global,
    outcome: Outcome,
    stack: &mut Stack,
    image: &Image,
    outs: &mut Rows<ToEmacs>,
) -> Result<bool, NoMemory>
    ensures stack { OnOk result (stack.new ≡ (gives image.now stack.old outcome).stack) }
    ensures outs { OnOk result (outs.new ≡ outs.old ++ (gives image.now stack.old outcome).messages) }
    ensures over { IfOk result (λ over. over ≡ (gives image.now stack.old outcome).over) }
{
    let layer = stack.pop();
    give_in_layer(alloc, layer, outcome, stack, image, outs)
}
