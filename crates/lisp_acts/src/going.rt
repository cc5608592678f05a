ghost use Rattle.std.specs.Prelude.{◌≡◌, [], OnOk};
ghost use Rattle.lisp_acts.specs.Amid.{Rest, amid};
ghost use Rattle.lisp_frames.specs.Stack.{with_context};
ghost use Rattle.step_model.specs.Perform.{cut_off, gives, goes, lays};
ghost use Rattle.term_model.specs.declared.kept.Outcome.TheVariants as outcome;

use lisp_data::{NoMemory, Rows, Value};
use lisp_frames::Stack;
use std::alloc::Global;
use term_model::{Focus, Found, Frame, Outcome, Plain};

/// Without the cleanup that is past the limit of layers.
fn cut_off(stack: &mut Stack) -> Result<(), NoMemory>
    ensures { OnOk result (stack.new ≡ with_context (cut_off stack.old.context) stack.old) }
{
    match stack.pop() {
        None => {}
        Some(Frame::Cleanup { .. }) => {}
        Some(frame) => stack.push_over(frame)?,
    }
    Ok(())
}

/// Puts markers around the redex, the outermost first, and goes in from what was found inside them. Where there is no room for a layer
/// the thread leaves next.
#[tactic(auto, using(crate::proofs::LevelLemmas::none_opened))]
pub fn lay(
    alloc: Global,
    stack: &mut Stack,
    markers: Rows<Plain>,
    found: Found,
) -> Result<(), NoMemory>
    ensures { OnOk result ((r : Rest) → lays (amid r stack.old) markers found ≡ amid r stack.new) }
{
    stack.set_focus(Focus::Abort);
    if stack.is_within() {
        stack.lay(alloc, markers, found)?;
    } else {
        cut_off(stack)?;
    }
    Ok(())
}

/// Gives a value to what is directly around the redex: a form that waits for it goes on.
#[tactic(auto, using(crate::proofs::GoingLemmas::gives_on))]
pub fn give_value(alloc: Global, stack: &mut Stack, value: Value) -> Result<(), NoMemory>
    ensures { OnOk result ((r : Rest) → gives (amid r stack.old) (outcome.Value value) ≡ amid r stack.new) }
{
    if let Some(found) = stack.resume(alloc, value)? {
        lay(alloc, stack, Rows::new(alloc), found)?;
    }
    Ok(())
}

/// Gives an outcome to what is directly around the redex.
pub fn give(alloc: Global, stack: &mut Stack, outcome: Outcome) -> Result<(), NoMemory>
    ensures { OnOk result ((r : Rest) → gives (amid r stack.old) outcome ≡ amid r stack.new) }
{
    match outcome {
        Outcome::Value(value) => give_value(alloc, stack, value)?,
        Outcome::Reply(reply) => stack.set_focus(Focus::Given(Outcome::Reply(reply))),
    }
    Ok(())
}

fn go_alone(alloc: Global, stack: &mut Stack, found: Found) -> Result<(), NoMemory>
    ensures { OnOk result ((r : Rest) → goes (amid r stack.old) [] found ≡ amid r stack.new) }
{
    match found {
        Found::Already(value) => give_value(alloc, stack, value)?,
        found => lay(alloc, stack, Rows::new(alloc), found)?,
    }
    Ok(())
}

/// The same with what was found where there may be no marker: then a value goes to what is directly around.
pub fn go(
    alloc: Global,
    stack: &mut Stack,
    markers: Rows<Plain>,
    found: Found,
) -> Result<(), NoMemory>
    ensures { OnOk result ((r : Rest) → goes (amid r stack.old) markers found ≡ amid r stack.new) }
{
    if markers.is_empty() {
        return Ok(go_alone(alloc, stack, found)?);
    }
    lay(alloc, stack, markers, found)?;
    Ok(())
}
