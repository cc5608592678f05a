ghost use Rattle.std.specs.Prelude.{◌≡◌, [], OnOk};
ghost use Rattle.lisp_step.specs.Rows.{given, given_value, gone, laid};

use lisp_data::{NoMemory, Rows, Value};
use lisp_frames::Stack;
use std::alloc::Global;
use term_model::{Focus, Found, Outcome, Plain};

/// Puts markers around the redex, the outermost first, and goes in from what was found inside them. Where there is no room for a layer
/// the thread leaves next.
pub(crate) fn lay(
    alloc: Global,
    stack: &mut Stack,
    markers: Rows<Plain>,
    found: Found,
) -> Result<(), NoMemory>
    ensures { OnOk result (stack.new ≡ laid stack.old markers found) }
{
    stack.set_focus(Focus::Abort);
    if stack.is_within() {
        stack.lay(alloc, markers, found)?;
    }
    Ok(())
}

/// Gives a value to what is directly around the redex: a form that waits for it goes on.
pub(crate) fn give_value(alloc: Global, stack: &mut Stack, value: Value) -> Result<(), NoMemory>
    ensures { OnOk result (stack.new ≡ given_value stack.old value) }
{
    if let Some(found) = stack.resume(alloc, value)? {
        lay(alloc, stack, Rows::new(alloc), found)?;
    }
    Ok(())
}

/// Gives an outcome to what is directly around the redex.
pub(crate) fn give(alloc: Global, stack: &mut Stack, outcome: Outcome) -> Result<(), NoMemory>
    ensures { OnOk result (stack.new ≡ given stack.old outcome) }
{
    match outcome {
        Outcome::Value(value) => give_value(alloc, stack, value)?,
        Outcome::Reply(reply) => stack.set_focus(Focus::Given(Outcome::Reply(reply))),
    }
    Ok(())
}

fn go_alone(alloc: Global, stack: &mut Stack, found: Found) -> Result<(), NoMemory>
    ensures { OnOk result (stack.new ≡ gone stack.old [] found) }
{
    match found {
        Found::Already(value) => give_value(alloc, stack, value)?,
        found => lay(alloc, stack, Rows::new(alloc), found)?,
    }
    Ok(())
}

/// The same with what was found where there may be no marker: then a value goes to what is directly around.
pub(crate) fn go(
    alloc: Global,
    stack: &mut Stack,
    markers: Rows<Plain>,
    found: Found,
) -> Result<(), NoMemory>
    ensures { OnOk result (stack.new ≡ gone stack.old markers found) }
{
    if markers.is_empty() {
        return Ok(go_alone(alloc, stack, found)?);
    }
    lay(alloc, stack, markers, found)?;
    Ok(())
}
