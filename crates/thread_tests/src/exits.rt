//! Exits: their targets, and the leaving of layers in two legs, past a protected form.

use crate::samples::{name, symbol};
use lisp_acts::exit;
use lisp_control::{Left, Next, Passed, find_block, find_catch, leave};
use lisp_data::{NoMemory, Rows, Sexp, Shared, Value};
use lisp_frames::{Bring, Focus, Frame, Outcome, Plain, Stack};
use rpc_messages::{Returned, ToEmacs};
use std::alloc::Global;
use std::test::Fail;
use syntax_trees::Forms;
use term_model::Leaving;

/// A catch, a request inside it, a protected form inside that, and a block inside all of them.
fn lay(stack: &mut Stack, alloc: Global) -> Result<(), NoMemory> {
    stack.push_over(Frame::On(Plain::Catch(Value::Int(7))))?;
    stack.push_over(Frame::Rex {
        at: 3,
        id: 9,
        form: Sexp::nil(alloc),
    })?;
    stack.push_over(Frame::Protect {
        serial: 0,
        cleanup: Forms::of(Shared::new(alloc, Rows::new(alloc))?),
    })?;
    stack.push_over(Frame::On(Plain::Block(name(alloc, "B")?)))
}

/// Whether the block and the catch are found by their numbers, and nothing by another name or tag.
fn finds(stack: &Stack, alloc: Global) -> Result<bool, NoMemory> {
    let (block, other) = (symbol(alloc, "B")?, symbol(alloc, "C")?);
    let has_block = find_block(stack, &block) == Some(4) && find_block(stack, &other).is_none();
    let has_catch = find_catch(stack, &Value::Int(7)) == Some(1);
    Ok(has_block && has_catch && find_catch(stack, &Value::Int(8)).is_none())
}

fn is_cleanup(left: Left) -> bool {
    left.passed.as_slice().is_empty() && matches!(&left.next, Next::Cleans { serial: 0, .. })
}

fn is_arrival(left: Left) -> bool {
    matches!(left.passed.as_slice(), [Passed::Request { at: 3, id: 9 }])
        && matches!(&left.next, Next::Arrives(Bring::Nothing))
}

/// Whether an exit to the catch stops at the protected form, and drops the request once it goes on.
fn leaves(stack: &mut Stack, alloc: Global) -> Result<bool, NoMemory> {
    let stops = is_cleanup(leave(stack, alloc, 1, Bring::Nothing)?);
    let keeps = stack.depth() == 4;
    let arrives = is_arrival(leave(stack, alloc, 1, Bring::Nothing)?);
    Ok(stops && keeps && arrives && stack.depth() == 1)
}

#[test]
fn an_exit_stops_at_a_protected_form_and_goes_on(rt: HostRuntime) -> Result<(), Fail> {
    let alloc = rt.alloc();
    let mut stack = Stack::new(alloc);
    lay(&mut stack, alloc)?;
    let found = finds(&stack, alloc)?;
    let left = leaves(&mut stack, alloc)?;
    assert!(rt; found && left);
    Ok(())
}

fn has_value(stack: &Stack) -> bool {
    matches!(stack.focus(), Focus::Given(Outcome::Value(Value::Int(5)))) && stack.depth() == 1
}

fn is_aborted(outs: Rows<ToEmacs>) -> bool {
    matches!(
        outs.as_slice(),
        [ToEmacs::Return {
            id: 9,
            result: Returned::Abort
        }]
    )
}

#[test]
fn an_exit_tells_what_it_drops_and_brings_its_value(rt: HostRuntime) -> Result<(), Fail> {
    let alloc = rt.alloc();
    let mut stack = Stack::new(alloc);
    stack.push_over(Frame::On(Plain::Catch(Value::Int(7))))?;
    let form = Sexp::nil(alloc);
    stack.push_over(Frame::Rex { at: 3, id: 9, form })?;
    let bring = Bring::Value(Value::Int(5));
    let mut outs = Rows::new(alloc);
    let over = exit(
        alloc,
        Leaving { target: 1, bring },
        1,
        &mut stack,
        &mut outs,
    )?;
    let brought = !over && has_value(&stack) && is_aborted(outs);
    assert!(rt; brought);
    Ok(())
}
