//! Restarts: the innermost visible one of a name, and the exits that invoking makes.

use crate::samples::{name, symbol};
use conditions_restarts::{abort_exit, find_restart, invoke};
use lisp_data::{Name, NoMemory, Rows, Text, Value};
use lisp_frames::{Action, Bring, Frame, Offer, Outcome, Plain, Stack};
use std::alloc::Global;
use std::test::Fail;
use term_model::Leaving;

/// Lays a layer that offers a restart of this name, which gives this number.
fn offer(stack: &mut Stack, alloc: Global, restart: Name, number: i64) -> Result<(), NoMemory> {
    let mut offers = Rows::new(alloc);
    offers.push(Offer {
        name: restart,
        text: Text::of(alloc, "Go on.")?,
        action: Action::Give(Outcome::Value(Value::Int(number))),
    })?;
    stack.push_over(Frame::On(Plain::Restarts(offers)))
}

/// Whether an exit brings this number to the layer of this one.
fn brings(exit: Leaving, layer: u64, number: i64) -> bool {
    exit.target == layer
        && matches!(&exit.bring, Bring::Value(Value::Int(found)) if *found == number)
}

fn leaves_all(exit: Leaving) -> bool {
    exit.target == 0 && matches!(&exit.bring, Bring::Nothing)
}

/// Whether the restart of this name that is invoked brings this number to the layer of this one.
fn invokes(
    stack: &Stack,
    alloc: Global,
    restart: &str,
    layer: u64,
    number: i64,
) -> Result<bool, NoMemory> {
    let wanted = symbol(alloc, restart)?;
    let Some(place) = find_restart(stack, &wanted) else {
        return Ok(false);
    };
    match invoke(stack, alloc, place, Rows::new(alloc))? {
        Some(exit) => Ok(brings(exit, layer, number)),
        None => Ok(false),
    }
}

#[test]
fn the_innermost_restart_of_a_name_is_invoked(rt: HostRuntime) -> Result<(), Fail> {
    let alloc = rt.alloc();
    let mut stack = Stack::new(alloc);
    offer(&mut stack, alloc, name(alloc, "R")?, 7)?;
    offer(&mut stack, alloc, name(alloc, "R")?, 8)?;
    let inner = invokes(&stack, alloc, "R", 2, 8)?;
    let top = leaves_all(abort_exit(&stack, alloc)?);
    offer(&mut stack, alloc, Name::common_lisp(alloc, "ABORT")?, 9)?;
    let nearest = brings(abort_exit(&stack, alloc)?, 3, 9);
    assert!(rt; inner && top && nearest);
    Ok(())
}
