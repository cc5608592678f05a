//! The frames of a stack: pushing and taking them off, finding and changing them.

use crate::samples::{is_int, name, symbol};
use lisp_data::{Condition, NoMemory, Text, TypeId, Value};
use lisp_frames::{Focus, Frame, Plain, PushFault, Stack};
use std::alloc::Global;
use std::test::Fail;

fn local(alloc: Global, variable: &str, value: i64) -> Result<Frame, NoMemory> {
    Ok(Frame::On(Plain::Lexical {
        variable: name(alloc, variable)?,
        value: Value::Int(value),
    }))
}

fn level(alloc: Global) -> Result<Frame, NoMemory> {
    Ok(Frame::Sldb {
        level: 1,
        condition: Condition {
            kind: TypeId::SimpleError,
            message: Text::of(alloc, "one")?,
            datum: Value::Int(0),
        },
        again: false,
    })
}

/// Whether the nearest binding is found and assigned, and none past a call.
fn finds_variables(stack: &mut Stack, alloc: Global) -> Result<bool, PushFault> {
    let (x, y) = (symbol(alloc, "X")?, symbol(alloc, "Y")?);
    stack.push(local(alloc, "Y", 1)?)?;
    stack.push(Frame::On(Plain::Eval))?;
    stack.push(local(alloc, "X", 2)?)?;
    stack.push(local(alloc, "X", 3)?)?;
    let nearest = is_int(stack.lookup(&x), 3) && stack.lookup(&y).is_none();
    let given_back = stack.assign(&y, Value::Int(4)).is_some();
    let taken = stack.assign(&x, Value::Int(5)).is_none();
    let changed = is_int(stack.lookup(&x), 5);
    let popped = stack.pop().is_some();
    Ok(nearest && given_back && taken && changed && popped && is_int(stack.lookup(&x), 2))
}

#[test]
fn variables_are_seen_up_to_the_nearest_call(rt: HostRuntime) -> Result<(), Fail> {
    let alloc = rt.alloc();
    let mut stack = Stack::new(alloc);
    assert_eq!(rt; finds_variables(&mut stack, alloc), Ok(true));
    Ok(())
}

/// Whether frames are pushed up to the limit and no further, and a level makes room for 500 more.
fn fills(stack: &mut Stack, alloc: Global) -> Result<bool, PushFault> {
    for _ in 1..20_000 {
        stack.push(Frame::On(Plain::Eval))?;
    }
    let full = stack.is_full() && stack.is_within() && stack.depth() == 20_000;
    let refused = stack.push(Frame::On(Plain::Eval)) == Err(PushFault::Exhausted);
    stack.push_over(level(alloc)?)?;
    for _ in 1..500 {
        stack.push(Frame::On(Plain::Eval))?;
    }
    let again = stack.push(Frame::On(Plain::Eval)) == Err(PushFault::Exhausted);
    Ok(full && refused && again && stack.levels() == 1 && stack.depth() == 20_500)
}

#[test]
fn frames_are_pushed_up_to_the_limit(rt: HostRuntime) -> Result<(), Fail> {
    let alloc = rt.alloc();
    let mut stack = Stack::new(alloc);
    assert_eq!(rt; fills(&mut stack, alloc), Ok(true));
    Ok(())
}

/// Whether the changes of one frame, the redex and the serial are seen.
fn changes(stack: &mut Stack, alloc: Global) -> Result<bool, PushFault> {
    let v = symbol(alloc, "V")?;
    stack.push(Frame::On(Plain::Dynamic {
        variable: name(alloc, "V")?,
        value: Value::Int(1),
    }))?;
    stack.push(level(alloc)?)?;
    let taken = stack.assign_dynamic(&v, Value::Int(2)).is_none();
    let bound = taken && is_int(stack.dynamic(&v), 2);
    stack.set_again(2, true);
    let opened = matches!(stack.level(), Some((1, _)));
    let again = matches!(stack.frame_at(2), Some(Frame::Sldb { again: true, .. }));
    let none = stack.frame_at(0).is_none() && stack.frame_at(3).is_none();
    stack.set_focus(Focus::Abort);
    let focus = matches!(stack.focus(), Focus::Abort);
    let old = matches!(stack.replace_focus(Focus::Rpc), Focus::Abort);
    Ok(bound && opened && again && none && focus && old)
}

#[test]
fn one_frame_is_changed(rt: HostRuntime) -> Result<(), Fail> {
    let alloc = rt.alloc();
    let mut stack = Stack::new(alloc);
    assert_eq!(rt; changes(&mut stack, alloc), Ok(true));
    Ok(())
}

#[test]
fn serials_count_from_zero(rt: HostRuntime) {
    let mut stack = Stack::new(rt.alloc());
    assert_eq!(rt; (stack.take_serial(), stack.take_serial()), (0, 1));
}
