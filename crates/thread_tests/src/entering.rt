//! Evaluation goes into a form, inside markers too, as far as there is room, and comes back with values.

use crate::samples::{form_of, is_int, literal, name, symbol, variable};
use lisp_data::{NoMemory, Rows, Value};
use lisp_frames::{
    Focus, Found, Frame, Outcome, Partial, Plain, PushFault, Stack, advance, body, look,
};
use std::alloc::Global;
use std::test::Fail;
use syntax_trees::{Ast, Bare, Code, Forms, Named, Row};

/// `(if x 2)`
fn choice(alloc: Global) -> Result<Ast, NoMemory> {
    let (test, then) = (variable(alloc, "X")?, literal(alloc, 2)?);
    form_of(alloc, Row::Bare(Bare::If), test, then)
}

/// `(f (if x 2) 4)`
fn call_with_choice(alloc: Global) -> Result<Code, NoMemory> {
    let row = Row::Named(Named::Call, name(alloc, "F")?);
    Code::new(
        alloc,
        form_of(alloc, row, choice(alloc)?, literal(alloc, 4)?)?,
    )
}

/// Whether the redex of a form was found, which has so many values.
fn has_values(found: &Found, count: usize) -> bool {
    match found {
        Found::Here(Focus::Form(partial)) => partial.values().len() == count,
        _ => false,
    }
}

/// The same of what a layer becomes with a value.
fn becomes(found: Option<Found>, count: usize) -> bool {
    match found {
        Some(found) => has_values(&found, count),
        None => false,
    }
}

/// Whether evaluation goes into the first argument that is no value, and into the first part of that, and comes back with values.
fn goes_in(stack: &mut Stack, alloc: Global) -> Result<bool, NoMemory> {
    let found = look(alloc, &call_with_choice(alloc)?)?;
    let fits = stack.enter(alloc, found)? && stack.depth() == 3;
    let chosen = becomes(stack.resume(alloc, Value::Int(5))?, 1);
    let applied = becomes(stack.resume(alloc, Value::Int(2))?, 2);
    let kept = stack.resume(alloc, Value::Int(0))?.is_none();
    let given = matches!(stack.focus(), Focus::Given(Outcome::Value(Value::Int(0))));
    Ok(fits && chosen && applied && kept && given)
}

#[test]
fn evaluation_goes_in_and_comes_back_with_values(rt: HostRuntime) -> Result<(), Fail> {
    let alloc = rt.alloc();
    let mut stack = Stack::new(alloc);
    assert_eq!(rt; goes_in(&mut stack, alloc), Ok(true));
    Ok(())
}

/// Whether `and` and `cond` go into their first part alone, and `mapcar` collects a value.
fn takes_parts(stack: &mut Stack, alloc: Global) -> Result<bool, NoMemory> {
    let (one, two) = (literal(alloc, 1)?, literal(alloc, 2)?);
    let parts = form_of(alloc, Row::Bare(Bare::And), one, two)?;
    let parts = Code::new(alloc, parts)?;
    let first = advance(alloc, Partial::of_form(alloc, &parts)?)?;
    let clauses = form_of(alloc, Row::Bare(Bare::Cond), choice(alloc)?, choice(alloc)?)?;
    let clauses = Code::new(alloc, clauses)?;
    let tested = matches!(look(alloc, &clauses)?, Found::Inside(..));
    stack.push_over(Frame::On(Plain::Map {
        function: name(alloc, "F")?,
        list: Rows::new(alloc),
        next: 1,
        collected: Some(Rows::new(alloc)),
    }))?;
    let mapped = stack.resume(alloc, Value::Int(5))?.is_some();
    Ok(has_values(&first, 1) && tested && mapped && stack.depth() == 1)
}

#[test]
fn forms_go_on_a_part_at_a_time(rt: HostRuntime) -> Result<(), Fail> {
    let alloc = rt.alloc();
    let mut stack = Stack::new(alloc);
    assert_eq!(rt; takes_parts(&mut stack, alloc), Ok(true));
    Ok(())
}

/// A lexical binding inside an evaluation.
fn markers(alloc: Global) -> Result<Rows<Plain>, NoMemory> {
    let mut markers = Rows::new(alloc);
    markers.push(Plain::Eval)?;
    markers.push(Plain::Lexical {
        variable: name(alloc, "X")?,
        value: Value::Int(7),
    })?;
    Ok(markers)
}

/// The body `x`, `x`.
fn two_variables(alloc: Global) -> Result<Found, NoMemory> {
    let (first, second) = (variable(alloc, "X")?, variable(alloc, "X")?);
    let block = form_of(alloc, Row::Bare(Bare::Progn), first, second)?;
    body(alloc, Forms::of(block.forms.share()?))
}

/// Whether a body is evaluated inside markers, which its variables see and which keep a value.
fn lays(stack: &mut Stack, alloc: Global) -> Result<bool, NoMemory> {
    let fits = stack.lay(alloc, markers(alloc)?, two_variables(alloc)?)?;
    let inside = stack.depth() == 4 && is_int(stack.lookup(&symbol(alloc, "X")?), 7);
    let goes_on = stack.resume(alloc, Value::Int(1))?.is_some();
    let kept = stack.resume(alloc, Value::Int(2))?.is_none();
    Ok(fits && inside && goes_on && kept && stack.frames().len() == 2)
}

#[test]
fn a_body_is_evaluated_inside_markers(rt: HostRuntime) -> Result<(), Fail> {
    let alloc = rt.alloc();
    let mut stack = Stack::new(alloc);
    assert_eq!(rt; lays(&mut stack, alloc), Ok(true));
    Ok(())
}

/// Whether going in stops at the limit, and a marker that holds a value still stands there.
fn stops(stack: &mut Stack, alloc: Global) -> Result<bool, PushFault> {
    for _ in 1..19_999 {
        stack.push(Frame::On(Plain::Eval))?;
    }
    let refused = !stack.lay(alloc, markers(alloc)?, two_variables(alloc)?)?;
    let full = stack.depth() == 20_000;
    let held = stack.lay(alloc, markers(alloc)?, Found::Already(Value::Int(1)))?;
    stack.pop();
    let last = stack.lay(alloc, markers(alloc)?, Found::Already(Value::Int(1)))?;
    Ok(refused && full && !held && last && stack.depth() == 20_001)
}

#[test]
fn going_in_stops_at_the_limit(rt: HostRuntime) -> Result<(), Fail> {
    let alloc = rt.alloc();
    let mut stack = Stack::new(alloc);
    assert_eq!(rt; stops(&mut stack, alloc), Ok(true));
    Ok(())
}
