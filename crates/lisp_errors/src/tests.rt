use crate::{
    MAX_WEIGHT, Wanted, bad_form, no_part, package_not_found, unbound_variable, wrong_kind,
};
use lisp_data::{Condition, Name, NoMemory, Symbol, Text, Value};
use std::alloc::Global;
use std::test::Fail;

fn reads(condition: Result<Condition, NoMemory>, message: &str) -> Result<bool, NoMemory> {
    Ok(condition?.message.as_str() == message)
}

#[test]
fn messages_name_values_as_user_text(rt: HostRuntime) -> Result<(), Fail> {
    let alloc = rt.alloc();
    let current = Text::of(alloc, "COMMON-LISP-USER")?;
    let text = Value::Str(Text::of(alloc, "x")?);
    let wrong = wrong_kind(alloc, &text, Wanted::List, &current);
    assert!(rt; reads(wrong, "The value \"x\" is not of type LIST.")?);
    let home = Text::of(alloc, "SWANK")?;
    let name = Text::of(alloc, "X")?;
    let x = Value::Sym(Name::new(alloc, Symbol { home, name })?);
    let unbound = unbound_variable(alloc, &x, &current);
    assert!(rt; reads(unbound, "The variable SWANK::X is unbound.")?);
    assert!(rt; reads(bad_form(alloc, &x, &current), "Bad form: SWANK::X")?);
    Ok(())
}

#[test]
fn messages_show_names_and_numbers(rt: HostRuntime) -> Result<(), Fail> {
    let alloc = rt.alloc();
    assert!(rt; reads(no_part(alloc, -1), "No part: -1.")?);
    assert!(rt; reads(package_not_found(alloc, "Q"), "Package Q not found.")?);
    Ok(())
}

/// A string of as many octets as no value may weigh.
fn long(alloc: Global) -> Result<Value, NoMemory> {
    let mut text = Text::new(alloc);
    for _ in 0..MAX_WEIGHT {
        text.push('"')?;
    }
    Ok(Value::Str(text))
}

#[test]
fn a_message_that_would_be_too_long_says_so(rt: HostRuntime) -> Result<(), Fail> {
    let alloc = rt.alloc();
    let current = Text::of(alloc, "COMMON-LISP-USER")?;
    let text = long(alloc)?;
    let wrong = wrong_kind(alloc, &text, Wanted::List, &current);
    assert!(rt; reads(wrong, "Value too large.")?);
    Ok(())
}
