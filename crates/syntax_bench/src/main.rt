//! Parses the form of standard input, as CL-USER reads it, and counts the nodes of its tree; with a number as argument it parses the form so
//! many times, and tells how long that took. `bench/syntax` runs it.
#![tactic(auto)]

use lisp_data::{NoMemory, Sexp, Text, Value};
use lisp_packages::Packages;
use lisp_syntax::{ParseFault, parse_form};
use sexp_reader::read_form;
use std::alloc::Global;
use std::rt::Clock;
use std::time::{Duration, Instant};
use std::{env, io};
use syntax_trees::Ast;

/// The form of the text, and as CL-USER reads it; NIL where the text spells none.
fn forms_of(alloc: Global, text: &str) -> Result<(Sexp, Value), NoMemory> {
    let text = Text::of(alloc, text)?;
    let user = Text::of(alloc, "CL-USER")?;
    let mut packages = Packages::new(alloc)?;
    let Ok(form) = read_form(alloc, &text) else {
        return Ok((Sexp::nil(alloc), Value::nil(alloc)));
    };
    match packages.value_of(&user, &form) {
        Ok(value) => Ok((form, value)),
        Err(_) => Ok((form, Value::nil(alloc))),
    }
}

/// How long so many turns of parsing take; the drop of the trees does not count.
fn timed<R: Clock>(rt: &R, alloc: Global, form: &Value, turns: u64) -> io::Result<Duration> {
    let mut took = Duration::ZERO;
    for _ in 0..turns {
        let start = Instant::now(rt)?;
        let tree = parse_form(alloc, form);
        took = took.saturating_add(start.elapsed(rt)?);
        let _dropped = tree;
    }
    Ok(took)
}

/// How many nodes the tree has.
fn count(tree: &Ast) -> u64 {
    let mut nodes: u64 = 1;
    for form in tree.forms.get().as_slice() {
        nodes = nodes.saturating_add(count(form));
    }
    nodes
}

fn main(rt: HostRuntime) -> io::Result<()> {
    let alloc = rt.alloc();
    let turns = match env::args(&rt)?.nth(1) {
        Some(word) => word.parse::<u64>().ok(),
        None => None,
    };
    let text = io::read_to_string(alloc, rt.stdin().lock())?;
    // What was read is kept, so that the trees take memory of their own.
    let Ok((_read, form)) = forms_of(alloc, text.as_str()) else {
        return println!(rt; "no memory");
    };
    if let Some(turns) = turns {
        let took = timed(&rt, alloc, &form, turns)?;
        return println!(rt; "{} nanoseconds", took.as_nanos());
    }
    match parse_form(alloc, &form) {
        Ok(tree) => println!(rt; "{} nodes", count(&tree)),
        Err(ParseFault::Syntax(_)) => println!(rt; "bad"),
        Err(ParseFault::NoMemory) => println!(rt; "no memory"),
    }
}
