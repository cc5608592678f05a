//! The parameters of a function (HyperSpec 3.4.1).

ghost use Rattle.std.specs.Prelude.{◌≡◌, IfOk};
ghost use Rattle.lisp_syntax.specs.Fits.{Finds};
ghost use Rattle.lisp_syntax.specs.Parts.{leading, optionals_of, parameters_of, rest_of};

use crate::fit::Misfit;
use crate::parts::{marks, parameter};
use lisp_data::{Name, NoMemory, Rows, Value};
use std::alloc::Global;
use syntax_trees::Parameters;

/// The parameters before the first item that is none, and what stands from there on.
fn leading(alloc: Global, items: &[Value]) -> Result<(Rows<Name>, &[Value]), NoMemory>
    ensures { IfOk result (λ r. (r.0, r.1.now) ≡ leading items.now) }
{
    let mut names = Rows::new(alloc);
    let mut rest = items;
    while let [item, more @ ..] = rest {
        match parameter(alloc, item) {
            Ok(name) => names.push(name)?,
            Err(Misfit::NoRow) => return Ok((names, rest)),
            Err(Misfit::NoMemory) => return Err(NoMemory),
        }
        rest = more;
    }
    Ok((names, rest))
}

/// The parameters behind `&optional`, where it is written, and what follows.
fn optionals(alloc: Global, items: &[Value]) -> Result<(Option<Rows<Name>>, &[Value]), NoMemory>
    ensures { IfOk result (λ r. (r.0, r.1.now) ≡ optionals_of items.now) }
{
    match items {
        [marker, more @ ..] if marks("&OPTIONAL", marker) => {
            let (names, rest) = leading(alloc, more)?;
            Ok((Some(names), rest))
        }
        _ => Ok((None, items)),
    }
}

/// `[&rest P]`
fn rest(alloc: Global, items: &[Value]) -> Result<Option<Name>, Misfit>
    ensures { Finds result (rest_of items.now) }
{
    match items {
        [] => Ok(None),
        [marker, name] if marks("&REST", marker) => Ok(Some(parameter(alloc, name)?)),
        _ => Err(Misfit::NoRow),
    }
}

/// Symbols, then `&optional` and symbols, then `&rest` and one symbol.
#[tactic(auto, unfolding(crate::specs::Parts::parameters_of))]
pub fn parameters(alloc: Global, items: &[Value]) -> Result<Parameters, Misfit>
    ensures { Finds result (parameters_of items.now) }
{
    let (required, behind) = leading(alloc, items)?;
    let (optional, behind) = optionals(alloc, behind)?;
    let rest = rest(alloc, behind)?;
    Ok(Parameters {
        required,
        optional,
        rest,
    })
}
