ghost use Rattle.std.specs.Prelude.{◌≡◌, ◌∷◌, ◌++◌, [], option_map, IfOk};
ghost use Rattle.term_model.specs.GoingIn.{resumed};
ghost use Rattle.going_in.specs.Resumed.{found_of, kept_of};

use crate::going::resume;
use lisp_data::{NoMemory, Rows, Value};
use std::alloc::Global;
use term_model::{Focus, Found, Plain};

/// What a layer becomes with the value of what is inside it: what its form meets next, or, where it waits for no value, itself with
/// the value.
#[derive(Drop)]
pub enum Next {
    Goes(Found),
    Keeps(Plain, Value),
}

/// The values that `mapcar` has collected, with one more; `mapc` collects none.
fn collect(collected: Option<Rows<Value>>, value: Value) -> Result<Option<Rows<Value>>, NoMemory>
    ensures { IfOk result (λ all. all ≡ option_map (λ values. values ++ value ∷ []) collected) }
{
    match collected {
        None => Ok(None),
        Some(mut values) => {
            values.push(value)?;
            Ok(Some(values))
        }
    }
}

/// What a layer becomes with the value of what is inside it.
pub fn resumed(alloc: Global, layer: Plain, value: Value) -> Result<Next, NoMemory>
    ensures found { IfOk result (λ next. found_of next ≡ resumed layer value) }
    ensures kept { IfOk result (λ next. kept_of next (layer, value) ≡ (layer, value)) }
{
    match layer {
        Plain::Form(partial) => Ok(Next::Goes(resume(alloc, partial, value)?)),
        Plain::Map {
            function,
            list,
            next,
            collected,
        } => {
            let collected = collect(collected, value)?;
            Ok(Next::Goes(Found::Here(Focus::Map {
                function,
                list,
                next,
                collected,
            })))
        }
        layer => Ok(Next::Keeps(layer, value)),
    }
}
