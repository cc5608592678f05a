ghost use Rattle.std.specs.Prelude.{◌≡◌, unwrap_or, OnErr, OnOk};
ghost use Rattle.std.specs.Option.{option_copied};
ghost use Rattle.lisp_dynamic.specs.Values.{image_set, value_in};
ghost use Rattle.lisp_frames.specs.Stack.{with_context};
ghost use Rattle.term_model.specs.Variables.{with_dynamic};

use lisp_data::{NoMemory, Symbol, Value};
use lisp_frames::Stack;
use lisp_image::Image;

/// The value of a variable's newest dynamic binding, else its global one; None where it has neither.
pub fn dynamic_value<'a>(stack: &'a Stack, image: &'a Image, s: &Symbol) -> Option<&'a Value>
    ensures { option_copied result ≡ value_in image.now stack.now.context s.now }
{
    match stack.dynamic(s) {
        Some(value) => Some(value),
        None => image.global(s),
    }
}

/// Gives a variable's newest dynamic binding this value, or its global value where it has no binding.
#[tactic(auto, using(crate::proofs::ValueLemmas::set_bound, crate::proofs::ValueLemmas::set_global))]
pub fn assign_dynamic(
    stack: &mut Stack,
    image: &mut Image,
    s: &Symbol,
    v: Value,
) -> Result<(), NoMemory>
    ensures stack { stack.new ≡ with_context (unwrap_or (with_dynamic s.now v stack.old.context) stack.old.context) stack.old }
    ensures image { OnOk result (image.new ≡ image_set (with_dynamic s.now v stack.old.context) s.now v image.old) }
    ensures err { OnErr result (image.new ≡ image.old) }
{
    match stack.assign_dynamic(s, v) {
        None => Ok(()),
        Some(v) => image.set_global(s, v),
    }
}
