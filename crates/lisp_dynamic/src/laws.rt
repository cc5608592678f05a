//! That values are looked up and set as the steps of the table do, as the clauses of functions that do nothing.
ghost use Rattle.std.specs.Prelude.{◌≡◌, unwrap_or};
ghost use Rattle.lisp_data.specs.declared.symbol.Symbol.{Symbol};
ghost use Rattle.lisp_data.specs.declared.value.Value.{Value};
ghost use Rattle.lisp_dynamic.specs.Values.{image_set, value_in};
ghost use Rattle.step_model.specs.Functions.{value_now};
ghost use Rattle.step_model.specs.Now.{Now};
ghost use Rattle.step_model.specs.Perform.{sets};
ghost use Rattle.term_model.specs.Variables.{with_dynamic};

/// A variable's value is the one that a step sees.
pub fn the_value_is_that_of_a_step()
    ensures { (n : Now) (s : Symbol) → value_now n s ≡ value_in n.image n.context s }
{}

/// What a step that sets a variable changes.
pub fn assigning_is_that_of_a_step()
    ensures { (n : Now) (s : Symbol) (v : Value) → sets n s v ≡ record n { context = unwrap_or (with_dynamic s v n.context) n.context; image = image_set (with_dynamic s v n.context) s v n.image } }
{}
