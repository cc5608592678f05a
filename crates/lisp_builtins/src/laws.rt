//! Laws of the names, as the clauses of a function that does nothing.
ghost use Rattle.std.specs.Prelude.{◌≡◌, ◌↔◌, Some};
ghost use Rattle.lisp_data.specs.Symbols.{cl};
ghost use Rattle.lisp_data.specs.declared.symbol.Symbol.{Symbol};
ghost use Rattle.lisp_builtins.specs.Names.{name_of, op_of};
ghost use Rattle.lisp_builtins.specs.declared.op.Op.{Op};

/// Each one-step function is found by its symbol, and by no other.
pub fn each_one_step_function_is_found()
    ensures { (s : Symbol) (o : Op) → (op_of s ≡ Some o) ↔ (s ≡ cl (name_of o)) }
{}
