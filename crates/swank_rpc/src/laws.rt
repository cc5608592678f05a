//! What the answers are in the table of steps, as the clauses of a function that does nothing.
ghost use Rattle.std.specs.Prelude.{◌≡◌, ◌↔◌, IsTrue, List, Some, false, map, ℕ};
ghost use Rattle.std.specs.Str.{str_eq_ignore_ascii_case};
ghost use Rattle.lisp_data.specs.declared.sexp.Sexp.{Sexp};
ghost use Rattle.lisp_data.specs.declared.value.Value.{Value};
ghost use Rattle.term_model.specs.Label.{Out};
ghost use Rattle.step_model.specs.Kinds.{current};
ghost use Rattle.step_model.specs.Now.{Now, tells};
ghost use Rattle.step_model.specs.Perform.{perform};
ghost use Rattle.step_model.specs.Requests.{asked, commanded, finished};
ghost use Rattle.swank_rpc.specs.Acts.{act_of};
ghost use Rattle.swank_rpc.specs.Commands as call;
ghost use Rattle.swank_rpc.specs.Commands.{called, command, image_after};
ghost use Rattle.swank_rpc.specs.Finishes as end;
ghost use Rattle.swank_rpc.specs.Finishes.{ended, finish, written};
ghost use Rattle.swank_rpc.specs.Names.{BindsBehind, IsFoundBehind, name_of, named, named_unbuilt, prefixes};
ghost use Rattle.swank_rpc.specs.declared.function.SwankFunction.{SwankFunction};

/// The row of a request carries out what [`call_rpc`](crate::call_rpc) answers, in the image that it leaves; and the row of the value of
/// its forms carries out what [`end_rpc`](crate::end_rpc) answers, once its messages are written.
pub fn requests_are_carried_out()
    ensures call { (n : Now) → perform n (commanded n (command (asked n))) ≡ perform (record n { image = image_after (called (asked n).form (current n) n.image) n.image }) (act_of (call.answer_of (called (asked n).form (current n) n.image))) }
    ensures end { (n : Now) (kept : Sexp) (v : Value) → perform n (finished n v (finish (asked n) kept v)) ≡ perform (tells n (map Out (written (ended (asked n).form kept v (current n) n.image)))) (act_of (end.answer_of (ended (asked n).form kept v (current n) n.image))) }
{}

/// Each function is found by its name, in which case doesn't count, and by no other name; its name behind each prefix is a head that names it;
/// and none of them is among those that are not built.
pub fn each_function_is_found_by_its_name()
    ensures name { (name : List ℕ) (f : SwankFunction) → (named name ≡ Some f) ↔ IsTrue (str_eq_ignore_ascii_case (name_of f) name) }
    ensures head { (f : SwankFunction) → IsFoundBehind f prefixes }
    ensures built { (f : SwankFunction) → named_unbuilt (name_of f) ≡ false }
{}

/// A call binds its request's package, unless its function works in the global one, by whatever prefix it is called.
pub fn calls_bind_their_package()
    ensures { (f : SwankFunction) (arguments : List Sexp) → BindsBehind f arguments prefixes }
{}
