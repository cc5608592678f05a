//! The laws of the rows that are built, as the clauses of functions that do nothing.
ghost use Rattle.std.specs.List.{list_all};
ghost use Rattle.std.specs.Prelude.{◌≡◌, ℕ, true, false, List, []};
ghost use Rattle.lisp_builtins.specs.Names as one_step;
ghost use Rattle.lisp_builtins.specs.declared.op.Op.{Op};
ghost use Rattle.lisp_data.specs.TypeNames as type;
ghost use Rattle.lisp_data.specs.declared.type_id.TypeId.{TypeId};
ghost use Rattle.lisp_packages.specs.Fresh.{standard_names};
ghost use Rattle.lisp_syntax.specs.Operators as operator;
ghost use Rattle.lisp_syntax.specs.declared.operator.Operator.{Operator};
ghost use Rattle.step_model.specs.AsBuilt.{is_built, limited, step_as_built};
ghost use Rattle.step_model.specs.MachineFunctions.{machine_name};
ghost use Rattle.step_model.specs.declared.machine_function.MachineFunction.{MachineFunction};
ghost use Rattle.step_model.specs.Now.{Now};
ghost use Rattle.step_model.specs.Perform.{lays, perform};
ghost use Rattle.step_model.specs.Step.{announced, begun};
ghost use Rattle.step_model.specs.Table.{row};
ghost use Rattle.term_model.specs.Breaks.{broken_at, may_open};
ghost use Rattle.term_model.specs.Label.{messages_in};
ghost use Rattle.term_model.specs.Restarts.{abort_exit, nothing_at};
ghost use Rattle.term_model.specs.Room.{is_within, levels};
ghost use Rattle.term_model.specs.Term.{Context};
ghost use Rattle.term_model.specs.declared.focus.Focus.{Focus};
ghost use Rattle.term_model.specs.declared.focus.Focus.TheVariants as focus;
ghost use Rattle.term_model.specs.declared.found.Found.{Found};
ghost use Rattle.term_model.specs.declared.plain.Plain.{Plain};
ghost use Rattle.server_rules.specs.Beside.{beside};
ghost use Rattle.server_rules.specs.Built.{built};
ghost use Rattle.server_rules.specs.Going.{entered, laid_in};
ghost use Rattle.server_rules.specs.Leaving.{aborts, left, left_all};
ghost use Rattle.server_rules.specs.Rules.{rules};
ghost use Rattle.server_rules.specs.Simple.{are_simple};
ghost use Rattle.server_rules.specs.Standard.{AreStandard, IsStandard, is_known, other_names};

/// A step of a thread whose layers are simple changes none of what stands beside the thread.
pub fn steps_leave_the_rest()
    ensures { (n : Now) → are_simple n.context ≡ true → beside (step_as_built built rules n) ≡ beside n }
{}

/// A thread begins with no layers, and neither a step nor an interrupt makes any that aren't simple.
pub fn threads_stay_simple()
    ensures first { are_simple [] ≡ true }
    ensures step { (n : Now) → are_simple n.context ≡ true → are_simple (step_as_built built rules n).context ≡ true }
    ensures interrupt { (c : Context) (f : Focus) → are_simple c ≡ true → are_simple (broken_at (may_open built.levels c) c f).0 ≡ true }
{}

/// No level may be opened: an interrupt leaves, and so does a thread that has no room for a layer. Among simple layers there is no level,
/// and nothing is announced.
pub fn no_level_is_opened()
    ensures none { (c : Context) → may_open built.levels c ≡ false }
    ensures interrupt { (c : Context) (f : Focus) → broken_at (may_open built.levels c) c f ≡ (c, focus.Abort) }
    ensures levels { (c : Context) → are_simple c ≡ true → levels c ≡ 0 }
    ensures announced { (n : Now) → are_simple n.context ≡ true → announced n ≡ n }
    ensures full { (n : Now) (ps : List Plain) (found : Found) → n.most ≡ built.levels → are_simple n.context ≡ true → lays n ps found ≡ laid_in n (entered (is_within n.context) n.context ps found) }
{}

/// A built row that doesn't raise is carried out. Every other step of a thread whose layers are simple leaves all of them, and so does
/// leaving itself: each request among them is aborted, the inner ones first, and the thread waits at its top.
pub fn what_is_not_built_leaves()
    ensures exit { (c : Context) → are_simple c ≡ true → abort_exit c ≡ nothing_at 0 }
    ensures built { (n : Now) → are_simple n.context ≡ true → is_built built rules (limited built n) ≡ true → step_as_built built rules n ≡ perform (begun (limited built n)) (row rules (limited built n) n.redex) }
    ensures unbuilt { (n : Now) → are_simple n.context ≡ true → is_built built rules (limited built n) ≡ false → step_as_built built rules n ≡ left (limited built n) }
    ensures abort { (n : Now) → are_simple n.context ≡ true → n.redex ≡ focus.Abort → step_as_built built rules n ≡ left (limited built n) }
    ensures messages { (t : ℕ) (c : Context) → messages_in (left_all t c) ≡ aborts c }
{}

/// Each name that the language has is that of an external symbol of COMMON-LISP, and each of its symbols has such a name.
pub fn the_names_of_the_language_are_standard()
    ensures operator { (o : Operator) → IsStandard (operator.name_of o) }
    ensures one_step { (o : Op) → IsStandard (one_step.name_of o) }
    ensures machine { (f : MachineFunction) → IsStandard (machine_name f) }
    ensures types { (t : TypeId) → IsStandard (type.name_of t) }
    ensures other { AreStandard other_names }
    ensures known { list_all is_known standard_names ≡ true }
{}
