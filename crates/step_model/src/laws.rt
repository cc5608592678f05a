//! The laws of a thread's steps, as the clauses of functions that do nothing. They hold whatever the functions beside the thread give.
ghost use Rattle.std.specs.Prelude.{◌≡◌, ◌↔◌, ◌+◌, ◌≤◌, ℕ, List, [], ◌∷◌, ◌++◌, length, ℤ, Some, true, false};
ghost use Rattle.lisp_data.specs.declared.sexp.Sexp.TheVariants as form;
ghost use Rattle.lisp_data.specs.Symbols.{cl};
ghost use Rattle.lisp_data.specs.declared.symbol.Symbol.{Symbol};
ghost use Rattle.rpc_messages.specs.declared.pattern.Pattern.TheVariants as pattern;
ghost use Rattle.term_model.specs.Breaks.{broken_at, may_open};
ghost use Rattle.term_model.specs.Handlers.{handlers_of, in_force, placed};
ghost use Rattle.term_model.specs.Levels.{current_level};
ghost use Rattle.term_model.specs.Room.{layers, levels, limit};
ghost use Rattle.term_model.specs.Search.{outside};
ghost use Rattle.term_model.specs.Term.{Context};
ghost use Rattle.term_model.specs.declared.focus.Focus.{Focus};
ghost use Rattle.term_model.specs.declared.focus.Focus.TheVariants as focus;
ghost use Rattle.term_model.specs.declared.frame.Frame.TheVariants as frame;
ghost use Rattle.term_model.specs.declared.kept.Outcome.TheVariants as outcome;
ghost use Rattle.term_model.specs.declared.plain.Cluster.{Cluster};
ghost use Rattle.term_model.specs.declared.plain.Plain.TheVariants as plain;
ghost use Rattle.step_model.specs.declared.machine_function.MachineFunction.{MachineFunction};
ghost use Rattle.step_model.specs.AsBuilt.{all_built, is_built, leaving, limited, step_as_built};
ghost use Rattle.step_model.specs.Built.{Built};
ghost use Rattle.step_model.specs.Facts.{IsSound, bares, names_handlers};
ghost use Rattle.step_model.specs.Listed.{is_listed};
ghost use Rattle.step_model.specs.Local.{Spot, is_inside, is_local, step_alone, step_has_room};
ghost use Rattle.step_model.specs.MachineFunctions.{machine_function, machine_name};
ghost use Rattle.step_model.specs.Marks.{marks, state_of};
ghost use Rattle.step_model.specs.Moves.{Comes};
ghost use Rattle.step_model.specs.Now.{Now, puts};
ghost use Rattle.step_model.specs.Order.{IsOrdered};
ghost use Rattle.step_model.specs.Requests.{asked};
ghost use Rattle.step_model.specs.Rooms.{HasRoom, HasRoomBroken};
ghost use Rattle.step_model.specs.Rules.{InvokesNth, Rules};
ghost use Rattle.step_model.specs.Shallow.{has_shallow_forms, layers_left};
ghost use Rattle.step_model.specs.Stale.{IsStale};
ghost use Rattle.step_model.specs.Step.{begun, carried_out, step};

/// As far as a step is built it is the whole one, and else the thread leaves by the innermost visible ABORT. With all of the table built
/// each step is the whole one.
pub fn a_step_is_whole_or_leaves()
    ensures built { (built : Built) (rules : Rules) (n : Now) → is_built built rules (limited built n) ≡ true → step_as_built built rules n ≡ step rules (limited built n) }
    ensures unbuilt { (built : Built) (rules : Rules) (n : Now) → is_built built rules (limited built n) ≡ false → step_as_built built rules n ≡ carried_out (limited built n) (leaving n) }
    ensures all { (rules : Rules) (n : Now) → step_as_built all_built rules n ≡ step rules (limited all_built n) }
{}

/// Each step is a list of moves, whole or as far as it is built.
pub fn each_step_is_a_list_of_moves()
    ensures whole { (rules : Rules) (n : Now) → Comes (state_of n) (step rules n) }
    ensures as_built { (built : Built) (rules : Rules) (n : Now) → Comes (state_of n) (step_as_built built rules n) }
{}

/// The facts hold of a thread that waits at its top, and each step keeps them, whole or as far as it is built.
pub fn each_step_keeps_the_facts()
    ensures first { (most : ℕ) → IsSound most [] (focus.Wait pattern.Rex) }
    ensures layers { (rules : Rules) (n : Now) → IsSound n.most n.context n.redex → IsSound n.most (step rules n).context (step rules n).redex }
    ensures layers_as_built { (built : Built) (rules : Rules) (n : Now) → IsSound built.levels n.context n.redex → IsSound built.levels (step_as_built built rules n).context (step_as_built built rules n).redex }
    ensures order { (rules : Rules) (n : Now) → IsOrdered (state_of n) → IsOrdered (state_of (step rules n)) }
    ensures order_as_built { (built : Built) (rules : Rules) (n : Now) → IsOrdered (state_of n) → IsOrdered (state_of (step_as_built built rules n)) }
    ensures first_room { HasRoom [] (focus.Wait pattern.Rex) }
    ensures room { (rules : Rules) (n : Now) → IsSound n.most n.context n.redex → HasRoomBroken n.context n.redex → HasRoom (step rules n).context (step rules n).redex }
    ensures room_as_built { (built : Built) (rules : Rules) (n : Now) → IsSound built.levels n.context n.redex → HasRoomBroken n.context n.redex → HasRoom (step_as_built built rules n).context (step_as_built built rules n).redex }
{}

/// What has room has it between an interrupt and the next step; and a thread that waits for a request has room for one: for its layer and
/// for the binding inside it.
pub fn a_waiting_thread_has_room_for_a_request()
    ensures unbroken { (c : Context) (f : Focus) → HasRoom c f → HasRoomBroken c f }
    ensures request { (most : ℕ) (c : Context) → IsSound most c (focus.Wait pattern.Rex) → HasRoom c (focus.Wait pattern.Rex) → layers (bares c) + 2 ≤ limit (levels (bares c)) }
{}

/// An interrupt keeps the facts, and no mark that the laws look at changes.
pub fn a_break_keeps_the_facts()
    ensures layers { (most : ℕ) (c : Context) (f : Focus) → IsSound most c f → IsSound most (broken_at (may_open most c) c f).0 (broken_at (may_open most c) c f).1 }
    ensures room { (most : ℕ) (c : Context) (f : Focus) → HasRoom c f → HasRoomBroken (broken_at (may_open most c) c f).0 (broken_at (may_open most c) c f).1 }
    ensures same_marks { (most : ℕ) (c : Context) (f : Focus) → marks (broken_at (may_open most c) c f).0 ≡ marks c }
{}

/// A step that a thread makes by itself is the step of the table: it changes the term alone, and tells nothing. Each listed redex with a
/// request around it is stepped so, where what its step makes stands within the limit of layers; and with 2,000 layers left it does, unless
/// a form has more than 1,990 forms inside one another.
pub fn a_local_step_needs_the_term_alone()
    ensures step { (rules : Rules) (n : Now) (s : Spot) → step_alone rules n.context n.redex ≡ Some s → step rules n ≡ puts (begun n) s.0 s.1 }
    ensures listed { (rules : Rules) (current : List ℕ) (c : Context) (f : Focus) → is_listed current c f ≡ true → is_inside c f ≡ true → step_has_room rules c f ≡ true → is_local rules c f ≡ true }
    ensures room { (rules : Rules) (current : List ℕ) (c : Context) (f : Focus) → is_listed current c f ≡ true → 2000 ≤ layers_left c f → has_shallow_forms 1990 c f ≡ true → step_has_room rules c f ≡ true }
{}

/// Invoking a restart of a level that isn't the current one, or one that the level doesn't have, answers NIL and does nothing else. The
/// step is built where the function of its request is.
pub fn a_stale_restart_does_nothing()
    ensures step { (rules : Rules) (n : Now) (k i : ℤ) → n.redex ≡ focus.Rpc → rules.command (asked n) ≡ InvokesNth k i → IsStale (current_level n.context) k i → step rules n ≡ puts (begun n) n.context (focus.Given (outcome.Reply (form.List []))) }
    ensures built { (built : Built) (rules : Rules) (n : Now) (k i : ℤ) → n.redex ≡ focus.Rpc → built.serves (asked n).form ≡ true → rules.command (asked n) ≡ InvokesNth k i → IsStale (current_level n.context) k i → is_built built rules n ≡ true }
{}

/// Each function that the machine runs is found by its symbol, and by no other.
pub fn each_machine_function_is_found()
    ensures { (s : Symbol) (f : MachineFunction) → (machine_function s ≡ Some f) ↔ (s ≡ cl (machine_name f)) }
{}

/// The handlers of a cluster come before those that are in force around it. While a handler runs, those are in force that were so around its
/// cluster.
pub fn the_handlers_in_force()
    ensures cluster { (cluster : Cluster) (c : Context) → in_force (frame.On (plain.Handlers cluster) ∷ c) ≡ placed (length c + 1) 0 (handlers_of cluster) ++ in_force c }
    ensures running { (p j : ℕ) (c : Context) → names_handlers p c ≡ true → in_force (frame.On (plain.Handling p j) ∷ c) ≡ in_force (outside p c) }
{}
