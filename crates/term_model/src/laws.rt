//! The laws of terms, as the clauses of functions that do nothing.
ghost use Rattle.std.specs.Prelude.{◌≡◌};
ghost use Rattle.term_model.specs.declared.focus.Focus.{Focus};
ghost use Rattle.term_model.specs.Term.{Term, At, Context, plug, split};

/// The redex of a term, put back into what is around it, gives the term.
pub fn putting_back_gives_the_term()
    ensures { (t : Term) → plug (split t).0 (At (split t).1) ≡ t }
{}

/// Going into a redex that was put into a context gives that context and that redex.
pub fn going_in_finds_the_redex()
    ensures { (c : Context) (f : Focus) → split (plug c (At f)) ≡ (c, f) }
{}
