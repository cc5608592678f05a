//! The laws, as the clauses of functions that do nothing.
ghost use Rattle.std.specs.Prelude.{◌≡◌, ◌+◌, ◌<◌, ◌≤◌, List, [], ◌∷◌, ◌++◌, ℕ};
ghost use Rattle.term_model.specs.Label.{Label};
ghost use Rattle.step_model.specs.Image.{ImageState};
ghost use Rattle.step_model.specs.Now.{Now};
ghost use Rattle.step_model.specs.Rules.{Rules};
ghost use Rattle.session_model.specs.declared.event.Entry.{Entry};
ghost use Rattle.session_model.specs.Journal.{counted, labels, run};
ghost use Rattle.session_model.specs.Legal.{AreLegal, IsLegalFrom};
ghost use Rattle.session_model.specs.Running.{returns, steps};
ghost use Rattle.session_model.specs.World.{World, then};
ghost use Rattle.session_laws.specs.EndsWithItsReply.{EndsWithItsReply};
ghost use Rattle.session_laws.specs.ActsAlone.{ActsAlone};
ghost use Rattle.session_laws.specs.AnswersOnce.{AnswersOnce};
ghost use Rattle.session_laws.specs.BreaksPromptly.{BreaksPromptly};
ghost use Rattle.session_laws.specs.CleansOnce.{CleansInnermost, CleansOnce};
ghost use Rattle.session_laws.specs.FactsHold.{FactsHold, HaveRoom};
ghost use Rattle.session_laws.specs.IgnoresStale.{IgnoresStale};
ghost use Rattle.session_laws.specs.IsLawful.{IsLawful};
ghost use Rattle.session_laws.specs.LevelsNest.{LevelsNest};
ghost use Rattle.session_laws.specs.Moments.{IsMoment, burst};
ghost use Rattle.session_laws.specs.TakesInOrder.{TakesInOrder};

/// Levels of the debugger open and close without gaps: from the messages alone Emacs knows which levels of which thread are open.
pub fn levels_nest()
    ensures { (rules : Rules) (image : ImageState) (j : List Entry) → LevelsNest rules image j }
{}

/// The cleanup of each protected form that a thread leaves begins exactly once, and inner ones begin before outer ones.
pub fn cleans_once()
    ensures once { (rules : Rules) (image : ImageState) (j : List Entry) → CleansOnce rules image j }
    ensures innermost { (rules : Rules) (n : Now) (k : ℕ) → CleansInnermost rules n k }
{}

/// A request that ends by a value ends with the reply that was the redex inside its layer.
pub fn ends_with_its_reply()
    ensures { (rules : Rules) (n : Now) → EndsWithItsReply rules n }
{}

/// Each request is in one place at every moment, and is answered once, directly when it ends, is swept or is refused.
pub fn answers_once()
    ensures { (rules : Rules) (image : ImageState) (j : List Entry) → AnswersOnce rules image j }
{}

/// Each thread takes the messages that it accepts in the order of their arrival, and none is taken twice.
pub fn takes_in_order()
    ensures { (rules : Rules) (image : ImageState) (j : List Entry) → TakesInOrder rules image j }
{}

/// What a thread does touches that thread alone, in every world.
pub fn acts_alone()
    ensures { (rules : Rules) (w : World) → ActsAlone rules w }
{}

/// The facts of terms and marks hold of every live thread, and in a legal journal none has more layers than the limit.
pub fn facts_hold()
    ensures facts { (rules : Rules) (image : ImageState) (j : List Entry) → FactsHold rules image j }
    ensures room { (rules : Rules) (image : ImageState) (j : List Entry) → IsLegalFrom rules image j → HaveRoom rules image j }
{}

/// Invoking a restart that isn't there any more answers NIL and does nothing else, in every world.
pub fn ignores_stale()
    ensures { (rules : Rules) (w : World) → IgnoresStale rules w }
{}

/// An interrupt is taken at its thread's next loan, and until then the thread makes steps in one burst at most.
pub fn breaks_promptly()
    ensures prompt { (rules : Rules) (w : World) (j : List Entry) (t : ℕ) → BreaksPromptly rules w j t }
    ensures stretches { (rules : Rules) (image : ImageState) (past stretch rest : List Entry) → IsLegalFrom rules image (past ++ (stretch ++ rest)) → AreLegal rules (run rules image past) stretch }
{}

/// Each beginning of a journal is a moment of it, and so is each step of a burst: there stands what so many steps make, and the burst goes
/// on from there. A moment of a legal journal is legal, and what was told by then is a beginning of what the journal tells.
pub fn moments()
    ensures beginnings { (past rest : List Entry) → IsMoment past (past ++ rest) }
    ensures bursts { (past : List Entry) (seat t k n : ℕ) (rest : List Entry) → 0 < k → k ≤ n → IsMoment (past ++ burst seat t k ∷ []) (past ++ burst seat t n ∷ rest) }
    ensures stands { (rules : Rules) (image : ImageState) (past : List Entry) (seat t k : ℕ) → run rules image (past ++ burst seat t k ∷ []) ≡ (counted (then (steps rules k t (run rules image past)) (returns t))).after }
    ensures goes_on { (rules : Rules) (k l t : ℕ) (w : World) → steps rules (k + l) t w ≡ then (steps rules k t w) (steps rules l t) }
    ensures legal { (rules : Rules) (image : ImageState) (m j : List Entry) → IsMoment m j → IsLegalFrom rules image j → IsLegalFrom rules image m }
    ensures told { (rules : Rules) (image : ImageState) (m j : List Entry) → IsMoment m j → (rest : List Label) × (labels rules image m ++ rest ≡ labels rules image j) }
{}

/// All laws of a journal, for the contracts of the layers above.
pub fn each_journal_is_lawful()
    ensures { (rules : Rules) (image : ImageState) (j : List Entry) → IsLawful rules image j }
{}
