//! The laws of every journal: what holds of a session after any entries, whatever the order of arrivals, loans and bursts, and whatever
//! the functions beside the threads give.
//!
//! Each law is a record in `specs/`, in plain words, and the clause of a function of `laws.rt`, which does nothing. A law is proved by
//! the classes of steps of `step_model`: what each move keeps holds after every journal (`proofs/Always.antt`), so a new row of the
//! table of steps needs no line here. The laws hold of every journal unless they say that it has to be legal. `IsLawful` gathers them
//! for a journal: the laws of what has happened hold at each of its moments (`specs/Moments.antt`), those of a step in every state.
#![tactic(auto)]

mod laws;

pub use laws::{
    acts_alone, answers_once, breaks_promptly, cleans_once, each_journal_is_lawful,
    ends_with_its_reply, facts_hold, ignores_stale, levels_nest, moments, takes_in_order,
};
