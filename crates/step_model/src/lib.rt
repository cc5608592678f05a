//! The definition of a thread's step: a table with one line a redex, which says what the step does, and what each such act makes of the
//! thread.
//!
//! What the crates above use is `step` of `specs/Step.antt`: the machine's step is that function. The table stands in
//! `specs/Table.antt`, with the rows of forms, functions and requests in files of their own; what it takes from the layers beside it is
//! one record of functions, `specs/Rules.antt`, and `specs/Perform.antt` says what each act does. The laws of a session are proved by
//! classes of steps: `specs/Marks.antt` has what they see of a thread, `specs/Moves.antt` the classes. The laws of one step are the
//! clauses of the functions of `laws.rt`, which do nothing, and hold of every such record.
#![tactic(auto)]

mod laws;
mod machine_function;

pub use laws::{
    a_break_keeps_the_facts, a_local_step_needs_the_term_alone, a_stale_restart_does_nothing,
    a_step_is_whole_or_leaves, a_waiting_thread_has_room_for_a_request,
    each_machine_function_is_found, each_step_is_a_list_of_moves, each_step_keeps_the_facts,
    the_handlers_in_force,
};
pub use machine_function::{MACHINE_FUNCTIONS, MachineFunction};
