ghost use Rattle.std.specs.Prelude.{◌≡◌, ◌<◌, ◌≤◌, ℕ, Bool, List, [], ◌∷◌, true, false, Some, Err, IfSome, OnOk};
ghost use Rattle.outside_traits.specs.Faults.{Rose};
ghost use Rattle.rpc_messages.specs.declared.from_emacs.FromEmacs.{FromEmacs as AnyMessage};
ghost use Rattle.server_laws.specs.Small.{IsSmall};
ghost use Rattle.session_model.specs.Legal.{MayArrive, is_ready};
ghost use Rattle.session_model.specs.Pipe.{next_ready};
ghost use Rattle.swank_core.specs.Session.{world};
ghost use Rattle.swank_session.specs.Course.{Arrives, IsAtRest, IsNearer, IsOverAfter, IsPaused, Later, Reaches, Spends, between, steps_left};

use crate::ends::{Halt, halt_of};
use crate::writing::write_out;
use outside_traits::Sink;
use rpc_messages::FromEmacs;
use session_model::Limits;
use std::alloc::Global;
use swank_core::Core;

/// How many steps a burst makes at most.
const MAX_BURST: u64 = 256;

/// Lends a thread, makes its burst, and writes what that wrote.
fn run_thread<K: Sink>(
    alloc: Global,
    core: &mut Core,
    limits: &Limits,
    t: u64,
    output: &mut K,
    sent: &mut u64,
) -> Result<(), Halt>
    requires paused { IsPaused core.old }
    requires limits { core.old.limits ≡ limits.now }
    requires left { 0 < steps_left core.old }
    requires ready { is_ready (world core.old) t ≡ true }
    ensures onward { Later core.old core.new }
    ensures spends { Spends core.old core.new (K.written output.old) (K.written output.new) sent.old sent.new result }
    ensures reaches { (messages : List AnyMessage) (ends : Bool) (r : ℕ) → next_ready (world core.old) r ≡ Some t → Reaches core.old core.new result (λ _. between messages ends t) (between messages ends r) }
    ensures paused { OnOk result (IsPaused core.new) }
    ensures nearer { OnOk result (IsNearer core.old core.new) }
    ensures later { K.faults output.old ≤ K.faults output.new }
    ensures write_fault { result ≡ Err Halt.WriteFault → Rose (K.faults output.old) (K.faults output.new) }
{
    let most = (limits.steps - core.steps()).min(MAX_BURST);
    let loan = match core.lend(0, t) {
        Err(fault) => return Err(halt_of(fault)),
        Ok(loan) => loan,
    };
    if let Err(fault) = core.commit(0, loan, most) {
        return Err(halt_of(fault));
    }
    write_out(alloc, core, output, sent)
}

/// The ready thread that comes next in this round, or first in the next one.
fn next_of(core: &Core, reached: u64) -> Option<u64>
    requires paused { IsPaused core.now }
    ensures is { result ≡ next_ready (world core.now) reached }
    ensures ready { IfSome result (λ t. is_ready (world core.now) t ≡ true) }
{
    match core.next_ready(reached) {
        Some(t) => Some(t),
        None => core.next_ready(0),
    }
}

/// Runs the ready threads, one after another and round after round, until none is ready.
fn run_rounds<K: Sink>(
    alloc: Global,
    core: &mut Core,
    limits: &Limits,
    output: &mut K,
    sent: &mut u64,
) -> Result<(), Halt>
    requires paused { IsPaused core.old }
    requires limits { core.old.limits ≡ limits.now }
    ensures onward { Later core.old core.new }
    ensures spends { Spends core.old core.new (K.written output.old) (K.written output.new) sent.old sent.new result }
    ensures reaches { (messages : List AnyMessage) (ends : Bool) → Reaches core.old core.new result (λ _. between messages ends 0) (between messages ends 0) }
    ensures rest { OnOk result (IsAtRest core.new) }
    ensures later { K.faults output.old ≤ K.faults output.new }
    ensures write_fault { result ≡ Err Halt.WriteFault → Rose (K.faults output.old) (K.faults output.new) }
{
    let mut reached = 0;
    loop {
        if core.closed() {
            return Err(Halt::Stuck);
        }
        let t = match next_of(core, reached) {
            None => return Ok(()),
            Some(t) => t,
        };
        if core.steps() >= limits.steps {
            return Err(Halt::Stuck);
        }
        if let Err(halt) = run_thread(alloc, core, limits, t, output, sent) {
            return Err(halt);
        }
        reached = t;
    }
}

/// Takes a message, writes what is answered at once, and lets the threads run until none is ready.
pub fn take_message<K: Sink>(
    alloc: Global,
    core: &mut Core,
    limits: &Limits,
    m: FromEmacs,
    output: &mut K,
    sent: &mut u64,
) -> Result<(), Halt>
    requires rest { IsAtRest core.old }
    requires limits { core.old.limits ≡ limits.now }
    requires more { (world core.old).ended ≡ false }
    requires may { MayArrive m }
    requires small { IsSmall m }
    ensures arrives { Arrives core.old core.new m result }
    ensures spends { Spends core.old core.new (K.written output.old) (K.written output.new) sent.old sent.new result }
    ensures reaches { (messages : List AnyMessage) (ends : Bool) → Reaches core.old core.new result (λ _. between messages ends 0) (between (m ∷ messages) ends 0) }
    ensures rest { OnOk result (IsAtRest core.new) }
    ensures later { K.faults output.old ≤ K.faults output.new }
    ensures write_fault { result ≡ Err Halt.WriteFault → Rose (K.faults output.old) (K.faults output.new) }
{
    if let Err(fault) = core.arrive(0, m) {
        return Err(halt_of(fault));
    }
    if let Err(halt) = write_out(alloc, core, output, sent) {
        return Err(halt);
    }
    run_rounds(alloc, core, limits, output, sent)
}

/// Tells the session that its input has ended, and lets the threads run until none is ready.
pub fn end_input<K: Sink>(
    alloc: Global,
    core: &mut Core,
    limits: &Limits,
    output: &mut K,
    sent: &mut u64,
) -> Result<(), Halt>
    requires rest { IsAtRest core.old }
    requires limits { core.old.limits ≡ limits.now }
    requires more { (world core.old).ended ≡ false }
    ensures over { IsOverAfter core.old core.new result }
    ensures spends { Spends core.old core.new (K.written output.old) (K.written output.new) sent.old sent.new result }
    ensures reaches { Reaches core.old core.new result (λ _. between [] true 0) (between [] true 0) }
    ensures rest { OnOk result (IsAtRest core.new) }
    ensures later { K.faults output.old ≤ K.faults output.new }
    ensures write_fault { result ≡ Err Halt.WriteFault → Rose (K.faults output.old) (K.faults output.new) }
{
    if let Err(fault) = core.end_input(0) {
        return Err(halt_of(fault));
    }
    run_rounds(alloc, core, limits, output, sent)
}
