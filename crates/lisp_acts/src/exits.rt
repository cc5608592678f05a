ghost use Rattle.std.specs.Prelude.{◌≡◌, ◌++◌, [], IfOk, OnOk};
ghost use Rattle.std.specs.Option.{option_copied};
ghost use Rattle.lisp_acts.specs.Amid.{Rest, amid, ended_if, telling};
ghost use Rattle.lisp_acts.specs.Exits.{dropped, landed};
ghost use Rattle.lisp_acts.specs.Runs.{brought};
ghost use Rattle.lisp_control.specs.Leaving.{all_labels, labels_of};
ghost use Rattle.step_model.specs.Perform.{exits, is_top};
ghost use Rattle.term_model.specs.Label.{messages_in};
ghost use Rattle.term_model.specs.Room.{levels};

use crate::clauses::run_by;
use crate::going::{give, give_value, go};
use crate::runs::{Runs, run_at};
use lisp_control::{Left, Next, Passed, leave};
use lisp_data::{NoMemory, Pile, Rows};
use lisp_frames::{Stack, body};
use rpc_messages::{Pattern, Returned, ToEmacs};
use std::alloc::Global;
use term_model::{Ask, Bring, Focus, Leaving, Outcome};

/// Writes what is told of one thing that an exit of this thread dropped.
fn tell_one(passed: Passed, thread: u64, outs: &mut Rows<ToEmacs>) -> Result<(), NoMemory>
    ensures { OnOk result (outs.new ≡ outs.old ++ messages_in (labels_of thread passed)) }
{
    match passed {
        Passed::Request { id, .. } => outs.push(ToEmacs::Return {
            id,
            result: Returned::Abort,
        })?,
        Passed::Level(level) => outs.push(ToEmacs::DebugReturn { thread, level })?,
        Passed::Question {
            kind: Ask::String,
            tag,
        } => outs.push(ToEmacs::ReadAborted { thread, tag })?,
        Passed::Question {
            kind: Ask::YesNo,
            ..
        } => {}
    }
    Ok(())
}

/// The same of all, in order.
fn tell(passed: Rows<Passed>, thread: u64, outs: &mut Rows<ToEmacs>) -> Result<(), NoMemory>
    ensures { OnOk result (outs.new ≡ outs.old ++ messages_in (all_labels thread passed)) }
{
    let mut left = Pile::of(passed);
    'passed: while let Some(one) = left.pop() {
        tell_one(one, thread, outs)?;
    }
    Ok(())
}

/// Puts what an exit brought in place of its target. It says whether the thread is at its top.
fn bring_in(alloc: Global, bring: Bring, runs: Runs, stack: &mut Stack) -> Result<bool, NoMemory>
    ensures { IfOk result (λ over. (r : Rest) → brought (amid r stack.old) bring runs ≡ ended_if over (amid r stack.new)) }
{
    match bring {
        Bring::Value(value) => give_value(alloc, stack, value)?,
        Bring::Reply(reply) => give(alloc, stack, Outcome::Reply(reply))?,
        Bring::Clause { args, .. } => run_by(alloc, runs, args, stack)?,
        Bring::Call => run_by(alloc, runs, Rows::new(alloc), stack)?,
        Bring::Nothing => {
            stack.set_focus(Focus::Wait(Pattern::Rex));
            return Ok(stack.depth() == 1);
        }
    }
    Ok(false)
}

/// Goes on where an exit has come to: into the cleanup that runs first, or with what it brought.
fn land(alloc: Global, next: Next, runs: Runs, stack: &mut Stack) -> Result<bool, NoMemory>
    ensures { IfOk result (λ over. (r : Rest) → landed (amid r stack.old) next runs ≡ ended_if over (amid r stack.new)) }
{
    match next {
        Next::Arrives(bring) => bring_in(alloc, bring, runs, stack),
        Next::Cleans { cleanup, .. } => {
            let found = body(alloc, cleanup)?;
            go(alloc, stack, Rows::new(alloc), found)?;
            Ok(false)
        }
    }
}

/// Makes an exit of this thread: what it drops is told, inner first, and the innermost cleanup that it meets runs first. It says whether the
/// thread is at its top.
pub fn exit(
    alloc: Global,
    exit: Leaving,
    thread: u64,
    stack: &mut Stack,
    outs: &mut Rows<ToEmacs>,
) -> Result<bool, NoMemory>
    requires no_levels { levels stack.old.context ≡ 0 }
    ensures now { IfOk result (λ over. (r : Rest) → r.thread ≡ thread → exits (amid r stack.old) exit.target exit.bring ≡ ended_if over (amid (telling (dropped thread exit stack.old.context) r) stack.new)) }
    ensures outs { OnOk result (outs.new ≡ outs.old ++ messages_in (dropped thread exit stack.old.context)) }
{
    let Leaving { target, bring } = exit;
    let runs = run_at(alloc, &bring, stack.frame_at(target))?;
    let Left { passed, next } = leave(stack, alloc, target, bring)?;
    tell(passed, thread, outs)?;
    let over = land(alloc, next, runs, stack)?;
    Ok(over)
}
