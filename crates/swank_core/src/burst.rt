ghost use Rattle.std.specs.Prelude.{◌≡◌, ◌==◌, ◌&&◌, ◌++◌, ◌≤◌, not, true, IfOk, OnOk};
ghost use Rattle.server_rules.specs.Simple.{are_simple};
ghost use Rattle.session_model.specs.World.{repl, World};
ghost use Rattle.swank_core.specs.Bursts.{Runs, Shows, Steps, swept_from};

use crate::record::Record;
use lisp_data::{NoMemory, Rows};
use lisp_image::Image;
use mailboxes::Mailbox;
use rpc_messages::{FromEmacs, Returned, ToEmacs};
use server_rules::{steps_leave_the_rest, threads_stay_simple};
use std::alloc::Global;

/// The number of the REPL's thread, which never ends.
pub const REPL: u64 = 1;

/// What steps of a thread came to.
#[derive(Clone, Copy, Debug)]
pub struct Run {
    /// How many there were.
    pub steps: u64,
    /// Whether the thread is a worker that ended.
    pub over: bool,
}

/// Whether a thread that is over ends: a worker does, the REPL's thread doesn't.
fn ends(over: bool, thread: u64) -> bool
    ensures { result ≡ (over && not (thread == repl)) }
{
    over && thread != REPL
}

/// Makes one step of a thread. It says whether the thread is a worker that ended.
fn make_step(
    kept: &mut Record,
    alloc: Global,
    image: &mut Image,
    outs: &mut Rows<ToEmacs>,
) -> Result<bool, NoMemory>
    requires simple { are_simple kept.old.machine.stack.context ≡ true }
    ensures number { kept.new.machine.thread ≡ kept.old.machine.thread }
    ensures simple { OnOk result (are_simple kept.new.machine.stack.context ≡ true) }
    ensures steps { IfOk result (λ over. (w : World) → Shows w kept.old image.old → Steps w kept.old outs.old kept.new image.new outs.new over) }
{
    steps_leave_the_rest();
    threads_stay_simple();
    let over = kept.machine.step(alloc, image, &mut kept.mailbox, outs)?;
    Ok(ends(over, kept.machine.thread))
}

/// Makes steps of a thread, `max` at most, until it waits for what isn't there or has ended. What they write stands behind `outs`. After
/// want of memory the thread is to be dropped.
pub fn make_steps(
    kept: &mut Record,
    alloc: Global,
    image: &mut Image,
    outs: &mut Rows<ToEmacs>,
    max: u64,
) -> Result<Run, NoMemory>
    requires simple { are_simple kept.old.machine.stack.context ≡ true }
    ensures number { kept.new.machine.thread ≡ kept.old.machine.thread }
    ensures simple { OnOk result (are_simple kept.new.machine.stack.context ≡ true) }
    ensures within { IfOk result (λ run. run.steps ≤ max) }
    ensures runs { IfOk result (λ run. (w : World) → Shows w kept.old image.old → Runs w max kept.old outs.old kept.new image.new outs.new run.steps run.over) }
{
    let mut steps = 0;
    while steps < max && kept.can_step() {
        let over = make_step(kept, alloc, image, outs)?;
        steps += 1;
        if over {
            return Ok(Run { steps, over });
        }
    }
    Ok(Run { steps, over: false })
}

/// Answers the requests that a worker that ended never took, in order of arrival.
pub fn sweep(alloc: Global, mailbox: Mailbox, outs: &mut Rows<ToEmacs>) -> Result<(), NoMemory>
    ensures { OnOk result (outs.new ≡ outs.old ++ swept_from mailbox) }
{
    let entries = mailbox.into_entries();
    for (_, m) in entries.as_slice() {
        if let FromEmacs::Rex { id, .. } = m {
            outs.push(ToEmacs::Return {
                id: *id,
                result: Returned::Abort,
            })?;
        }
    }
    Ok(())
}
