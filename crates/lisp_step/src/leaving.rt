ghost use Rattle.std.specs.Prelude.{◌≡◌, ◌++◌, ◌∷◌, [], OnOk};
ghost use Rattle.server_rules.specs.Leaving.{aborts};
ghost use Rattle.lisp_step.specs.Rows.{at_top};

use lisp_data::{NoMemory, Rows};
use lisp_frames::Stack;
use rpc_messages::{Pattern, Returned, ToEmacs};
use term_model::{Focus, Frame};

/// Writes what a dropped frame writes: of a request that it was aborted.
fn abort(frame: Frame, outs: &mut Rows<ToEmacs>) -> Result<(), NoMemory>
    ensures { OnOk result (outs.new ≡ outs.old ++ aborts (frame ∷ [])) }
{
    if let Frame::Rex { id, .. } = frame {
        outs.push(ToEmacs::Return {
            id,
            result: Returned::Abort,
        })?;
    }
    Ok(())
}

/// Drops all frames, the inner ones first, and waits for a request at the thread's top.
pub(crate) fn leave(stack: &mut Stack, outs: &mut Rows<ToEmacs>) -> Result<(), NoMemory>
    ensures stack { OnOk result (stack.new ≡ at_top stack.old) }
    ensures outs { OnOk result (outs.new ≡ outs.old ++ aborts stack.old.context) }
{
    'frames: while let Some(frame) = stack.pop() {
        abort(frame, outs)?;
    }
    stack.set_focus(Focus::Wait(Pattern::Rex));
    Ok(())
}
