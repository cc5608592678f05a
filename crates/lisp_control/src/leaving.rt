ghost use Rattle.std.specs.Prelude.{◌≡◌, ◌++◌, ℕ, IfOk};
ghost use Rattle.lisp_frames.specs.Stack.{with_context};
ghost use Rattle.lisp_control.specs.Leaving.{IsBrought, kept, left_behind, met_in, next_of, passed_by, passing, reached};
ghost use Rattle.term_model.specs.Exit as exit;
ghost use Rattle.term_model.specs.Exit.{distance};
ghost use Rattle.term_model.specs.declared.kept.Saved.TheVariants as saved;

use crate::Passed;
use crate::left::{Left, Met, Next, Way};
use lisp_data::{NoMemory, Rows};
use lisp_frames::Stack;
use std::alloc::Global;
use term_model::{Bring, Frame, Saved};

/// Takes a dropped layer apart: notes what is told of it, or gives the protected form that it is.
fn taken(frame: Frame, passed: &mut Rows<Passed>) -> Result<Option<Met>, NoMemory>
    ensures met { IfOk result (λ met. met ≡ met_in frame) }
    ensures passed { IfOk result (λ _. passed.new ≡ passed.old ++ passed_by frame) }
{
    match frame {
        Frame::Rex { at, id, .. } => passed.push(Passed::Request { at, id })?,
        Frame::Sldb { level, .. } => passed.push(Passed::Level(level))?,
        Frame::Ask { kind, tag } => passed.push(Passed::Question { kind, tag })?,
        Frame::Protect { serial, cleanup } => return Ok(Some(Met { serial, cleanup })),
        Frame::On(_) | Frame::Cleanup { .. } => {}
    }
    Ok(None)
}

/// Drops so many layers, or those up to the innermost protected form among them, that form with them.
#[tactic(auto, using(crate::proofs::LeavingLemmas::passed_on))]
fn pass(stack: &mut Stack, alloc: Global, count: u64) -> Result<Way, NoMemory>
    ensures way { IfOk result (λ way. passing count stack.old.context ≡ reached stack.new.context way) }
    ensures rest { stack.new ≡ with_context stack.new.context stack.old }
{
    let mut passed = Rows::new(alloc);
    let mut to_go = count;
    'layers: while to_go > 0 {
        let Some(frame) = stack.pop() else {
            return Ok(Way { passed, met: None });
        };
        match taken(frame, &mut passed)? {
            None => to_go -= 1,
            met => return Ok(Way { passed, met }),
        }
    }
    Ok(Way { passed, met: None })
}

/// How many layers an exit to the layer of this number goes past. The top has the number 0, and is no layer of the stack.
fn distance(stack: &Stack, target: u64) -> u64
    ensures { result ≡ distance target stack.now.context }
{
    (stack.depth() - 1).saturating_sub(target.saturating_sub(1))
}

/// Puts the cleanup of a form that was met in that form's place, where it keeps the exit.
fn go_on(stack: &mut Stack, met: Option<Met>, target: u64, bring: Bring) -> Result<Next, NoMemory>
    ensures next { IfOk result (λ next. next ≡ next_of bring met) }
    ensures kept { IfOk result (λ _. stack.new ≡ with_context (kept (saved.Exit target bring) stack.old.context met) stack.old) }
{
    let Some(Met { serial, cleanup }) = met else {
        return Ok(Next::Arrives(bring));
    };
    let saved = Saved::Exit { target, bring };
    stack.push_over(Frame::Cleanup { serial, saved })?;
    Ok(Next::Cleans { serial, cleanup })
}

/// Leaves the layers inside the target, and the target itself. At the innermost protected form on the way it stops: a cleanup stands in that
/// form's place and keeps the exit, which goes on once the cleanup is over.
#[tactic(auto, using(crate::proofs::LeavingLemmas::left_where))]
pub fn leave(stack: &mut Stack, alloc: Global, target: u64, bring: Bring) -> Result<Left, NoMemory>
    ensures left { IfOk result (λ left. (t : ℕ) → exit.leave t (saved.Exit target bring) (distance target stack.old.context) stack.old.context ≡ left_behind t stack.new.context left) }
    ensures brought { IfOk result (λ left. IsBrought bring left.next) }
    ensures rest { IfOk result (λ _. stack.new ≡ with_context stack.new.context stack.old) }
{
    let count = distance(stack, target);
    let Way { passed, met } = pass(stack, alloc, count)?;
    let next = go_on(stack, met, target, bring)?;
    Ok(Left { passed, next })
}
