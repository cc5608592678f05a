ghost use Rattle.std.specs.Prelude.{◌≡◌, ◌++◌, true, IfOk, OnOk};
ghost use Rattle.lisp_frames.specs.Stack.{fresh, with_redex};
ghost use Rattle.lisp_step.specs.Machine.{interrupted, now_of, stack_of};
ghost use Rattle.lisp_step.specs.Rows.{does, image_left, mail_left, task_of};
ghost use Rattle.server_rules.specs.Beside.{Beside};
ghost use Rattle.server_rules.specs.Rules.{rules};
ghost use Rattle.server_rules.specs.Simple.{are_simple};
ghost use Rattle.step_model.specs.AsBuilt.{step_as_built};
ghost use Rattle.term_model.specs.Label.{messages_in};
ghost use Rattle.term_model.specs.declared.focus.Focus.TheVariants as focus;

use crate::forms::run;
use crate::leaving::leave;
use crate::outcomes::give_outcome;
use crate::requests::call;
use crate::task::{Task, task_of};
use crate::waiting::wait;
use lisp_data::{NoMemory, Rows};
use lisp_frames::Stack;
use lisp_image::Image;
use mailboxes::Mailbox;
use rpc_messages::ToEmacs;
use std::alloc::Global;
use term_model::Focus;

/// A thread: its number, and its stack.
pub struct Machine {
    pub stack: Stack,
    pub thread: u64,
}

impl Drop for Machine {
    fn drop(self) {
        let Machine {
            stack: _,
            thread: _,
        } = self;
    }
}

/// Does what a redex asked for. It says whether a request at the thread's top ended or an exit came to the top.
fn perform(
    alloc: Global,
    task: Task,
    stack: &mut Stack,
    image: &mut Image,
    mailbox: &mut Mailbox,
    outs: &mut Rows<ToEmacs>,
) -> Result<bool, NoMemory>
    ensures stack { OnOk result (stack.new ≡ (does image.old mailbox.old stack.old task).stack) }
    ensures outs { OnOk result (outs.new ≡ outs.old ++ (does image.old mailbox.old stack.old task).messages) }
    ensures over { IfOk result (λ over. over ≡ (does image.old mailbox.old stack.old task).over) }
    ensures mailbox { OnOk result (mailbox.new ≡ mail_left mailbox.old task) }
    ensures image { OnOk result (image.new ≡ image_left image.old stack.old.context task) }
{
    match task {
        Task::Wait(pattern) => {
            wait(alloc, pattern, stack, image, mailbox)?;
            Ok(false)
        }
        Task::Run { forms, origin } => run(alloc, forms, origin, stack, image, outs),
        Task::Give(outcome) => give_outcome(alloc, outcome, stack, image, outs),
        Task::Call => call(alloc, stack, image, outs),
        Task::Leave => {
            leave(stack, outs)?;
            Ok(true)
        }
    }
}

impl Machine {
    /// The machine of a new thread, which waits for a request. It takes no memory.
    pub fn new(alloc: Global, thread: u64) -> Machine
        ensures stack { result.stack ≡ fresh }
        ensures thread { result.thread ≡ thread }
    {
        Machine {
            stack: Stack::new(alloc),
            thread,
        }
    }

    /// Makes the next step. What it writes stands behind `outs`; it says whether a request at the thread's top ended or an exit came to
    /// the top, which ends a worker. After want of memory the machine is to be dropped.
    pub fn step(
        &mut self,
        alloc: Global,
        image: &mut Image,
        mailbox: &mut Mailbox,
        outs: &mut Rows<ToEmacs>,
    ) -> Result<bool, NoMemory>
        requires simple { are_simple self.old.stack.context ≡ true }
        ensures thread { self.new.thread ≡ self.old.thread }
        ensures simple { OnOk result (are_simple self.new.stack.context ≡ true) }
        ensures stack { OnOk result ((b : Beside) → self.new.stack ≡ stack_of (step_as_built rules.built rules (now_of self.old.thread self.old.stack mailbox.old image.old b))) }
        ensures mailbox { OnOk result ((b : Beside) → mailbox.new ≡ (step_as_built rules.built rules (now_of self.old.thread self.old.stack mailbox.old image.old b)).mailbox) }
        ensures image { OnOk result ((b : Beside) → image.new ≡ (step_as_built rules.built rules (now_of self.old.thread self.old.stack mailbox.old image.old b)).image) }
        ensures outs { OnOk result ((b : Beside) → outs.new ≡ outs.old ++ messages_in (step_as_built rules.built rules (now_of self.old.thread self.old.stack mailbox.old image.old b)).labels) }
        ensures over { IfOk result (λ over. (b : Beside) → over ≡ (step_as_built rules.built rules (now_of self.old.thread self.old.stack mailbox.old image.old b)).over) }
    {
        let redex = self.stack.replace_focus(Focus::Abort);
        perform(alloc, task_of(redex), &mut self.stack, image, mailbox, outs)
    }

    /// Takes an interrupt: as long as no level of the debugger may be opened, the thread leaves by the innermost visible ABORT next. It
    /// takes no memory.
    pub fn interrupt(&mut self)
        ensures thread { self.new.thread ≡ self.old.thread }
        ensures stack { self.new.stack ≡ interrupted self.old.stack }
    {
        self.stack.set_focus(Focus::Abort);
    }
}
