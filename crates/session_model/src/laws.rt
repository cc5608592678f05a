//! The laws of journals that hold of every table of steps, as the clauses of functions that do nothing.
ghost use Rattle.std.specs.Prelude.{◌≡◌, ◌+◌, ◌<◌, ◌++◌, Bool, true, false, is_some, List, length};
ghost use Rattle.rpc_messages.specs.declared.from_emacs.FromEmacs.{FromEmacs};
ghost use Rattle.rpc_messages.specs.declared.from_emacs.FromEmacs.TheVariants as mail;
ghost use Rattle.rpc_messages.specs.declared.from_emacs.ThreadName.{ThreadName};
ghost use Rattle.step_model.specs.AsBuilt.{all_built};
ghost use Rattle.step_model.specs.Built.{Built};
ghost use Rattle.step_model.specs.Image.{ImageState};
ghost use Rattle.step_model.specs.Rules.{Rules};
ghost use Rattle.session_model.specs.declared.event.Entry.{Entry};
ghost use Rattle.session_model.specs.declared.limits.Limits.{Limits};
ghost use Rattle.session_model.specs.Arriving.{arrives, arrives_as_built, named};
ghost use Rattle.session_model.specs.Journal.{arrivals, outputs, run, steps_made};
ghost use Rattle.session_model.specs.Legal.{AllMayArrive, IsLegalFrom};
ghost use Rattle.session_model.specs.Pipe.{pipe_journal, IsServed};
ghost use Rattle.session_model.specs.World.{World, silent, thread_at};

/// As long as no interrupt is kept, one for a live thread is dropped. With all of it built each message arrives.
pub fn an_interrupt_is_kept_or_dropped()
    ensures dropped { (built : Built) (w : World) (thread : ThreadName) → built.interrupts ≡ false → is_some (thread_at w (named w thread)) ≡ true → arrives_as_built built w (mail.Interrupt thread) ≡ silent w }
    ensures all { (w : World) (m : FromEmacs) → arrives_as_built all_built w m ≡ arrives w m }
{}

/// A beginning of a legal journal is legal.
pub fn beginnings_are_legal()
    ensures { (rules : Rules) (image : ImageState) (j k : List Entry) → IsLegalFrom rules image (j ++ k) → IsLegalFrom rules image j }
{}

/// What a journal writes was drained or waits to be.
pub fn outputs_are_kept()
    ensures { (rules : Rules) (image : ImageState) (j : List Entry) → outputs rules image j ≡ (run rules image j).drained ++ (run rules image j).undrained }
{}

/// A piped session takes its messages in order, each once, and none that isn't there.
pub fn a_pipe_takes_in_order()
    ensures { (rules : Rules) (image : ImageState) (messages : List FromEmacs) (ends : Bool) (limits : Limits) → (rest : List FromEmacs) × (arrivals (pipe_journal rules image messages ends limits) ++ rest ≡ messages) }
{}

/// The journal of a piped session is legal where its messages are such as may arrive.
pub fn a_pipe_is_legal()
    ensures { (rules : Rules) (image : ImageState) (messages : List FromEmacs) (ends : Bool) (limits : Limits) → AllMayArrive messages → IsLegalFrom rules image (pipe_journal rules image messages ends limits) }
{}

/// A piped session whose input ended, and which neither closed nor reached a limit, has taken all messages and is quiet.
pub fn a_pipe_serves_all()
    ensures { (rules : Rules) (image : ImageState) (messages : List FromEmacs) (limits : Limits)
        → (run rules image (pipe_journal rules image messages true limits)).closed ≡ false
        → length (pipe_journal rules image messages true limits) + 1 < limits.journal
        → steps_made (pipe_journal rules image messages true limits) < limits.steps
        → IsServed rules image messages (pipe_journal rules image messages true limits) }
{}
