//! What worked sessions write.
ghost use Rattle.std.specs.Prelude.{◌≡◌, pos};
ghost use Rattle.lisp_data.specs.declared.value.Value.TheVariants as value;
ghost use Rattle.lisp_errors.specs.Causes.{wrong_kind};
ghost use Rattle.lisp_errors.specs.declared.wanted.Wanted.TheVariants as wanted;
ghost use Rattle.session_model.specs.Journal.{outputs};
ghost use Rattle.server_rules.specs.Rules.{rules};
ghost use Rattle.step_model.specs.Announcing.{debug_message};
ghost use Rattle.step_model.specs.CurrentPackage.{user_package};
ghost use Rattle.worked_sessions.specs.Announcement.{announcement, around, error};
ghost use Rattle.worked_sessions.specs.Evaluation as evaluation;
ghost use Rattle.worked_sessions.specs.FirstImage.{image};
ghost use Rattle.worked_sessions.specs.Information as information;
ghost use Rattle.worked_sessions.specs.UnbuiltCall as unbuilt;

/// `(swank:connection-info)` for a new worker, which ends with its request.
pub fn a_request_is_told_of_the_server()
    ensures { outputs rules image information.journal ≡ information.messages }
{}

/// `(swank-repl:listener-eval "1")` on the thread of the REPL.
pub fn a_text_is_evaluated()
    ensures { outputs rules image evaluation.journal ≡ evaluation.messages }
{}

/// `(swank-repl:listener-eval "(car 1)")` on the thread of the REPL: a call is not built, and leaves the request.
pub fn a_call_is_aborted()
    ensures { outputs rules image unbuilt.journal ≡ unbuilt.messages }
{}

/// What Emacs is told of a level that `(car 1)` opens, in a request of a new worker.
pub fn a_type_error_is_announced()
    ensures condition { wrong_kind user_package (value.Int (pos 1)) wanted.List ≡ error }
    ensures message { debug_message image 2 1 error around ≡ announcement }
{}
