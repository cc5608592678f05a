//! The laws of every session, as the clauses of functions that do nothing.
ghost use Rattle.std.specs.Prelude.{◌≡◌, ◌++◌, true, ℕ, ℤ, List, All, codes};
ghost use Rattle.std.specs.Fmt.{signed_decimal};
ghost use Rattle.inlet.specs.Messages.{AreMessages};
ghost use Rattle.lisp_image.specs.Image.{fresh_image};
ghost use Rattle.lisp_packages.specs.Fresh.{standard_packages};
ghost use Rattle.rpc_messages.specs.declared.from_emacs.FromEmacs.{FromEmacs};
ghost use Rattle.server_laws.specs.Small.{AreSmall, FitsPacket, HasShortNames};
ghost use Rattle.server_rules.specs.Rules.{rules};
ghost use Rattle.session_laws.specs.IgnoresStale.{IgnoresStaleRequests, invoke_nth};
ghost use Rattle.session_model.specs.Journal.{arrivals, outputs, run};
ghost use Rattle.session_model.specs.Legal.{IsLegalFrom};
ghost use Rattle.session_model.specs.declared.event.Entry.{Entry};
ghost use Rattle.session_model.specs.World.{World};
ghost use Rattle.sexp_printer.specs.Printed.{printed};
ghost use Rattle.step_model.specs.Image.{ImageState};
ghost use Rattle.swank_rpc.specs.Calls.{is_served};

/// No message that a session writes is too long for a packet, where package names are short and what arrives is small. The names of a
/// fresh image are short, and the messages of a stream are small.
pub fn outputs_fit_their_packets()
    ensures fit { (image : ImageState) (j : List Entry) → HasShortNames image → AreSmall (arrivals j) → IsLegalFrom rules image j → All FitsPacket (outputs rules image j) }
    ensures fresh { HasShortNames (fresh_image standard_packages) }
    ensures stream { (octets : List ℕ) (messages : List FromEmacs) → AreMessages octets messages → AreSmall messages }
{}

/// Short names stay short: no journal, legal or not, leaves an image with a long package name where it began with none. So a second
/// session over what a first one left is not refused.
pub fn short_names_stay_short()
    ensures { (image : ImageState) (j : List Entry) → HasShortNames image → HasShortNames (run rules image j).image }
{}

/// A request `(swank:invoke-nth-restart-for-emacs L N)` for a restart that isn't there any more answers NIL and does nothing else, in every
/// world, once its function is built. `invoke_nth` is that form: this is its text on the wire.
pub fn stale_requests_do_nothing()
    ensures text { (level place : ℤ) → printed (invoke_nth level place) ≡ codes "(swank:invoke-nth-restart-for-emacs " ++ signed_decimal level ++ codes " " ++ signed_decimal place ++ codes ")" }
    ensures stale { ((level place : ℤ) → is_served (invoke_nth level place) ≡ true) → (w : World) → IgnoresStaleRequests rules w }
{}
