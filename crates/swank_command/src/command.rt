ghost use Rattle.std.specs.Prelude.{◌≡◌, ◌≢◌, ◌-◌, ◌^◌, ◌⊎◌, ℕ, List, All, Some, None, [], false, length, min};
ghost use Rattle.outside_traits.specs.Faults.{Rose};
ghost use Rattle.packet_framing.specs.Packets.{packets};
ghost use Rattle.session_laws.specs.IsLawful.{IsLawful};
ghost use Rattle.session_model.specs.declared.limits.Limits.{Limits as TheLimits};
ghost use Rattle.server_laws.specs.Small.{FitsPacket, are_short};
ghost use Rattle.session_model.specs.Journal.{outputs, run as run_of};
ghost use Rattle.session_model.specs.Legal.{IsLegalFrom};
ghost use Rattle.session_model.specs.Pipe.{pipe_journal};
ghost use Rattle.server_rules.specs.Rules.{rules};
ghost use Rattle.swank_session.specs.Causes.{IsAllServed, IsBadInput, IsBroken, IsBrokenOrFull, IsCutInput, IsDue, IsFull, IsLongInput, IsSpent, IsStopped, NoFault, NoLimit};
ghost use Rattle.swank_session.specs.Promises.{IsEnded, IsRead, IsScheduled, IsWritten, Took, Wrote};
ghost use Rattle.swank_session.specs.Stream.{messages};
ghost use Rattle.command_words.specs.Words.{limits_of};
ghost use Rattle.swank_command.specs.Ends.{status_of};

use command_words::{WordsFault, limits_in};
use lisp_data::Text;
use lisp_image::Image;
use outside_traits::{Sink, Source};
use session_laws::each_journal_is_lawful;
use std::alloc::Global;
use swank_session::{Journal, Outcome, Status, run_pipe};

/// What is left behind where nothing ran.
fn refuse(alloc: Global, fault: WordsFault, image: Image) -> Outcome
    ensures status { result.status ≡ status_of fault }
    ensures image { result.image ≡ image }
    ensures journal { result.journal ≡ [] }
    ensures taken { result.taken ≡ 0 }
    ensures sent { result.sent ≡ 0 }
{
    Outcome {
        status: match fault {
            WordsFault::Usage => Status::Usage,
            WordsFault::NoMemory => Status::NoMemory,
        },
        image,
        journal: Journal::new(alloc),
        taken: 0,
        sent: 0,
    }
}

/// The program over a source and a sink: it runs the session that the words ask for, from the image handed in.
///
/// Octets are told where the source and the sink tell them; over those that tell nothing what is said of the journal alone holds, and of the
/// causes of faults.
pub fn run<S: Source, K: Sink>(
    alloc: Global,
    words: &[Text],
    image: Image,
    input: &mut S,
    output: &mut K,
) -> Outcome
    // The journal is legal from the image handed in, and every law of journals holds of it.
    ensures legal { IsLegalFrom rules image result.journal }
    ensures lawful { IsLawful rules image result.journal }

    // What arrived are the first messages of the octets taken, and nothing is read far ahead.
    ensures read { (octets : List ℕ) → Took (S.left input.old) (S.left input.new) octets → IsRead result.status (S.ended input.new) octets image result.journal }
    ensures taken { (octets : List ℕ) → Took (S.left input.old) (S.left input.new) octets → result.taken ≡ length octets }

    // What was written are the packets of the outputs of the journal's run, or a beginning of them where writing failed.
    ensures written { (octets : List ℕ) → Wrote (K.written output.old) (K.written output.new) octets → IsWritten result.status image result.journal octets }
    ensures sent { (octets : List ℕ) → Wrote (K.written output.old) (K.written output.new) octets → result.sent ≡ min (length octets) (2 ^ 64 - 1) }

    // Each output fits a packet. An image whose package names are not short is refused before anything is read: where a name, or the
    // prompt for it, has more than 2^20 octets, or COMMON-LISP-USER is missing.
    ensures framed { All FitsPacket (outputs rules image result.journal) }
    ensures long_names { (limits : TheLimits) → limits_of words.now ≡ Some limits → are_short image.packages ≡ false
        → (result.status ≡ Status.NoMemory) × (result.journal ≡ []) × (result.taken ≡ 0) × (result.sent ≡ 0) × (result.image ≡ image)
        × (input.new ≡ input.old) × (output.new ≡ output.old) }

    // At the end of the input all is served.
    ensures ended { IsEnded result.status (S.ended input.new) (run_of rules image result.journal) }

    // The journal is the pipe's of these messages, with the limits that the words give, up to the point where writing failed or memory was
    // wanting.
    ensures scheduled { (limits : TheLimits) → limits_of words.now ≡ Some limits → (octets : List ℕ) → Took (S.left input.old) (S.left input.new) octets
        → IsScheduled result.status result.journal (pipe_journal rules image (messages octets) (S.ended input.new) limits) }
    ensures image { result.status ≢ Status.NoMemory → result.image ≡ (run_of rules image result.journal).image }

    // Each status has its cause.
    ensures ok { (limits : TheLimits) → limits_of words.now ≡ Some limits → (octets : List ℕ) → Took (S.left input.old) (S.left input.new) octets
        → IsDue result.status Status.Ok IsStopped (IsAllServed (run_of rules image result.journal) (S.ended input.new) octets) }
    ensures usage { IsDue result.status Status.Usage (λ end. end ≡ Status.NoMemory) (limits_of words.now ≡ None) }
    ensures read_fault { result.status ≡ Status.ReadFault → Rose (S.faults input.old) (S.faults input.new) }
    ensures write_fault { result.status ≡ Status.WriteFault → Rose (K.faults output.old) (K.faults output.new) }
    ensures bad_header { (limits : TheLimits) → limits_of words.now ≡ Some limits → (octets : List ℕ) → Took (S.left input.old) (S.left input.new) octets
        → IsDue result.status Status.BadHeader IsStopped (IsBadInput (run_of rules image result.journal) octets) }
    ensures truncated { (limits : TheLimits) → limits_of words.now ≡ Some limits → (octets : List ℕ) → Took (S.left input.old) (S.left input.new) octets
        → IsDue result.status Status.Truncated IsStopped (IsCutInput (run_of rules image result.journal) (S.ended input.new) octets) }
    ensures input_limit { (limits : TheLimits) → limits_of words.now ≡ Some limits → (octets : List ℕ) → Took (S.left input.old) (S.left input.new) octets
        → IsDue result.status Status.InputLimit IsStopped (IsLongInput (run_of rules image result.journal) (S.ended input.new) octets) }
    ensures budget { (limits : TheLimits) → limits_of words.now ≡ Some limits
        → IsDue result.status Status.Budget IsBrokenOrFull (IsSpent limits result.journal (run_of rules image result.journal)) }
    ensures journal_full { (limits : TheLimits) → limits_of words.now ≡ Some limits
        → IsDue result.status Status.JournalFull IsBroken (IsFull limits result.journal (run_of rules image result.journal)) }

    // Words that are no command run nothing.
    ensures untouched { limits_of words.now ≡ None
        → (input.new ≡ input.old) × (output.new ≡ output.old) × (result.journal ≡ []) × (result.image ≡ image) × (result.taken ≡ 0) × (result.sent ≡ 0) }

    // Over an input of whole packets, without faults and within the limits, a session ends well, or memory was wanting.
    ensures complete { (limits : TheLimits) → limits_of words.now ≡ Some limits → (octets : List ℕ) → S.left input.old ≡ Some octets → (packets octets).rest ≡ []
        → NoFault (S.faults input.old) (S.faults input.new) → NoFault (K.faults output.old) (K.faults output.new)
        → NoLimit limits result.journal result.taken → (result.status ≡ Status.Ok) ⊎ (result.status ≡ Status.NoMemory) }
{
    each_journal_is_lawful();
    match limits_in(alloc, words) {
        Ok(limits) => run_pipe(alloc, image, &limits, input, output),
        Err(fault) => refuse(alloc, fault, image),
    }
}
