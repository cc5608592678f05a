ghost use Rattle.std.specs.Prelude.{◌≡◌, ◌≢◌, ◌≤◌, ◌-◌, ◌^◌, ◌⊎◌, ℕ, List, All, Some, [], false, length, min, IfErr, IfOk, OnOk};
ghost use Rattle.outside_traits.specs.Faults.{Rose};
ghost use Rattle.packet_framing.specs.Packets.{packets};
ghost use Rattle.session_laws.specs.IsLawful.{IsLawful};
ghost use Rattle.server_laws.specs.Small.{FitsPacket, HasShortNames, are_short};
ghost use Rattle.session_model.specs.Journal.{outputs, run};
ghost use Rattle.session_model.specs.Legal.{IsLegalFrom};
ghost use Rattle.session_model.specs.Pipe.{pipe_journal};
ghost use Rattle.server_rules.specs.Rules.{rules};
ghost use Rattle.swank_core.specs.Session.{AreLimits, opening, world};
ghost use Rattle.swank_session.specs.Causes.{IsAllServed, IsBadInput, IsBroken, IsBrokenOrFull, IsCutInput, IsDue, IsFull, IsLongInput, IsSpent, IsStopped, NoFault, NoLimit};
ghost use Rattle.swank_session.specs.Course as course;
ghost use Rattle.swank_session.specs.Course.{Finishes};
ghost use Rattle.swank_session.specs.Promises.{IsEnded, IsRead, IsScheduled, IsWritten, Took, Wrote};
ghost use Rattle.swank_session.specs.Stream.{messages};

use crate::ends::{Halt, InputEnd};
use crate::reading::{Counts, serve};
use crate::{Outcome, Status};
use lisp_image::Image;
use outside_traits::{Sink, Source};
use server_laws::has_short_names;
use session_laws::each_journal_is_lawful;
use session_model::Limits;
use std::alloc::Global;
use swank_core::{Core, Journal};

/// Whether the journal has no place left but that of a drain, and the session isn't over.
fn is_out_of_room(core: &Core, limits: &Limits) -> bool
    requires whole { core.now.failed ≡ false }
    requires limits { core.now.limits ≡ limits.now }
    requires some { 1 ≤ limits.now.journal }
    ensures { result ≡ course.is_out_of_room core.now }
{
    core.journal().len() >= limits.journal - 1 && !(core.ended() && core.quiet())
}

/// The status of a session that nothing broke.
fn status_if(core: &Core, limits: &Limits, other: Status) -> Status
    requires whole { core.now.failed ≡ false }
    requires running { core.now.halted ≡ false }
    requires limits { core.now.limits ≡ limits.now }
    requires some { 1 ≤ limits.now.journal }
    ensures { result ≡ course.status_if (world core.now).closed (course.is_out_of_room core.now) other }
{
    if core.closed() {
        Status::Ok
    } else if is_out_of_room(core, limits) {
        Status::JournalFull
    } else {
        other
    }
}

fn status_of_end(end: InputEnd) -> Status
    ensures { result ≡ course.status_of_end end }
{
    match end {
        InputEnd::Whole => Status::Ok,
        InputEnd::BadHeader => Status::BadHeader,
        InputEnd::Truncated => Status::Truncated,
        InputEnd::ReadFault => Status::ReadFault,
        InputEnd::InputLimit => Status::InputLimit,
    }
}

/// The status of a session that ended so.
fn status_for(core: &Core, limits: &Limits, end: Result<InputEnd, Halt>) -> Status
    requires finishes { Finishes core.now end }
    requires running { core.now.halted ≡ false }
    requires limits { core.now.limits ≡ limits.now }
    requires some { 1 ≤ limits.now.journal }
    ensures { result ≡ course.status_for core.now end }
{
    match end {
        Ok(end) => status_if(core, limits, status_of_end(end)),
        Err(Halt::Stuck) => status_if(core, limits, Status::Budget),
        Err(Halt::WriteFault) => Status::WriteFault,
        Err(Halt::NoMemory) => Status::NoMemory,
    }
}

/// A session over this image, which is handed back where it has a long package name, or memory is wanting.
fn begin(alloc: Global, image: Image, limits: &Limits) -> Result<Core, Image>
    requires limits { AreLimits limits.now }
    ensures ok { IfOk result (λ core. core ≡ opening image limits.now) }
    ensures short { OnOk result (HasShortNames image) }
    ensures err { IfErr result (λ back. back ≡ image) }
{
    if !has_short_names(&image) {
        return Err(image);
    }
    match Core::open(alloc, image, limits) {
        Ok(core) => Ok(core),
        Err(back) => Err(back),
    }
}

/// A whole session: the messages of a source are served by one schedule, and the packets of what is answered are written to a sink.
///
/// Octets are told where the source and the sink tell them; over those that tell nothing what is said of the journal alone holds, and of the
/// causes of faults.
pub fn run_pipe<S: Source, K: Sink>(
    alloc: Global,
    image: Image,
    limits: &Limits,
    input: &mut S,
    output: &mut K,
) -> Outcome
    requires limits { AreLimits limits.now }

    // The journal is legal from the image handed in, and every law of journals holds of it.
    ensures legal { IsLegalFrom rules image result.journal }
    ensures lawful { IsLawful rules image result.journal }

    // What arrived are the first messages of the octets taken, and nothing is read far ahead.
    ensures read { (octets : List ℕ) → Took (S.left input.old) (S.left input.new) octets → IsRead result.status (S.ended input.new) octets image result.journal }
    ensures taken { (octets : List ℕ) → Took (S.left input.old) (S.left input.new) octets → result.taken ≡ length octets }

    // What was written are the packets of the outputs of the journal's run, or a beginning of them where writing failed.
    ensures written { (octets : List ℕ) → Wrote (K.written output.old) (K.written output.new) octets → IsWritten result.status image result.journal octets }
    ensures sent { (octets : List ℕ) → Wrote (K.written output.old) (K.written output.new) octets → result.sent ≡ min (length octets) (2 ^ 64 - 1) }

    // Each output fits a packet. An image whose package names are not short is refused before anything is read: where a name, or the
    // prompt for it, has more than 2^20 octets, or COMMON-LISP-USER is missing.
    ensures framed { All FitsPacket (outputs rules image result.journal) }
    ensures long_names { are_short image.packages ≡ false
        → (result.status ≡ Status.NoMemory) × (result.journal ≡ []) × (result.taken ≡ 0) × (result.sent ≡ 0) × (result.image ≡ image)
        × (input.new ≡ input.old) × (output.new ≡ output.old) }

    // At the end of the input all is served.
    ensures ended { IsEnded result.status (S.ended input.new) (run rules image result.journal) }

    // The journal is the pipe's of these messages, up to the point where writing failed or memory was wanting.
    ensures scheduled { (octets : List ℕ) → Took (S.left input.old) (S.left input.new) octets
        → IsScheduled result.status result.journal (pipe_journal rules image (messages octets) (S.ended input.new) limits.now) }
    ensures image { result.status ≢ Status.NoMemory → result.image ≡ (run rules image result.journal).image }

    // Each status has its cause.
    ensures ok { (octets : List ℕ) → Took (S.left input.old) (S.left input.new) octets
        → IsDue result.status Status.Ok IsStopped (IsAllServed (run rules image result.journal) (S.ended input.new) octets) }
    ensures usage { result.status ≢ Status.Usage }
    ensures read_fault { result.status ≡ Status.ReadFault → Rose (S.faults input.old) (S.faults input.new) }
    ensures write_fault { result.status ≡ Status.WriteFault → Rose (K.faults output.old) (K.faults output.new) }
    ensures bad_header { (octets : List ℕ) → Took (S.left input.old) (S.left input.new) octets
        → IsDue result.status Status.BadHeader IsStopped (IsBadInput (run rules image result.journal) octets) }
    ensures truncated { (octets : List ℕ) → Took (S.left input.old) (S.left input.new) octets
        → IsDue result.status Status.Truncated IsStopped (IsCutInput (run rules image result.journal) (S.ended input.new) octets) }
    ensures input_limit { (octets : List ℕ) → Took (S.left input.old) (S.left input.new) octets
        → IsDue result.status Status.InputLimit IsStopped (IsLongInput (run rules image result.journal) (S.ended input.new) octets) }
    ensures budget { IsDue result.status Status.Budget IsBrokenOrFull (IsSpent limits.now result.journal (run rules image result.journal)) }
    ensures journal_full { IsDue result.status Status.JournalFull IsBroken (IsFull limits.now result.journal (run rules image result.journal)) }

    // Over an input of whole packets, without faults and within the limits, a session ends well, or memory was wanting.
    ensures complete { (octets : List ℕ) → S.left input.old ≡ Some octets → (packets octets).rest ≡ []
        → NoFault (S.faults input.old) (S.faults input.new) → NoFault (K.faults output.old) (K.faults output.new)
        → NoLimit limits.now result.journal result.taken → (result.status ≡ Status.Ok) ⊎ (result.status ≡ Status.NoMemory) }
{
    each_journal_is_lawful();
    match begin(alloc, image, limits) {
        Err(image) => Outcome {
            status: Status::NoMemory,
            image,
            journal: Journal::new(alloc),
            taken: 0,
            sent: 0,
        },
        Ok(opened) => {
            let mut core = opened;
            let mut counts = Counts { taken: 0, sent: 0 };
            let end = serve(alloc, &mut core, limits, input, output, &mut counts);
            let status = status_for(&core, limits, end);
            let (image, journal) = core.into_parts();
            Outcome {
                status,
                image,
                journal,
                taken: counts.taken,
                sent: counts.sent,
            }
        }
    }
}
