ghost use Rattle.std.specs.Prelude.{◌≡◌, ◌≤◌, Ok, Err};
ghost use Rattle.outside_traits.specs.Faults.{Rose};
ghost use Rattle.server_laws.specs.Small.{HasShortNames};
ghost use Rattle.swank_core.specs.Session.{opening};
ghost use Rattle.swank_session.specs.Course.{Completes};

use crate::ends::{Halt, InputEnd};
use crate::serving::{end_input, take_message};
use inlet::{Pumped, pump};
use outside_traits::{Sink, Source};
use packet_framing::Decoder;
use session_model::Limits;
use std::alloc::Global;
use swank_core::Core;

/// How many octets were taken from the source, and how many the sink took.
#[derive(Clone, Copy, Debug)]
pub struct Counts {
    pub taken: u64,
    pub sent: u64,
}

/// Serves the messages of a source until it ends, or the schedule stops.
pub fn serve<S: Source, K: Sink>(
    alloc: Global,
    core: &mut Core,
    limits: &Limits,
    input: &mut S,
    output: &mut K,
    counts: &mut Counts,
) -> Result<InputEnd, Halt>
    requires fresh { core.old ≡ opening core.old.opened limits.now }
    requires names { HasShortNames core.old.opened }
    requires none { counts.old.taken ≡ 0 }
    ensures completes { Completes (S.left input.old) (S.left input.new) (S.ended input.new) (K.written output.old) (K.written output.new) counts.new.taken counts.old.sent counts.new.sent core.old core.new result }
    ensures read_later { S.faults input.old ≤ S.faults input.new }
    ensures read_fault { result ≡ Ok InputEnd.ReadFault → Rose (S.faults input.old) (S.faults input.new) }
    ensures write_later { K.faults output.old ≤ K.faults output.new }
    ensures write_fault { result ≡ Err Halt.WriteFault → Rose (K.faults output.old) (K.faults output.new) }
{
    let mut decoder = Decoder::new(alloc);
    loop {
        let m = match pump(alloc, input, &mut decoder, &mut counts.taken) {
            Pumped::Message(m) => m,
            Pumped::NoMemory => return Err(Halt::NoMemory),
            Pumped::BadHeader => return Ok(InputEnd::BadHeader),
            Pumped::ReadFault => return Ok(InputEnd::ReadFault),
            Pumped::InputLimit => return Ok(InputEnd::InputLimit),
            Pumped::End => {
                if let Err(halt) = end_input(alloc, core, limits, output, &mut counts.sent) {
                    return Err(halt);
                }
                return Ok(InputEnd::Whole);
            }
            Pumped::Truncated => {
                if let Err(halt) = end_input(alloc, core, limits, output, &mut counts.sent) {
                    return Err(halt);
                }
                return Ok(InputEnd::Truncated);
            }
        };
        if let Err(halt) = take_message(alloc, core, limits, m, output, &mut counts.sent) {
            return Err(halt);
        }
    }
}
