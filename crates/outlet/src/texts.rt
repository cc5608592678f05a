ghost use Rattle.std.specs.Prelude.{◌≡◌, ◌++◌, ◌≤◌, All, length, IfOk, IfErr};
ghost use Rattle.outlet.specs.Written.{part_sent};
ghost use Rattle.outside_traits.specs.Faults.{Rose};
ghost use Rattle.outside_traits.specs.Told.{BothTold};
ghost use Rattle.packet_framing.specs.Frames.{frames};

use lisp_data::{NoMemory, Rows, Text};
use outside_traits::{CutShort, Failed, Sink, write_all};
use packet_framing::{FrameFault, frame};
use std::alloc::Global;

/// Why a batch of texts was not written whole.
#[derive(Clone, Copy, Debug, PartialEq, Eq)]
pub enum WriteCause {
    /// The sink failed, in a write or in the finish.
    WriteFault,
    /// Memory was wanting for the packets.
    NoMemory,
}

/// A batch of texts that was not written whole, or not finished.
#[derive(Clone, Copy, Debug, PartialEq, Eq)]
pub struct WriteFailure {
    pub cause: WriteCause,
    /// How many octets of the packets the sink took. Where only the finish failed these are all of them.
    pub sent: u64,
}

/// The packets of texts, one after another.
fn packets_of(alloc: Global, texts: &[Text]) -> Result<Rows<u8>, NoMemory>
    requires { All (λ text. length text ≤ 0xFFFFFF) texts.now }
    ensures { IfOk result (λ packets. packets ≡ frames texts.now) }
{
    let mut packets = Rows::new(alloc);
    for text in texts {
        match frame(&mut packets, text) {
            Ok(()) => {}
            Err(FrameFault::TooLong) => unreachable!(),
            Err(FrameFault::NoMemory) => return Err(NoMemory),
        }
    }
    Ok(packets)
}

/// Writes the packets of texts in one batch, which is one `write` where the sink takes it whole, and finishes; also an empty
/// batch, for which it writes nothing. Gives how many octets were written.
pub fn write_texts<K: Sink>(
    alloc: Global,
    sink: &mut K,
    texts: &[Text],
) -> Result<u64, WriteFailure>
    requires { All (λ text. length text ≤ 0xFFFFFF) texts.now }
    ensures bytes { BothTold (K.written sink.old) (K.written sink.new) (λ old new. new ≡ old ++ part_sent result (frames texts.now)) }
    ensures whole { IfOk result (λ sent. sent ≡ length (frames texts.now)) }
    ensures part { IfErr result (λ failure. failure.sent ≤ length (frames texts.now)) }

    ensures later { K.faults sink.old ≤ K.faults sink.new }
    ensures write_fault { IfErr result (λ failure. failure.cause ≡ WriteCause.WriteFault → Rose (K.faults sink.old) (K.faults sink.new)) }
    // memory is taken before the first write
    ensures no_memory { IfErr result (λ failure. failure.cause ≡ WriteCause.NoMemory → (failure.sent ≡ 0) × (sink.new ≡ sink.old)) }
{
    let Ok(packets) = packets_of(alloc, texts) else {
        return Err(WriteFailure {
            cause: WriteCause::NoMemory,
            sent: 0,
        });
    };
    let whole = packets.len() as u64;
    if let Err(CutShort { taken }) = write_all(sink, packets.as_slice()) {
        return Err(WriteFailure {
            cause: WriteCause::WriteFault,
            sent: taken as u64,
        });
    }
    match sink.finish() {
        Ok(()) => Ok(whole),
        Err(Failed) => Err(WriteFailure {
            cause: WriteCause::WriteFault,
            sent: whole,
        }),
    }
}
