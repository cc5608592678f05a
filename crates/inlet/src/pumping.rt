ghost use Rattle.std.specs.Prelude.{◌≡◌, ◌+◌, ◌<◌, ◌≤◌, ◌++◌, ◌⊎◌, None, length, false, true};
ghost use Rattle.inlet.specs.Pump.{met_end, IsMessage, NothingLeft, Pumps};
ghost use Rattle.inlet.specs.Reads.{is_end, AnswersKept, Feeds};
ghost use Rattle.outside_traits.specs.Faults.{Rose};
ghost use Rattle.packet_framing.specs.Packets.{first_packet, IsUnfinished};

use crate::message_of;
use lisp_data::NoMemory;
use outside_traits::{Failed, Source};
use packet_framing::{Decoder, Next};
use rpc_messages::FromEmacs;
use std::alloc::Global;

/// The most octets that are read of a session's input: 64 MiB.
pub const INPUT_LIMIT: u64 = 67_108_864;

/// The most octets that one read asks for.
const MAX_READ: usize = 4096;

/// What a call of [`pump`] answers.
#[derive(Drop)]
pub enum Pumped {
    /// The next message of the stream.
    Message(FromEmacs),
    /// The input ended between two packets.
    End,
    /// Six octets that should be a header are not all hexadecimal digits.
    BadHeader,
    /// The input ended inside a packet.
    Truncated,
    /// The source failed.
    ReadFault,
    /// As many octets were read as a session may have, and they hold no further packet.
    InputLimit,
    NoMemory,
}

/// What the octets that are kept hold.
#[derive(Drop)]
enum Held {
    Message(FromEmacs),
    NotYet,
    BadHeader,
    NoMemory,
}

/// What a read brought.
#[derive(Clone, Copy)]
enum Fed {
    More,
    End,
    Fault,
    NoMemory,
}

/// Takes the message of the packet at the front, if a whole one is kept.
fn take_message(alloc: Global, decoder: &mut Decoder) -> Held
    ensures { AnswersKept decoder.old decoder.new result }
{
    match decoder.next() {
        Next::Packet(payload) => match message_of(alloc, payload) {
            Ok(message) => Held::Message(message),
            Err(NoMemory) => Held::NoMemory,
        },
        Next::NotYet => Held::NotYet,
        Next::BadHeader => Held::BadHeader,
    }
}

/// Reads once, and feeds what was read to the decoder.
fn feed<S: Source>(source: &mut S, decoder: &mut Decoder, taken: &mut u64) -> Fed
    requires { taken.old < INPUT_LIMIT }
    ensures feeds { Feeds (S.left source.old) (S.left source.new) decoder.old decoder.new taken.old taken.new result }
    ensures ended { S.ended source.new ≡ is_end result }
    ensures later { S.faults source.old ≤ S.faults source.new }
    ensures fault { result ≡ Fed.Fault → Rose (S.faults source.old) (S.faults source.new) }
    ensures within { taken.new ≤ INPUT_LIMIT }
    ensures empty { result ≡ Fed.End → NothingLeft (S.left source.new) }
{
    let mut buf = [0; MAX_READ];
    let wanted = (INPUT_LIMIT - *taken).min(MAX_READ as u64) as usize;
    match source.read(&mut buf[..wanted]) {
        Err(Failed) => Fed::Fault,
        Ok(0) => Fed::End,
        Ok(n) => {
            *taken += n as u64;
            match decoder.feed(&buf[..n]) {
                Ok(()) => Fed::More,
                Err(NoMemory) => Fed::NoMemory,
            }
        }
    }
}

/// Reads until a whole packet is kept, or no more can be read.
fn read_on<S: Source>(
    alloc: Global,
    source: &mut S,
    decoder: &mut Decoder,
    taken: &mut u64,
) -> Pumped
    requires unfinished { IsUnfinished decoder.old }
    requires limit { taken.old ≤ INPUT_LIMIT }
    ensures pumps { Pumps (S.left source.old) (S.left source.new) decoder.old decoder.new taken.old taken.new (S.ended source.new) result }
    ensures later { S.faults source.old ≤ S.faults source.new }
    ensures fault { result ≡ Pumped.ReadFault → Rose (S.faults source.old) (S.faults source.new) }
    ensures within { taken.new ≤ INPUT_LIMIT }
    ensures full { taken.old ≡ INPUT_LIMIT → source.new ≡ source.old }
    ensures limit { taken.old ≡ INPUT_LIMIT → result ≡ Pumped.InputLimit }
    ensures ended { S.ended source.old ≡ false → S.ended source.new ≡ met_end result }
    ensures met { taken.old < INPUT_LIMIT → S.ended source.new ≡ met_end result }
    ensures empty { met_end result ≡ true → NothingLeft (S.left source.new) }
    ensures few { IsMessage result → length decoder.new ≤ 4095 }
    ensures bounded { length decoder.new ≤ 16781316 }
{
    while *taken < INPUT_LIMIT {
        match feed(source, decoder, taken) {
            Fed::More => {}
            Fed::End if decoder.kept() == 0 => return Pumped::End,
            Fed::End => return Pumped::Truncated,
            Fed::Fault => return Pumped::ReadFault,
            Fed::NoMemory => return Pumped::NoMemory,
        }
        match take_message(alloc, decoder) {
            Held::NotYet => {}
            Held::Message(message) => return Pumped::Message(message),
            Held::BadHeader => return Pumped::BadHeader,
            Held::NoMemory => return Pumped::NoMemory,
        }
    }
    Pumped::InputLimit
}

/// The next message of a stream: of the octets that the decoder keeps, and behind them those that are read.
///
/// `taken` counts the octets read in all. A read asks for 4,096 octets at most, and for none past the limit. The octets that were
/// read in a call that answers `NoMemory` may be missing from the decoder.
pub fn pump<S: Source>(
    alloc: Global,
    source: &mut S,
    decoder: &mut Decoder,
    taken: &mut u64,
) -> Pumped
    requires { taken.old ≤ INPUT_LIMIT }

    // What was read, what is answered on it, and what is kept then.
    ensures pumps { Pumps (S.left source.old) (S.left source.new) decoder.old decoder.new taken.old taken.new (S.ended source.new) result }

    // Faults are the source's own.
    ensures later { S.faults source.old ≤ S.faults source.new }
    ensures fault { result ≡ Pumped.ReadFault → Rose (S.faults source.old) (S.faults source.new) }

    // Nothing is read where a packet or a bad header is kept, nor past the limit.
    ensures source { (¬ IsUnfinished decoder.old) → source.new ≡ source.old }
    ensures taken { (¬ IsUnfinished decoder.old) → taken.new ≡ taken.old }
    ensures within { taken.new ≤ INPUT_LIMIT }
    ensures full { taken.old ≡ INPUT_LIMIT → source.new ≡ source.old }
    ensures limit { IsUnfinished decoder.old → taken.old ≡ INPUT_LIMIT → result ≡ Pumped.InputLimit }

    // The end of input was met exactly where the answer says so, and then nothing is left.
    ensures ended { S.ended source.old ≡ false → S.ended source.new ≡ met_end result }
    ensures met { IsUnfinished decoder.old → taken.old < INPUT_LIMIT → S.ended source.new ≡ met_end result }
    ensures empty { met_end result ≡ true → NothingLeft (S.left source.new) }

    // Few octets are kept behind a message, and never more than a packet and a read can leave.
    ensures few { ((length decoder.old ≤ 4095) ⊎ (first_packet decoder.old ≡ None)) → IsMessage result → length decoder.new ≤ 4095 }
    ensures bounded { length decoder.old ≤ 16781316 → length decoder.new ≤ 16781316 }
{
    match take_message(alloc, decoder) {
        Held::NotYet => read_on(alloc, source, decoder, taken),
        Held::Message(message) => Pumped::Message(message),
        Held::BadHeader => Pumped::BadHeader,
        Held::NoMemory => Pumped::NoMemory,
    }
}
