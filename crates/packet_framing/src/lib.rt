//! Packets: the framing of Swank's wire, a header of six hexadecimal digits that gives a length in octets, then that many octets.
//!
//! A [`Decoder`] is fed octets in pieces of any size and lends the payloads of the whole packets among them; [`frame`] writes the
//! packet of a text. What the layers above use is that, whatever the pieces were, the payloads given are those of `packets` of all
//! the octets fed, and the octets kept are the rest; [`decode_pieces`] says so of a whole run, and the calls of the laws module say
//! it of every order of calls. The definitions stand in `specs/Packets.antt` (what a stream holds) and `specs/Frames.antt` (what is
//! written).
#![tactic(auto)]

mod decoder;
mod framing;
mod header;
mod laws;
mod pieces;
#[cfg(test)]
mod tests;

pub use decoder::{Decoder, Next};
pub use framing::{FrameFault, frame};
pub use header::header_of;
pub use laws::{any_calls, frames_are_read, later_octets, lengths, packet_by_packet};
pub use pieces::{Decoded, decode_pieces};
