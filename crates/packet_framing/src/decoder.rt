ghost use Rattle.std.specs.Prelude.{◌≡◌, ◌+◌, ◌<◌, ◌↔◌, [], ◌++◌, length, OnOk, OnErr};
ghost use Rattle.packet_framing.specs.Front.{IsFront};
ghost use Rattle.packet_framing.specs.Packets.{IsBad, IsUnfinished};

use crate::header::length_in;
use lisp_data::NoMemory;
use std::alloc::Global;
use std::marker::Model;

/// The octets that were fed and not yet given as packets.
#[derive(Drop)]
pub struct Decoder {
    buffer: Vec<u8>,
    start: usize,
}

impl Model for Decoder {
    ghost use Rattle.std.specs.Prelude.{List, ℕ, drop, length, ◌≤◌};

    ghost Value = { List ℕ };

    ghost view = { λ d. drop d.start d.buffer.items };

    ghost invariant = { λ d. d.start ≤ length d.buffer.items };
}

/// What stands at the front of the octets that a decoder keeps.
#[derive(Clone, Copy, Debug)]
pub enum Next<'a> {
    /// The payload of a whole packet.
    Packet(&'a [u8]),
    /// Octets that further octets may complete to a packet.
    NotYet,
    /// Six octets that are not all hexadecimal digits. No further octets mend that.
    BadHeader,
}

/// What stands at the front of some octets; a packet by the length of its payload.
#[derive(Clone, Copy)]
enum Front {
    Packet(usize),
    NotYet,
    BadHeader,
}

fn front_of(octets: &[u8]) -> Front
    ensures { IsFront octets.now result }
{
    if octets.len() < 6 {
        return Front::NotYet;
    }
    match length_in(&octets[..6]) {
        None => Front::BadHeader,
        Some(len) => {
            if octets.len() - 6 < len {
                Front::NotYet
            } else {
                Front::Packet(len)
            }
        }
    }
}

impl Decoder {
    ghost use Rattle.std.specs.Borrow.{sem};
    ghost use Rattle.packet_framing.specs.Decoder.{Gives, PassesFirst};

    /// A decoder that keeps nothing, which takes no memory.
    pub fn new(alloc: Global) -> Decoder
        ensures { result ≡ [] }
    {
        Decoder {
            buffer: Vec::new(alloc),
            start: 0,
        }
    }

    /// How many octets were fed and not yet given, those of headers among them.
    pub fn kept(&self) -> usize
        ensures { result ≡ length self.now }
    {
        self.buffer.len() - self.start
    }

    /// Adds octets behind those that are kept. A piece may end anywhere, also inside a header, and may be empty. However the
    /// octets are cut into pieces, each of them is moved a bounded number of times.
    pub fn feed(&mut self, piece: &[u8]) -> Result<(), NoMemory>
        ensures ok { OnOk result (self.new ≡ self.old ++ piece.now) }
        ensures err { OnErr result (self.new ≡ self.old) }
    {
        self.compact();
        self.buffer.extend_from_slice(piece)?;
        Ok(())
    }

    /// Drops the octets that were given, once they are more than those that are kept: so what is moved is less than what was
    /// given since the last time.
    fn compact(&mut self)
        ensures { self.new ≡ self.old }
    {
        let kept = self.buffer.len() - self.start;
        if self.start > kept {
            self.buffer.copy_within(self.start.., 0);
            self.buffer.truncate(kept);
            self.start = 0;
        }
    }

    /// Lends the payload of the packet at the front, without a copy, and passes over that packet. It takes no memory.
    pub fn next(&mut self) -> Next<'_>
        ensures* keeps { sem 𝓛 (PassesFirst self.entry) }
        ensures gives { Gives self.old result }
        ensures not_yet { (result ≡ Next.NotYet) ↔ IsUnfinished self.old }
        ensures bad_header { (result ≡ Next.BadHeader) ↔ IsBad self.old }
        ensures not_yet_length { result ≡ Next.NotYet → length self.old < 6 + 0xFFFFFF }
    {
        let kept = &self.buffer[self.start..];
        match front_of(kept) {
            Front::Packet(len) => {
                self.start += 6 + len;
                Next::Packet(&kept[6..6 + len])
            }
            Front::NotYet => Next::NotYet,
            Front::BadHeader => Next::BadHeader,
        }
    }
}
