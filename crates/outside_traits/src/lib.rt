//! What is outside: a source of octets, a sink of octets, and both in memory.
//!
//! A source and a sink count their faults. What the crates above use is that a call fails only where that count rose, or stood at
//! 2^64 - 1; that a read moves octets from the front of what is left to the front of the buffer; and that a write adds octets of
//! the front of the piece to what is written. A device may keep its octets to itself: what is left and what is written is told by
//! devices in memory, and by others not. The definitions stand in `specs/Faults.antt`, `specs/Told.antt`, `specs/Source.antt` and
//! `specs/Sink.antt`, those of the devices in memory in `specs/Calls.antt`, `specs/MemSource.antt` and `specs/MemSink.antt`.
#![tactic(auto)]

mod calls;
mod failed;
mod mem_sink;
mod mem_source;
mod sink;
mod source;
#[cfg(test)]
mod tests;

pub use failed::Failed;
pub use mem_sink::MemSink;
pub use mem_source::MemSource;
pub use sink::{CutShort, Sink, write_all};
pub use source::Source;
