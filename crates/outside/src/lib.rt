//! The world outside as traits: where bytes come from and where they go, wires and the doors that they
//! come through, words of chance, the time, and the gate that a turn passes. What can fail has a count
//! of its faults.
//!
//! What runs over these traits is proved once, for every implementation. [`MemSource`], [`MemSink`],
//! [`MemWire`], [`MemDoor`], [`SeqEntropy`] and [`MemClock`] are memory, with the calls that are to
//! fail; they tell everything. [`StdSource`], [`StdSink`], [`TcpWire`], [`TcpDoor`], [`OsEntropy`] and
//! [`OsClock`] are the operating system's; they tell nothing, and what they do beyond their counts is
//! trusted. [`Shared`] is one entropy or clock for several threads.
#![tactic(auto)]

mod clock;
mod door;
mod entropy;
mod gate;
mod mem_clock;
mod mem_door;
mod mem_sink;
mod mem_source;
mod mem_wire;
mod seq_entropy;
mod shared;
mod sink;
mod source;
mod standard;
mod system;
mod tcp;
mod wire;

pub use clock::Clock;
pub use door::{Accepted, Door};
pub use entropy::Entropy;
pub use gate::{Gate, Open};
pub use mem_clock::MemClock;
pub use mem_door::MemDoor;
pub use mem_sink::MemSink;
pub use mem_source::MemSource;
pub use mem_wire::MemWire;
pub use seq_entropy::SeqEntropy;
pub use shared::Shared;
pub use sink::{Sink, Wrote};
pub use source::{ReadGot, Source};
pub use standard::{StdSink, StdSource};
pub use system::{OsClock, OsEntropy};
pub use tcp::{TcpDoor, TcpWire};
pub use wire::Wire;
