// A sink that keeps what it takes, and whose writes fail where it is told so.
ghost use Rattle.std.specs.Prelude.{◌≡◌, [], IfOk};

use crate::{Sink, Wrote};
use std::alloc::Global;
use std::marker::Model;
use term_core::Memory;

/// A sink in memory that tells what it took, takes each piece whole, and fails at the writes that it
/// is told to fail at.
///
/// Where it can't grow for want of memory the write fails too, and its count rises.
#[derive(Drop)]
pub struct MemSink {
    bytes: Vec<u8>,
    fails: Vec<u64>,
    writes: u64,
    faults: u64,
}

impl Model for MemSink {
    ghost use Rattle.outside.specs.Memory.{SinkState};

    ghost Value = { SinkState };

    ghost view = { λ s. record {
      taken = s.bytes.items;
      fails = s.fails.items;
      writes = s.writes;
      faults = s.faults;
    } };
}

impl MemSink {
    /// A sink that has taken nothing, and fails at the writes of the numbers in `fails`, counted from
    /// 1. `Err` is want of memory.
    pub fn new(alloc: Global, fails: &[u64]) -> Result<MemSink, Memory>
        ensures { IfOk result (λ s. s ≡ record {
          taken = [];
          fails = fails.now;
          writes = 0;
          faults = 0;
        }) }
    {
        Ok(MemSink {
            bytes: Vec::new(alloc),
            fails: fails.to_vec(alloc)?,
            writes: 0,
            faults: 0,
        })
    }

    /// How often it has failed.
    pub fn faults(&self) -> u64
        ensures { result ≡ self.now.faults }
    {
        self.faults
    }

    /// The bytes that it has taken.
    pub fn taken(&self) -> &[u8]
        ensures { result.now ≡ self.now.taken }
    {
        &self.bytes
    }
}

impl Sink for MemSink {
    ghost use Rattle.std.specs.Prelude.{Some};
    ghost use Rattle.outside.specs.Memory.{WritesInMemory};

    ghost taken = { λ s. Some s.taken };

    ghost faults = { λ s. s.faults };

    ghost writes = { WritesInMemory };

    fn write(&mut self, piece: &[u8]) -> Wrote {
        self.writes = self.writes.saturating_add(1);
        if self.fails.contains(&self.writes) || self.bytes.extend_from_slice(piece).is_err() {
            self.faults = self.faults.saturating_add(1);
            return Wrote::Failed;
        }
        Wrote::Took(piece.len())
    }
}
