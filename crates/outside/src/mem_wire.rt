// A wire over a source and a sink in memory.
ghost use Rattle.std.specs.Prelude.{◌≡◌};

use crate::{MemSink, MemSource, ReadGot, Sink, Source, Wire, Wrote};
use std::marker::Model;

/// A wire in memory: it reads from a [`MemSource`] and writes to a [`MemSink`], which say which of its
/// calls fail. Its count of faults is the sum of theirs.
#[derive(Drop)]
pub struct MemWire {
    source: MemSource,
    sink: MemSink,
}

impl Model for MemWire {
    ghost use Rattle.outside.specs.Memory.{WireState};

    ghost Value = { WireState };

    ghost view = { λ w. record { source = w.source; sink = w.sink } };
}

impl MemWire {
    /// A wire of these two.
    pub fn new(source: MemSource, sink: MemSink) -> MemWire
        ensures { result ≡ record { source = source; sink = sink } }
    {
        MemWire { source, sink }
    }

    /// The bytes that it hasn't given yet.
    pub fn left(&self) -> &[u8]
        ensures { result.now ≡ self.now.source.left }
    {
        self.source.left()
    }

    /// The bytes that it has taken.
    pub fn taken(&self) -> &[u8]
        ensures { result.now ≡ self.now.sink.taken }
    {
        self.sink.taken()
    }
}

impl Source for MemWire {
    ghost use Rattle.std.specs.Prelude.{Some};
    ghost use Rattle.outside.specs.Memory.{WireReads, wire_faults};

    ghost left = { λ w. Some w.source.left };

    ghost faults = { wire_faults };

    ghost reads = { WireReads };

    fn read(&mut self, buf: &mut [u8]) -> ReadGot {
        self.source.read(buf)
    }
}

impl Sink for MemWire {
    ghost use Rattle.std.specs.Prelude.{Some};
    ghost use Rattle.outside.specs.Memory.{WireWrites, wire_faults};

    ghost taken = { λ w. Some w.sink.taken };

    ghost faults = { wire_faults };

    ghost writes = { WireWrites };

    fn write(&mut self, piece: &[u8]) -> Wrote {
        self.sink.write(piece)
    }
}

impl Wire for MemWire {
    ghost use Rattle.std.specs.Prelude.{refl};
    ghost use Rattle.outside.specs.Memory.{wire_read_keeps, wire_write_keeps};

    ghost read_keeps = { wire_read_keeps };

    ghost write_keeps = { wire_write_keeps };

    ghost one_count = { λ w. refl };
}
