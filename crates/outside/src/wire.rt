// A source and a sink in one.
ghost use Rattle.std.specs.Prelude.{◌≡◌};
ghost use Rattle.outside.specs.declared.source.ReadGot.{ReadGot};
ghost use Rattle.outside.specs.declared.sink.Wrote.{Wrote};

use crate::{ReadGot, Sink, Source, Wrote};

/// Both ways of one connection: where its bytes come from and where they go.
///
/// Reads and writes have one count of faults, the wire's. Neither way changes what the other tells.
pub trait Wire: Source + Sink {
    /// A read leaves the bytes taken as they were.
    ghost read_keeps: { (w v : Self) (r : ReadGot) → Self.reads w r v → Self.taken v ≡ Self.taken w };

    /// A write leaves the bytes left as they were.
    ghost write_keeps: { (w v : Self) (r : Wrote) → Self.writes w r v → Self.left v ≡ Self.left w };

    /// Reads and writes have one count of faults.
    ghost one_count: { (w : Self) → Self.Source.faults w ≡ Self.Sink.faults w };
}
