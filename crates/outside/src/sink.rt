// Where bytes go.
ghost use Rattle.std.specs.Prelude.{◌<◌, ℕ, List, Option, ⊤, length};
ghost use Rattle.outside.specs.declared.sink.Wrote.{Wrote};
ghost use Rattle.outside.specs.Sink.{IsWriteCount, Takes, CountsWrite};

/// What a write answers.
#[derive(Clone, Copy, Debug, PartialEq, Eq)]
pub enum Wrote {
    /// So many of the first bytes of the piece were taken: from 1 to the piece's length.
    Took(usize),
    /// The write failed: the count of faults rose in it, and nothing was taken.
    Failed,
}

/// Where bytes go, in order, each once.
///
/// A sink may tell the bytes that it has taken. Where it does, its writes add to these and change
/// nothing before them; where it doesn't, as for a stream of the operating system, contracts say
/// nothing of what arrives.
///
/// A sink counts its faults. The count never falls, and a write answers [`Wrote::Failed`] only where
/// the count rose in it. "Rose" also holds where the count stands at 2^64 - 1, since a counter of
/// 64 bits stays there.
pub trait Sink {
    /// The bytes taken, where they are told.
    ghost taken: { Self → Option (List ℕ) };

    /// How often it has failed.
    ghost faults: { Self → ℕ };

    /// What else a write does, before and after. An implementation may say more of its writes here,
    /// and a trait above this one may ask for something by a law; by itself it says nothing.
    ghost writes: { Self → Wrote → Self → Type 0 } = { λ _ _ _. ⊤ };

    /// Writes some first bytes of a piece that isn't empty. Taking none of it is `Failed`.
    ///
    /// `Took` adds so many first bytes of the piece to the bytes taken. `Failed` leaves them as they
    /// were.
    fn write(&mut self, piece: &[u8]) -> Wrote
        requires { 0 < length piece.now }
        ensures count { IsWriteCount result (length piece.now) }
        ensures bytes { Takes (taken self.old) (taken self.new) result piece.now }
        ensures cause { CountsWrite (faults self.old) (faults self.new) result }
        ensures step { writes self.old result self.new };
}
