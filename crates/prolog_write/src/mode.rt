use std::alloc::{AllocError, AllocFailed};
use term_core::Memory;

/// How atoms and operators are written.
#[derive(Clone, Copy, Debug, Drop, PartialEq, Eq)]
pub enum Mode {
    /// No atom is quoted; the text needn't be readable.
    Plain,
    /// Atoms are quoted where they need it.
    Quoted,
    /// As `Quoted`, and without operators.
    Canonical,
}

/// Why a text wasn't written.
#[derive(Clone, Copy, Debug, Drop, PartialEq, Eq)]
pub enum WriteStop {
    /// It has more bytes than the limit.
    TooLong,
    /// Want of memory.
    Memory,
}

impl From<Memory> for WriteStop {
    ghost use Rattle.std.specs.Prelude.{◌≡◌};
    ghost use Rattle.prolog_write.specs.declared.mode.WriteStop.TheVariants.{Memory as Starved};

    ghost from_gives = { λ _ stop. stop ≡ Starved };

    fn from(_refused: Memory) -> WriteStop {
        WriteStop::Memory
    }
}

impl From<AllocError> for WriteStop {
    ghost use Rattle.std.specs.Prelude.{◌≡◌};
    ghost use Rattle.prolog_write.specs.declared.mode.WriteStop.TheVariants.{Memory as Starved};

    ghost from_gives = { λ _ stop. stop ≡ Starved };

    fn from(_refused: AllocError) -> WriteStop {
        WriteStop::Memory
    }
}

impl<T: Drop> From<AllocFailed<T>> for WriteStop {
    ghost use Rattle.std.specs.Prelude.{◌≡◌};
    ghost use Rattle.prolog_write.specs.declared.mode.WriteStop.TheVariants.{Memory as Starved};

    ghost from_gives = { λ _ stop. stop ≡ Starved };

    fn from(_refused: AllocFailed<T>) -> WriteStop {
        WriteStop::Memory
    }
}
