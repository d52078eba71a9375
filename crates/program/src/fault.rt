use std::alloc::{AllocError, AllocFailed};
use term_core::{Memory, Pi};

/// Why a source text makes no program. Its terms are numbered from 1, directives among them.
#[derive(Debug, Drop)]
pub enum ProgFault {
    /// A directive that is neither the use of a library, as `use_module(library(lists))`, nor an `op/3` that the table of
    /// operators takes.
    BadDirective {
        /// The term's number.
        clause: u64,
    },
    /// A clause whose head is neither an atom nor a compound, or whose body isn't a body (ISO 13211-1, 7.6.2).
    NotCallable {
        /// The term's number.
        clause: u64,
    },
    /// A clause of a predicate that is reserved, or whose name begins with `$`.
    Redefines {
        /// The term's number.
        clause: u64,
        /// The predicate.
        pi: Pi,
    },
    /// Want of memory.
    Memory,
}

impl From<Memory> for ProgFault {
    ghost use Rattle.program.specs.declared.fault.ProgFault.TheVariants.{Memory as Starved};
    ghost use Rattle.std.specs.Prelude.{◌≡◌};

    ghost from_gives = { λ _ result. result ≡ Starved };

    fn from(_refused: Memory) -> ProgFault {
        ProgFault::Memory
    }
}

impl From<AllocError> for ProgFault {
    ghost use Rattle.program.specs.declared.fault.ProgFault.TheVariants.{Memory as Starved};
    ghost use Rattle.std.specs.Prelude.{◌≡◌};

    ghost from_gives = { λ _ result. result ≡ Starved };

    fn from(_refused: AllocError) -> ProgFault {
        ProgFault::Memory
    }
}

impl<T: Drop> From<AllocFailed<T>> for ProgFault {
    ghost use Rattle.program.specs.declared.fault.ProgFault.TheVariants.{Memory as Starved};
    ghost use Rattle.std.specs.Prelude.{◌≡◌};

    ghost from_gives = { λ _ result. result ≡ Starved };

    fn from(_refused: AllocFailed<T>) -> ProgFault {
        ProgFault::Memory
    }
}
