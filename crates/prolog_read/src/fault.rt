use prolog_grammar::Fault;
use prolog_lex::LexFault;
use std::alloc::{AllocError, AllocFailed};
use term_core::Memory;

/// Why a text isn't read. A place is a number of bytes from the start of the text.
#[derive(Clone, Copy, Debug, Drop, PartialEq, Eq)]
pub enum ReadFault {
    /// The text has no tokens; or `IntRange` also for 2^127 without an unquoted minus directly before it.
    Lex(LexFault),
    /// The first token that no continuation allows, or the text's length where the text ends too soon.
    Syntax { at: u64 },
    /// The bracket that makes more than 4,000 open ones; or the first byte of a term whose depth passes 1,000 or that has a
    /// compound of more than 1,024 arguments.
    Nesting { at: u64 },
    /// Want of memory.
    Memory,
}

impl From<Memory> for ReadFault {
    ghost use Rattle.std.specs.Prelude.{◌≡◌};
    ghost use Rattle.prolog_read.specs.declared.fault.ReadFault.TheVariants.{Memory as Starved};

    ghost from_gives = { λ _ fault. fault ≡ Starved };

    fn from(_refused: Memory) -> ReadFault {
        ReadFault::Memory
    }
}

impl From<AllocError> for ReadFault {
    ghost use Rattle.std.specs.Prelude.{◌≡◌};
    ghost use Rattle.prolog_read.specs.declared.fault.ReadFault.TheVariants.{Memory as Starved};

    ghost from_gives = { λ _ fault. fault ≡ Starved };

    fn from(_refused: AllocError) -> ReadFault {
        ReadFault::Memory
    }
}

impl<T: Drop> From<AllocFailed<T>> for ReadFault {
    ghost use Rattle.std.specs.Prelude.{◌≡◌};
    ghost use Rattle.prolog_read.specs.declared.fault.ReadFault.TheVariants.{Memory as Starved};

    ghost from_gives = { λ _ fault. fault ≡ Starved };

    fn from(_refused: AllocFailed<T>) -> ReadFault {
        ReadFault::Memory
    }
}

impl From<LexFault> for ReadFault {
    ghost use Rattle.std.specs.Prelude.{◌≡◌};
    ghost use Rattle.prolog_read.specs.Outcome.{of_lexer};

    ghost from_gives = { λ fault result. result ≡ of_lexer fault };

    fn from(fault: LexFault) -> ReadFault {
        match fault {
            LexFault::Memory => ReadFault::Memory,
            other => ReadFault::Lex(other),
        }
    }
}

impl From<Fault> for ReadFault {
    ghost use Rattle.std.specs.Prelude.{◌≡◌};
    ghost use Rattle.prolog_read.specs.Outcome.{fault_of};

    ghost from_gives = { λ fault result. result ≡ fault_of fault };

    fn from(fault: Fault) -> ReadFault {
        match fault {
            Fault::Syntax { at } => ReadFault::Syntax { at },
            Fault::Nesting { at } => ReadFault::Nesting { at },
            Fault::IntRange { at } => ReadFault::Lex(LexFault::IntRange { at }),
            Fault::Memory => ReadFault::Memory,
        }
    }
}
