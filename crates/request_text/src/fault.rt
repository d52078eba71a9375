ghost use Rattle.std.specs.Prelude.{◌≡◌};
ghost use Rattle.request_text.specs.Spelled.{place_of};

use program::ProgFault;
use prolog_lex::LexFault;
use prolog_read::ReadFault;
use std::alloc::{AllocError, AllocFailed};
use term_core::Memory;

/// The byte at which a text was refused, from 0; 0 for want of memory.
pub fn place_of(fault: ReadFault) -> u64
    ensures { result ≡ place_of fault }
{
    match fault {
        ReadFault::Lex(LexFault::BadChar { at })
        | ReadFault::Lex(LexFault::Unclosed { at })
        | ReadFault::Lex(LexFault::FloatToken { at })
        | ReadFault::Lex(LexFault::IntRange { at })
        | ReadFault::Syntax { at }
        | ReadFault::Nesting { at } => at,
        ReadFault::Lex(LexFault::Memory) | ReadFault::Memory => 0,
    }
}

/// Why a text is no request.
#[derive(Clone, Copy, Debug, Drop, PartialEq, Eq)]
pub enum RequestFault {
    /// The text isn't one term.
    Read(ReadFault),
    /// It is a term, but no request.
    NotRequest,
    /// Want of memory.
    Memory,
}

/// Why the texts of a new pengine spell nothing that it can be made with.
#[derive(Debug, Drop)]
pub enum SpecFault {
    /// The source text can't be read.
    Source(ReadFault),
    /// The source text can be read, and one of its clauses is refused.
    Clause(ProgFault),
    /// The text of the first query isn't one term. It doesn't come of a script.
    Ask(ReadFault),
    /// The text of its template isn't one term. It doesn't come of a script.
    Template(ReadFault),
    /// Want of memory.
    Memory,
}

/// Why bytes are no script.
#[derive(Debug, Drop)]
pub enum ScriptFault {
    /// They aren't UTF-8.
    Utf8 {
        /// Where the first bad sequence begins, in bytes from 0.
        at: u64,
    },
    /// The source text makes no program.
    Spec(SpecFault),
    /// A request line is refused.
    Line {
        /// Its number, from 1 behind the line `---`.
        line: u64,
        /// The byte of the line at which it can't be read further, from 0; 0 also where it can be read and is no request.
        at: u64,
    },
    /// Want of memory.
    Memory,
}

impl From<Memory> for RequestFault {
    ghost use Rattle.request_text.specs.declared.fault.RequestFault.TheVariants.{Memory as Starved};
    ghost use Rattle.std.specs.Prelude.{◌≡◌};

    ghost from_gives = { λ _ result. result ≡ Starved };

    fn from(_refused: Memory) -> RequestFault {
        RequestFault::Memory
    }
}

impl From<Memory> for SpecFault {
    ghost use Rattle.request_text.specs.declared.fault.SpecFault.TheVariants.{Memory as Starved};
    ghost use Rattle.std.specs.Prelude.{◌≡◌};

    ghost from_gives = { λ _ result. result ≡ Starved };

    fn from(_refused: Memory) -> SpecFault {
        SpecFault::Memory
    }
}

impl<T: Drop> From<AllocFailed<T>> for SpecFault {
    ghost use Rattle.request_text.specs.declared.fault.SpecFault.TheVariants.{Memory as Starved};
    ghost use Rattle.std.specs.Prelude.{◌≡◌};

    ghost from_gives = { λ _ result. result ≡ Starved };

    fn from(_refused: AllocFailed<T>) -> SpecFault {
        SpecFault::Memory
    }
}

impl From<ProgFault> for SpecFault {
    ghost use Rattle.request_text.specs.Kept.{clause_fault};
    ghost use Rattle.std.specs.Prelude.{◌≡◌};

    ghost from_gives = { λ fault result. result ≡ clause_fault fault };

    fn from(fault: ProgFault) -> SpecFault {
        match fault {
            ProgFault::Memory => SpecFault::Memory,
            ProgFault::BadDirective { .. }
            | ProgFault::NotCallable { .. }
            | ProgFault::Redefines { .. } => SpecFault::Clause(fault),
        }
    }
}

impl From<SpecFault> for ScriptFault {
    ghost use Rattle.request_text.specs.Kept.{spec_fault};
    ghost use Rattle.std.specs.Prelude.{◌≡◌};

    ghost from_gives = { λ fault result. result ≡ spec_fault fault };

    fn from(fault: SpecFault) -> ScriptFault {
        match fault {
            SpecFault::Memory => ScriptFault::Memory,
            SpecFault::Source(_)
            | SpecFault::Clause(_)
            | SpecFault::Ask(_)
            | SpecFault::Template(_) => ScriptFault::Spec(fault),
        }
    }
}

impl From<Memory> for ScriptFault {
    ghost use Rattle.request_text.specs.declared.fault.ScriptFault.TheVariants.{Memory as Starved};
    ghost use Rattle.std.specs.Prelude.{◌≡◌};

    ghost from_gives = { λ _ result. result ≡ Starved };

    fn from(_refused: Memory) -> ScriptFault {
        ScriptFault::Memory
    }
}

impl From<AllocError> for ScriptFault {
    ghost use Rattle.request_text.specs.declared.fault.ScriptFault.TheVariants.{Memory as Starved};
    ghost use Rattle.std.specs.Prelude.{◌≡◌};

    ghost from_gives = { λ _ result. result ≡ Starved };

    fn from(_refused: AllocError) -> ScriptFault {
        ScriptFault::Memory
    }
}

impl<T: Drop> From<AllocFailed<T>> for ScriptFault {
    ghost use Rattle.request_text.specs.declared.fault.ScriptFault.TheVariants.{Memory as Starved};
    ghost use Rattle.std.specs.Prelude.{◌≡◌};

    ghost from_gives = { λ _ result. result ≡ Starved };

    fn from(_refused: AllocFailed<T>) -> ScriptFault {
        ScriptFault::Memory
    }
}
