use term_core::Memory;

/// Why the tokens of a term aren't read. A place is a number of bytes from the start of the text.
#[derive(Clone, Copy, Debug, Drop, PartialEq, Eq)]
pub enum Fault {
    /// The first token that no continuation allows, or the text's length where the text ends too soon.
    Syntax { at: u64 },
    /// The bracket that makes more than 4,000 open ones; or the first byte of a term whose depth passes 1,000 or that has a
    /// compound of more than 1,024 arguments.
    Nesting { at: u64 },
    /// An integer that is 2^127 or more and no negative one, or is below -2^127.
    IntRange { at: u64 },
    /// Want of memory.
    Memory,
}

impl From<Memory> for Fault {
    ghost use Rattle.prolog_grammar.specs.declared.grammar.fault.Fault.TheVariants.{Memory as Starved};
    ghost use Rattle.std.specs.Prelude.{◌≡◌};

    ghost from_gives = { λ _ result. result ≡ Starved };

    fn from(_refused: Memory) -> Fault {
        Fault::Memory
    }
}
