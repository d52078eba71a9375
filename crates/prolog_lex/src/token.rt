use std::alloc::{AllocError, AllocFailed};
use term_core::{List, Name};

/// The kinds of token (ISO/IEC 13211-1, 6.4).
#[derive(Clone, Copy, Debug, Drop, PartialEq, Eq)]
pub enum TokenKind {
    /// A name without quotes: a word that begins with a small letter or past ASCII, symbol characters, `!` or `;`.
    Name,
    /// A name in single quotes.
    QuotedName,
    /// A variable, which begins with a capital letter of ASCII or with `_`.
    Variable,
    /// An integer without a sign, at most 2^127.
    Integer,
    /// Characters in double quotes.
    Text,
    /// `(`
    Open,
    /// `)`
    Close,
    /// `[`
    OpenList,
    /// `]`
    CloseList,
    /// `{`
    OpenCurly,
    /// `}`
    CloseCurly,
    /// `,`
    Comma,
    /// `|`
    Bar,
    /// The full stop that ends a clause.
    End,
}

/// A token and its slice of the text, from the byte `from` up to the byte `to`.
#[derive(Clone, Copy, Debug, Drop, PartialEq, Eq)]
pub struct Token {
    pub kind: TokenKind,
    pub from: u64,
    pub to: u64,
}

/// What a token stands for.
#[derive(Debug, Drop)]
pub enum TokenValue {
    /// The text of a name, without its quotes.
    Name(Name),
    /// The text of a variable.
    Variable(Name),
    /// The value of an integer, at most 2^127.
    Integer(u128),
    /// The characters in double quotes.
    Text(List<char>),
    /// Punctuation and the end have no value.
    Mark,
}

/// Why a text has no tokens, at the byte `at`.
#[derive(Clone, Copy, Debug, Drop, PartialEq, Eq)]
pub enum LexFault {
    /// A character that begins no token, or a backslash that begins no escape.
    BadChar { at: u64 },
    /// Quotes or a comment without an end, at their beginning.
    Unclosed { at: u64 },
    /// Digits, a full stop and a digit, at the first digit.
    FloatToken { at: u64 },
    /// An integer above 2^127, at its first character.
    IntRange { at: u64 },
    /// Want of memory.
    Memory,
}

impl From<AllocError> for LexFault {
    ghost use Rattle.std.specs.Prelude.{◌≡◌};
    ghost use Rattle.prolog_lex.specs.declared.token.LexFault.TheVariants.{Memory};

    ghost from_gives = { λ _ fault. fault ≡ Memory };

    fn from(_refused: AllocError) -> LexFault {
        LexFault::Memory
    }
}

impl<T: Drop> From<AllocFailed<T>> for LexFault {
    ghost use Rattle.std.specs.Prelude.{◌≡◌};
    ghost use Rattle.prolog_lex.specs.declared.token.LexFault.TheVariants.{Memory};

    ghost from_gives = { λ _ fault. fault ≡ Memory };

    fn from(_refused: AllocFailed<T>) -> LexFault {
        LexFault::Memory
    }
}
