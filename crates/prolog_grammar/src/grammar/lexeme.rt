ghost use Rattle.std.specs.Prelude.{◌≡◌, IfOk};

use std::alloc::Global;
use term_core::{List, Memory, Name};

/// A token as the grammar sees it. The brackets `[]` and `{}` that are closed at once are names.
#[derive(Debug, Drop)]
pub enum Lexeme {
    Name(Word),
    /// An integer without a sign, and whether it stands directly behind the token before it.
    Integer(u128, bool),
    /// A variable by its number.
    Variable(u64),
    /// The characters of a double-quoted text.
    Text(List<char>),
    /// `(`, and whether it stands directly behind the token before it.
    Open(bool),
    Close,
    OpenList,
    CloseList,
    OpenCurly,
    CloseCurly,
    Comma,
    Bar,
}

/// A name, and whether it is an unquoted `-`, which makes the digits directly behind it negative.
#[derive(Debug, Drop)]
pub struct Word {
    pub text: Name,
    pub is_minus: bool,
}

impl Word {
    /// The same name again.
    pub fn copied(&self, alloc: Global) -> Result<Word, Memory>
        ensures { IfOk result (λ w. w ≡ self.now) }
    {
        Ok(Word {
            text: self.text.copied(alloc)?,
            is_minus: self.is_minus,
        })
    }
}

/// A token at its place.
#[derive(Debug, Drop)]
pub struct Placed {
    pub lexeme: Lexeme,
    /// Its first byte.
    pub from: u64,
    /// How many brackets are open with it, its own among them.
    pub open: u64,
}
