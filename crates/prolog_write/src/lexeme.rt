ghost use Rattle.std.specs.Prelude.{◌≡◌};
ghost use Rattle.std.specs.Char.{is_ascii_lowercase};
ghost use Rattle.prolog_write.specs.Text.{first as first_of};
ghost use Rattle.prolog_write.specs.declared.mode.Mode.{Mode};
ghost use Rattle.prolog_write.specs.Duties.{piece_of};

use crate::atoms::{first, stands_bare};
use crate::mode::Mode;
use itoa::Buffer;

// A piece of a text.
#[derive(Clone, Copy, Debug, Drop)]
pub(crate) enum Lexeme<'a> {
    // A bracket, a comma or a bar.
    Mark(u8),
    Variable(u64),
    Integer(i128),
    Atom(&'a str),
    // An operator before its operand.
    Prefix(&'a str),
    // An operator between its operands.
    Infix(&'a str),
}

impl Lexeme<'_> {
    // The first byte of its text, or 0.
    pub(crate) fn first(self, mode: Mode) -> u8
        ensures { result ≡ first_of (piece_of mode self.entry).text }
    {
        match self {
            Lexeme::Mark(byte) => byte,
            Lexeme::Variable(_) => b'_',
            Lexeme::Integer(value) => first(Buffer::new().format(value).as_bytes()),
            Lexeme::Atom(name) => {
                if stands_bare(mode, name) {
                    first(name.as_bytes())
                } else {
                    b'\''
                }
            }
            Lexeme::Prefix(name) => first(name.as_bytes()),
            Lexeme::Infix(name) => {
                if is_lettered(name) {
                    b' '
                } else {
                    first(name.as_bytes())
                }
            }
        }
    }

    pub(crate) fn is_prefix(self) -> bool
        ensures { (m : Mode) → result ≡ (piece_of m self.entry).is_prefix }
    {
        matches!(self, Lexeme::Prefix(_))
    }
}

// Whether an operator is one of letters.
pub(crate) fn is_lettered(name: &str) -> bool
    ensures { result ≡ is_ascii_lowercase (first_of name.now) }
{
    first(name.as_bytes()).is_ascii_lowercase()
}
