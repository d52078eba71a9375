// The lexemes of a term's tokens.
ghost use Rattle.std.specs.Prelude.{◌≡◌, IfOk, OnOk};
ghost use Rattle.prolog_lex.specs.Lexed.{kind_of, value_of, token_of, token_value, IsTokenOf};
ghost use Rattle.prolog_read.specs.Lexemes as spec;
ghost use Rattle.prolog_read.specs.Lexemes.{lexeme, single, pair, behind, behind_pair};
ghost use Rattle.prolog_read.specs.Views.{seen, HasIndex};

use crate::variables::Variables;
use prolog_grammar::{Lexeme, Placed, Word};
use prolog_lex::{Token, TokenKind, TokenValue, value};
use std::alloc::Global;
use term_core::{List, Memory, Name};

/// What stands before a token: the place behind the token before it, how many brackets are open, and the variables so far.
#[derive(Debug, Drop)]
pub(crate) struct Before {
    to: Option<u64>,
    brackets: u64,
    variables: Variables,
}

// How many brackets are open with a token of this kind, its own among them.
fn open_with(kind: TokenKind, brackets: u64) -> Result<u64, Memory>
    ensures { IfOk result (λ n. n ≡ spec.open_with (kind_of kind) brackets) }
{
    match kind {
        TokenKind::Open | TokenKind::OpenList | TokenKind::OpenCurly => {
            brackets.checked_add(1).ok_or(Memory)
        }
        _ => Ok(brackets),
    }
}

// How many brackets are open behind a token of this kind.
fn open_behind(kind: TokenKind, brackets: u64) -> Result<u64, Memory>
    ensures { IfOk result (λ n. n ≡ spec.open_behind (kind_of kind) brackets) }
{
    match kind {
        TokenKind::Close | TokenKind::CloseList | TokenKind::CloseCurly => {
            Ok(brackets.saturating_sub(1))
        }
        _ => open_with(kind, brackets),
    }
}

// The name of a token, with whether it is an unquoted minus.
fn word(text: Name, kind: TokenKind) -> Word
    ensures { result ≡ spec.word_of (kind_of kind) text }
{
    let is_minus = kind == TokenKind::Name && text.as_str() == "-";
    Word { text, is_minus }
}

// Punctuation.
fn mark(kind: TokenKind, is_direct: bool) -> Lexeme
    ensures { result ≡ spec.mark (kind_of kind) is_direct }
{
    match kind {
        TokenKind::Open => Lexeme::Open(is_direct),
        TokenKind::Close => Lexeme::Close,
        TokenKind::OpenList => Lexeme::OpenList,
        TokenKind::CloseList => Lexeme::CloseList,
        TokenKind::OpenCurly => Lexeme::OpenCurly,
        TokenKind::CloseCurly => Lexeme::CloseCurly,
        TokenKind::Comma => Lexeme::Comma,
        _ => Lexeme::Bar,
    }
}

// Whether this is an opening bracket and its closing one.
pub(crate) fn is_pair(first: TokenKind, second: TokenKind) -> bool
    ensures { result ≡ spec.is_pair (kind_of first) (kind_of second) }
{
    matches!(
        (first, second),
        (TokenKind::OpenList, TokenKind::CloseList) | (TokenKind::OpenCurly, TokenKind::CloseCurly)
    )
}

// The name of a bracket that is closed at once.
fn pair_name(kind: TokenKind) -> &'static str
    ensures { result.now ≡ spec.pair_name (kind_of kind) }
{
    match kind {
        TokenKind::OpenList => "[]",
        _ => "{}",
    }
}

impl Before {
    /// What stands before the first token of a term.
    pub(crate) fn nothing(alloc: Global) -> Before
        ensures seen { seen result ≡ spec.nothing_before }
        ensures index { HasIndex result.variables }
    {
        Before {
            to: None,
            brackets: 0,
            variables: Variables::new(alloc),
        }
    }

    // The lexeme of a token that stands for this.
    fn lexeme(&mut self, alloc: Global, token: &Token, value: TokenValue) -> Result<Lexeme, Memory>
        requires { HasIndex self.old.variables }
        ensures lexeme { IfOk result (λ l. l ≡ lexeme (kind_of token.now.kind) (value_of value) (spec.is_direct (seen self.old) (token_of token.now)) (seen self.old).variables) }
        ensures after { OnOk result (seen self.new ≡ record (seen self.old) { variables = spec.variables_behind (value_of value) (seen self.old).variables }) }
        ensures index { OnOk result (HasIndex self.new.variables) }
    {
        let is_direct = self.to == Some(token.from);
        match value {
            TokenValue::Name(name) => Ok(Lexeme::Name(word(name, token.kind))),
            TokenValue::Variable(name) => {
                let number = self.variables.number(alloc, name.as_str())?;
                Ok(Lexeme::Variable(number))
            }
            TokenValue::Integer(magnitude) => Ok(Lexeme::Integer(magnitude, is_direct)),
            TokenValue::Text(characters) => Ok(Lexeme::Text(characters)),
            TokenValue::Mark => Ok(mark(token.kind, is_direct)),
        }
    }

    /// The lexeme of a token at its place, which stands behind it.
    pub(crate) fn single(
        &mut self,
        alloc: Global,
        text: &str,
        token: &Token,
    ) -> Result<Placed, Memory>
        requires token { IsTokenOf text.now token.now }
        requires index { HasIndex self.old.variables }
        ensures placed { IfOk result (λ p. p ≡ single text.now (seen self.old) (token_of token.now)) }
        ensures after { OnOk result (seen self.new ≡ behind text.now (seen self.old) (token_of token.now)) }
        ensures index { OnOk result (HasIndex self.new.variables) }
    {
        let value = value(alloc, text, token)?;
        let lexeme = self.lexeme(alloc, token, value)?;
        let open = open_with(token.kind, self.brackets)?;
        self.brackets = open_behind(token.kind, self.brackets)?;
        self.to = Some(token.to);
        Ok(Placed {
            lexeme,
            from: token.from,
            open,
        })
    }

    /// The name of a bracket and its closing one, at the bracket's place.
    pub(crate) fn pair(
        &mut self,
        alloc: Global,
        first: &Token,
        second: &Token,
    ) -> Result<Placed, Memory>
        requires { HasIndex self.old.variables }
        ensures placed { IfOk result (λ p. p ≡ pair (seen self.old) (token_of first.now)) }
        ensures after { OnOk result (seen self.new ≡ behind_pair (seen self.old) (token_of second.now)) }
        ensures index { OnOk result (HasIndex self.new.variables) }
    {
        let text = Name::new(alloc, pair_name(first.kind))?;
        let open = self.brackets.checked_add(1).ok_or(Memory)?;
        self.to = Some(second.to);
        let word = Word {
            text,
            is_minus: false,
        };
        Ok(Placed {
            lexeme: Lexeme::Name(word),
            from: first.from,
            open,
        })
    }

    /// The names of the variables so far.
    pub(crate) fn into_names(self) -> List<(Name, u64)>
        ensures { result ≡ (seen self).variables.names }
    {
        self.variables.into_names()
    }
}
