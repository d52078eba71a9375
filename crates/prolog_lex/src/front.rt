// What stands at the front of a text.
ghost use Rattle.std.specs.Prelude.{◌≡◌, ◌≤◌, length, drop, IfSome};
ghost use Rattle.term_core.specs.Tokens as tokens;
ghost use Rattle.prolog_lex.specs.Scanned.{front, the_front, IsWithin};

use crate::classes::{
    before_newline, begins_name, begins_variable, character_at, continuing, is_symbol, symbols,
};
use crate::integers::number;
use crate::quotes::quoted;
use crate::token::TokenKind;

/// Why no token stands at a place.
#[derive(Clone, Copy, Debug, Drop)]
pub(crate) enum Reason {
    BadChar,
    Unclosed,
    FloatNumber,
    OutOfRange,
}

/// What stands at the front of a text: so many characters of layout, a token of so many characters,
/// or a fault after so many characters.
#[derive(Clone, Copy, Debug, Drop)]
pub(crate) enum Front {
    Layout(usize),
    Token(TokenKind, usize),
    Fault(Reason, usize),
}

// The characters of a comment from behind its opening on.
fn comment_end(cs: &[char]) -> Option<usize>
    ensures value { result ≡ tokens.comment_end cs.now }
    ensures within { IfSome result (λ n. n ≤ length cs.now) }
{
    for (at, c) in cs.iter().enumerate() {
        if *c == '*' && character_at(cs, at + 1) == '/' {
            return Some(at + 2);
        }
    }
    None
}

#[tactic(auto, unfolding(term_core::specs::Tokens::mark))]
fn mark(c: char) -> Front
    ensures value { the_front result ≡ tokens.mark c }
    ensures within { IsWithin (the_front result) 1 }
{
    let kind = match c {
        '(' => TokenKind::Open,
        ')' => TokenKind::Close,
        '[' => TokenKind::OpenList,
        ']' => TokenKind::CloseList,
        '{' => TokenKind::OpenCurly,
        '}' => TokenKind::CloseCurly,
        ',' => TokenKind::Comma,
        '|' => TokenKind::Bar,
        '!' | ';' => TokenKind::Name,
        _ => return Front::Fault(Reason::BadChar, 0),
    };
    Front::Token(kind, 1)
}

// A comment at the front of a text.
fn comment(cs: &[char]) -> Front
    requires { 2 ≤ length cs.now }
    ensures value { the_front result ≡ tokens.commented (tokens.comment_end (drop 2 cs.now)) }
    ensures within { IsWithin (the_front result) (length cs.now) }
{
    match comment_end(&cs[2..]) {
        Some(count) => Front::Layout(2 + count),
        None => Front::Fault(Reason::Unclosed, 0),
    }
}

// Whether the full stop at the front of a text is the end.
fn is_end(cs: &[char]) -> bool
    requires { 1 ≤ length cs.now }
    ensures { result ≡ tokens.is_end cs.now }
{
    if cs[0] != '.' {
        return false;
    }
    let next = character_at(cs, 1);
    cs.len() == 1 || next.is_whitespace() || next == '%'
}

/// What stands at the front of a text that isn't empty.
#[tactic(auto, unfolding(term_core::specs::Tokens::front))]
pub(crate) fn front_of(cs: &[char]) -> Front
    requires { 1 ≤ length cs.now }
    ensures value { the_front result ≡ front cs.now }
    ensures within { IsWithin (the_front result) (length cs.now) }
{
    let c = cs[0];
    if c.is_whitespace() {
        return Front::Layout(1);
    }
    if c == '%' {
        return Front::Layout(1 + before_newline(&cs[1..]));
    }
    if c == '/' && character_at(cs, 1) == '*' {
        return comment(cs);
    }
    if begins_name(c) {
        return Front::Token(TokenKind::Name, 1 + continuing(&cs[1..]));
    }
    if begins_variable(c) {
        return Front::Token(TokenKind::Variable, 1 + continuing(&cs[1..]));
    }
    if c.is_ascii_digit() {
        return number(cs);
    }
    if c == '\'' {
        return quoted(cs, '\'', TokenKind::QuotedName);
    }
    if c == '"' {
        return quoted(cs, '"', TokenKind::Text);
    }
    if is_end(cs) {
        return Front::Token(TokenKind::End, 1);
    }
    if is_symbol(c) {
        return Front::Token(TokenKind::Name, 1 + symbols(&cs[1..]));
    }
    mark(c)
}
