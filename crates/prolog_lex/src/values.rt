ghost use Rattle.std.specs.Prelude.{◌≡◌, ◌≤◌, ◌^◌, slice_range, IfOk};
ghost use Rattle.std.specs.Str.{chars, encode_utf8_all};
ghost use Rattle.term_core.specs.Tokens as tokens;
ghost use Rattle.prolog_lex.specs.Lexed.{slice_of, token_value, value_of, IsTokenOf};

use crate::integers::integer;
use crate::lexer::characters;
use crate::quotes::held;
use crate::token::{Token, TokenKind, TokenValue};
use std::alloc::Global;
use term_core::{List, Memory, Name};

// The text of a token.
fn slice<'a>(text: &'a str, token: &Token) -> &'a str
    requires { IsTokenOf text.now token.now }
    ensures { result.now ≡ slice_of text.now token.now }
{
    &text[token.from as usize..token.to as usize]
}

// The characters that the quotes of a token hold.
fn quoted_characters(alloc: Global, slice: &str, quote: char) -> Result<List<char>, Memory>
    requires { 1 ≤ quote }
    ensures { IfOk result (λ characters. characters ≡ tokens.held quote (chars slice.now)) }
{
    let characters = characters(alloc, slice)?;
    held(alloc, &characters, quote)
}

fn quoted_name(alloc: Global, slice: &str) -> Result<Name, Memory>
    ensures { IfOk result (λ name. name ≡ encode_utf8_all (tokens.held 39 (chars slice.now))) }
{
    let characters = quoted_characters(alloc, slice, '\'')?;
    let text: String = characters.as_slice().iter().copied().collect(alloc)?;
    Name::new(alloc, text.as_str())
}

fn integer_value(alloc: Global, slice: &str) -> Result<u128, Memory>
    requires { tokens.integer (chars slice.now) ≤ 2 ^ 127 }
    ensures { IfOk result (λ value. value ≡ tokens.integer (chars slice.now)) }
{
    let characters = characters(alloc, slice)?;
    Ok(integer(&characters).unwrap())
}

/// What a token of a text stands for: the text of a name or of a variable, the value of an integer, the characters of a
/// text; in quotes a doubled quote is one, and escapes are the characters that they name. `Memory` is its only error.
pub fn value(alloc: Global, text: &str, token: &Token) -> Result<TokenValue, Memory>
    requires { IsTokenOf text.now token.now }
    ensures { IfOk result (λ value. value_of value ≡ token_value text.now token.now) }
{
    let slice = slice(text, token);
    match token.kind {
        TokenKind::Name => Ok(TokenValue::Name(Name::new(alloc, slice)?)),
        TokenKind::QuotedName => Ok(TokenValue::Name(quoted_name(alloc, slice)?)),
        TokenKind::Variable => Ok(TokenValue::Variable(Name::new(alloc, slice)?)),
        TokenKind::Integer => Ok(TokenValue::Integer(integer_value(alloc, slice)?)),
        TokenKind::Text => Ok(TokenValue::Text(quoted_characters(alloc, slice, '"')?)),
        _ => Ok(TokenValue::Mark),
    }
}
