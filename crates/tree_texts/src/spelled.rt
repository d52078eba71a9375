// The integer that a text spells (ISO/IEC 13211-1, 8.16.7 and 8.16.8).
ghost use Rattle.std.specs.Prelude.{◌≡◌, [], ◌∷◌, map, Ok, IfOk};
ghost use Rattle.prolog_lex.specs.Lexed.{tokens_of, token_of, kind_of, value_of, IsTokenOf};
ghost use Rattle.builtin_table.specs.Numbers.{positive as positive_of, negative as negative_of, is_minus as is_minus_of, integer_of as integer_of_tokens, spelled_integer as spelled_integer_of};

use prolog_lex::{LexFault, Token, TokenKind, TokenValue};
use std::alloc::Global;
use term_core::Memory;

fn positive(value: TokenValue) -> Option<i128>
    ensures { result ≡ positive_of (value_of value) }
{
    match value {
        TokenValue::Integer(number) => i128::try_from(number).ok(),
        _ => None,
    }
}

fn negative(value: TokenValue) -> Option<i128>
    ensures { result ≡ negative_of (value_of value) }
{
    match value {
        TokenValue::Integer(number) => 0i128.checked_sub_unsigned(number),
        _ => None,
    }
}

// Whether a token is the name `-` without quotes.
fn is_minus(kind: TokenKind, value: &TokenValue) -> bool
    ensures { result ≡ is_minus_of (kind_of kind) (value_of value.now) }
{
    match (kind, value) {
        (TokenKind::Name, TokenValue::Name(name)) => name.as_str() == "-",
        (_, _) => false,
    }
}

// The integer of a token that ends the text.
fn unsigned(alloc: Global, text: &str, token: &Token) -> Result<Option<i128>, Memory>
    requires { IsTokenOf text.now token.now }
    ensures { IfOk result (λ r. r ≡ integer_of_tokens text.now (Ok (token_of token.now ∷ []))) }
{
    if token.to != text.len() as u64 {
        return Ok(None);
    }
    let value = prolog_lex::value(alloc, text, token)?;
    Ok(positive(value))
}

// The integer of a minus and a token that ends the text, with nothing between them.
fn signed(alloc: Global, text: &str, sign: &Token, token: &Token) -> Result<Option<i128>, Memory>
    requires sign { IsTokenOf text.now sign.now }
    requires token { IsTokenOf text.now token.now }
    ensures { IfOk result (λ r.
        r ≡ integer_of_tokens text.now (Ok (token_of sign.now ∷ token_of token.now ∷ []))) }
{
    let minus = prolog_lex::value(alloc, text, sign)?;
    if is_minus(sign.kind, &minus) && sign.to == token.from && token.to == text.len() as u64 {
        let value = prolog_lex::value(alloc, text, token)?;
        return Ok(negative(value));
    }
    Ok(None)
}

fn integer_of(alloc: Global, text: &str, tokens: &[Token]) -> Result<Option<i128>, Memory>
    requires { tokens_of text.now ≡ Ok (map token_of tokens.now) }
    ensures { IfOk result (λ r. r ≡ integer_of_tokens text.now (Ok (map token_of tokens.now))) }
{
    match tokens {
        [token] => unsigned(alloc, text, token),
        [sign, token] => signed(alloc, text, sign, token),
        _ => Ok(None),
    }
}

// The integer that a text spells: optional layout, an optional minus and an integer token.
#[tactic(auto, unfolding(builtin_table::specs::Numbers::spelled_integer))]
pub(crate) fn spelled_integer(alloc: Global, text: &str) -> Result<Option<i128>, Memory>
    ensures { IfOk result (λ r. r ≡ spelled_integer_of text.now) }
{
    match prolog_lex::tokens(alloc, text) {
        Ok(tokens) => integer_of(alloc, text, &tokens),
        Err(LexFault::Memory) => Err(Memory),
        Err(_) => Ok(None),
    }
}
