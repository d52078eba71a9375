// The lexemes of a term's tokens.
ghost use Rattle.std.specs.Prelude.{◌≡◌, ◌++◌, ◌≤◌, drop, length, IfOk};
ghost use Rattle.prolog_read.specs.Lexemes.{placed, behind_all, nothing_before, begins_with_pair};
ghost use Rattle.prolog_read.specs.Reads.{names_of};
ghost use Rattle.prolog_read.specs.Views.{seen, tokens_in, AreTokensOf, HasIndex};

use crate::before::{Before, is_pair};
use prolog_grammar::Placed;
use prolog_lex::Token;
use std::alloc::Global;
use term_core::{List, Memory, Name};

// Whether a bracket at the head of these tokens is closed at once.
fn begins_with_pair(tokens: &[Token]) -> bool
    ensures { result ≡ begins_with_pair (tokens_in tokens.now) }
{
    tokens.len() > 1 && is_pair(tokens[0].kind, tokens[1].kind)
}

/// The tokens behind so many.
pub(crate) fn after(tokens: &[Token], count: usize) -> &[Token]
    requires { count ≤ length tokens.now }
    ensures { result.now ≡ drop count tokens.now }
{
    &tokens[count..]
}

/// The lexemes of these tokens at their places, and the names of their variables.
pub(crate) fn lexemes(
    alloc: Global,
    text: &str,
    tokens: &[Token],
) -> Result<(Vec<Placed>, List<(Name, u64)>), Memory>
    requires { AreTokensOf text.now tokens.now }
    ensures placed { IfOk result (λ x. x.0.items ≡ placed text.now nothing_before (tokens_in tokens.now)) }
    ensures names { IfOk result (λ x. x.1 ≡ names_of text.now (tokens_in tokens.now)) }
{
    let mut found = Vec::new(alloc);
    let mut before = Before::nothing(alloc);
    let mut rest = tokens;
    while !rest.is_empty() {
        if begins_with_pair(rest) {
            found.push(before.pair(alloc, &rest[0], &rest[1])?)?;
            rest = after(rest, 2);
        } else {
            found.push(before.single(alloc, text, &rest[0])?)?;
            rest = after(rest, 1);
        }
    }
    Ok((found, before.into_names()))
}
