ghost use Rattle.std.specs.Prelude.{◌≡◌, ◌≤◌, ◌<◌, ◌+◌, ◌^◌, map, take, length, Ok, IfOk, IfErr};
ghost use Rattle.std.specs.Str.{chars};
ghost use Rattle.term_core.specs.Tokens as tokens;
ghost use Rattle.prolog_lex.specs.Lexed.{is_fault, token_of, tokens_of, AreInOrder, TellsFault};
ghost use Rattle.prolog_lex.specs.Scanned.{reason_of};

use crate::classes::after;
use crate::front::{Front, Reason, front_of};
use crate::token::{LexFault, Token};
use std::alloc::{AllocError, Global};

// The characters of a text.
pub(crate) fn characters(alloc: Global, text: &str) -> Result<Vec<char>, AllocError>
    ensures { IfOk result (λ characters. characters.items ≡ chars text.now) }
{
    text.chars().collect(alloc)
}

// How many bytes the characters take.
fn byte_len(cs: &[char]) -> u64
    requires { tokens.size cs.now < 2 ^ 64 }
    ensures { result ≡ tokens.size cs.now }
{
    let mut sum = 0;
    for c in cs {
        sum += c.len_utf8() as u64;
    }
    sum
}

// The place behind so many characters that stand at a place.
fn place_behind(at: u64, cs: &[char], count: usize) -> u64
    requires within { count ≤ length cs.now }
    requires fits { at + tokens.size cs.now < 2 ^ 64 }
    ensures { result ≡ at + tokens.size (take count cs.now) }
{
    at + byte_len(&cs[..count])
}

fn fault(reason: Reason, at: u64) -> LexFault
    ensures { TellsFault (is_fault (reason_of reason) at) result }
{
    match reason {
        Reason::BadChar => LexFault::BadChar { at },
        Reason::Unclosed => LexFault::Unclosed { at },
        Reason::FloatNumber => LexFault::FloatToken { at },
        Reason::OutOfRange => LexFault::IntRange { at },
    }
}

/// The tokens of a text (ISO/IEC 13211-1, 6.4), with nothing but layout between them.
///
/// Layout is what `char::is_whitespace` accepts, `%` to the end of its line, and `/*` to `*/`. A name or a variable may
/// have characters past ASCII, by the properties XID_Start and XID_Continue of Unicode.
///
/// The fault is the one of the least place.
pub fn tokens(alloc: Global, text: &str) -> Result<Vec<Token>, LexFault>
    ensures tokens { IfOk result (λ found. tokens_of text.now ≡ Ok (map token_of found.items)) }
    ensures spans { IfOk result (λ found. AreInOrder 0 found.items (length text.now)) }
    ensures fault { IfErr result (TellsFault (tokens_of text.now)) }
{
    let characters = characters(alloc, text)?;
    let mut found = Vec::new(alloc);
    let end = text.len() as u64;
    let mut at = 0;
    let mut rest = characters.as_slice();
    while at < end {
        match front_of(rest) {
            Front::Layout(count) => {
                at = place_behind(at, rest, count);
                rest = after(rest, count);
            }
            Front::Token(kind, count) => {
                let to = place_behind(at, rest, count);
                found.push(Token { kind, from: at, to })?;
                at = to;
                rest = after(rest, count);
            }
            Front::Fault(reason, count) => {
                return Err(fault(reason, place_behind(at, rest, count)));
            }
        }
    }
    Ok(found)
}
