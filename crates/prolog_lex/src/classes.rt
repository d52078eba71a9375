// The classes of characters, and how many characters of a class stand at the front of a text.
ghost use Rattle.std.specs.Prelude.{◌≡◌, ◌≤◌, ◌==◌, not, length, drop, slice_index};
ghost use Rattle.std.specs.List.{prefix_len};
ghost use Rattle.std.specs.Char.{digit_value};
ghost use Rattle.term_core.specs.Tokens as tokens;
ghost use Rattle.prolog_lex.specs.Scanned.{begins_name, continues};

use unicode_ident::{is_xid_continue, is_xid_start};

#[tactic(auto, unfolding(term_core::specs::Tokens::is_symbol))]
pub(crate) fn is_symbol(c: char) -> bool
    ensures { result ≡ tokens.is_symbol c }
{
    match c {
        '+'
        | '-'
        | '*'
        | '/'
        | '\\'
        | '^'
        | '<'
        | '>'
        | '='
        | '~'
        | ':'
        | '.'
        | '?'
        | '@'
        | '#'
        | '&'
        | '$' => true,
        _ => false,
    }
}

#[tactic(auto, unfolding(term_core::specs::Tokens::begins_name))]
pub(crate) fn begins_name(c: char) -> bool
    ensures { result ≡ begins_name c }
{
    if c.is_ascii() {
        c.is_ascii_lowercase()
    } else {
        is_xid_start(c)
    }
}

pub(crate) fn begins_variable(c: char) -> bool
    ensures { result ≡ tokens.begins_variable c }
{
    c.is_ascii_uppercase() || c == '_'
}

#[tactic(auto, unfolding(term_core::specs::Tokens::continues))]
fn continues(c: char) -> bool
    ensures { result ≡ continues c }
{
    if c.is_ascii() {
        c.is_ascii_alphanumeric() || c == '_'
    } else {
        is_xid_continue(c)
    }
}

// The character at an index, or the one of code 0 past the end.
pub(crate) fn character_at(cs: &[char], index: usize) -> char
    ensures { result ≡ slice_index cs.now index }
{
    cs.get(index).copied().unwrap_or('\0')
}

// The characters behind so many.
pub(crate) fn after(cs: &[char], count: usize) -> &[char]
    requires { count ≤ length cs.now }
    ensures { result.now ≡ drop count cs.now }
{
    &cs[count..]
}

// The value of a digit or a letter in any radix, and 36 of another character.
pub(crate) fn digit_value(c: char) -> u32
    ensures { result ≡ digit_value c }
{
    c.to_digit(36).unwrap_or(36)
}

pub(crate) fn digits(cs: &[char], radix: u32) -> usize
    requires lower_bound { 2 ≤ radix }
    requires upper_bound { radix ≤ 36 }
    ensures value { result ≡ tokens.digits radix cs.now }
    ensures within { result ≤ length cs.now }
{
    cs.iter().take_while(|c| c.is_digit(radix)).count()
}

pub(crate) fn symbols(cs: &[char]) -> usize
    ensures value { result ≡ prefix_len tokens.is_symbol cs.now }
    ensures within { result ≤ length cs.now }
{
    cs.iter().take_while(|c| is_symbol(**c)).count()
}

pub(crate) fn continuing(cs: &[char]) -> usize
    ensures value { result ≡ prefix_len continues cs.now }
    ensures within { result ≤ length cs.now }
{
    cs.iter().take_while(|c| continues(**c)).count()
}

pub(crate) fn before_newline(cs: &[char]) -> usize
    ensures value { result ≡ prefix_len (λ c. not (c == 10)) cs.now }
    ensures within { result ≤ length cs.now }
{
    cs.iter().take_while(|c| **c != '\n').count()
}
