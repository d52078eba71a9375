ghost use Rattle.std.specs.Prelude.{◌≡◌, ◌<◌};
ghost use Rattle.std.specs.List.{list_all};
ghost use Rattle.prolog_write.specs.Text.{first, last, is_symbol, is_word, is_word_atom, is_symbol_atom, opens_comment, is_solo_atom, is_bare, is_spaced, stands_bare, hex_digit};

use crate::mode::Mode;

// Whether a byte is a symbol character.
#[tactic(auto, unfolding(crate::specs::Text::is_symbol))]
pub(crate) fn is_symbol(byte: u8) -> bool
    ensures { result ≡ is_symbol byte }
{
    b"+-*/\\^<>=~:.?@#&$".contains(&byte)
}

// Whether a byte is a letter, a digit or `_`.
#[tactic(auto, unfolding(crate::specs::Text::is_word))]
pub(crate) fn is_word(byte: u8) -> bool
    ensures { result ≡ is_word byte }
{
    byte.is_ascii_alphanumeric() || byte == b'_'
}

// The first byte, or 0.
pub(crate) fn first(text: &[u8]) -> u8
    ensures { result ≡ first text.now }
{
    match text {
        [byte, ..] => *byte,
        [] => 0,
    }
}

// The last byte, or 0.
pub(crate) fn last(text: &[u8]) -> u8
    ensures { result ≡ last text.now }
{
    match text {
        [.., byte] => *byte,
        [] => 0,
    }
}

fn are_words(bytes: &[u8]) -> bool
    ensures { result ≡ list_all is_word bytes.now }
{
    bytes.iter().all(|byte| is_word(*byte))
}

fn are_symbols(bytes: &[u8]) -> bool
    ensures { result ≡ list_all is_symbol bytes.now }
{
    bytes.iter().all(|byte| is_symbol(*byte))
}

fn is_word_atom(name: &[u8]) -> bool
    ensures { result ≡ is_word_atom name.now }
{
    first(name).is_ascii_lowercase() && are_words(name)
}

fn opens_comment(name: &[u8]) -> bool
    ensures { result ≡ opens_comment name.now }
{
    name.len() >= 2 && name[0] == b'/' && name[1] == b'*'
}

fn is_symbol_atom(name: &str) -> bool
    ensures { result ≡ is_symbol_atom name.now }
{
    let bytes = name.as_bytes();
    is_symbol(first(bytes)) && are_symbols(bytes) && name != "." && !opens_comment(bytes)
}

fn is_solo_atom(name: &str) -> bool
    ensures { result ≡ is_solo_atom name.now }
{
    matches!(name, "[]" | "{}" | "!" | ";")
}

// Whether an atom of this name needs no quotes.
#[tactic(auto, unfolding(crate::specs::Text::is_bare))]
fn is_bare(name: &str) -> bool
    ensures { result ≡ is_bare name.now }
{
    is_word_atom(name.as_bytes()) || is_symbol_atom(name) || is_solo_atom(name)
}

// Whether an atom of this name stands without quotes.
pub(crate) fn stands_bare(mode: Mode, name: &str) -> bool
    ensures { result ≡ stands_bare mode name.now }
{
    mode == Mode::Plain || is_bare(name)
}

// Whether a space stands between a piece that ends in `last`, a prefix operator or not, and one that begins with `first`.
#[tactic(auto, unfolding(crate::specs::Text::is_spaced))]
pub(crate) fn is_spaced(last: u8, is_prefix: bool, first: u8) -> bool
    ensures { result ≡ is_spaced last is_prefix first }
{
    (is_prefix && (first == b'(' || first.is_ascii_digit()))
        || (is_symbol(last) && is_symbol(first))
        || (is_word(last) && is_word(first))
}

// A hexadecimal digit in lower case.
pub(crate) fn hex_digit(digit: u8) -> u8
    requires { digit < 16 }
    ensures { result ≡ hex_digit digit }
{
    if digit < 10 {
        b'0' + digit
    } else {
        b'a' + digit - 10
    }
}
