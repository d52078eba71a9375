// What stands in quotes.
ghost use Rattle.std.specs.Prelude.{◌≡◌, ◌≤◌, ◌<◌, ◌+◌, length, SomeIff, IfOk};
ghost use Rattle.std.specs.Char.{IsScalar};
ghost use Rattle.term_core.specs.Tokens as tokens;
ghost use Rattle.prolog_lex.specs.Lexed.{kind_of};
ghost use Rattle.prolog_lex.specs.Scanned.{the_front, part_of, IsWithin};

use crate::classes::{after, character_at, digits};
use crate::digits::value_in;
use crate::front::{Front, Reason};
use crate::token::TokenKind;
use std::alloc::Global;
use term_core::{List, Memory};

/// A part of what quotes hold, and its number of characters.
#[derive(Clone, Copy, Debug, Drop)]
pub(crate) enum Part {
    Character(char, usize),
    /// A backslash before a newline.
    Joint(usize),
    /// A bad escape.
    Refused(usize),
    /// The closing quote.
    Closing,
}

// The character that digits number.
fn numbered_character(radix: u32, digits: &[char]) -> Option<char>
    requires { 1 ≤ radix }
    ensures { SomeIff result (IsScalar (tokens.value_in radix digits.now)) (tokens.value_in radix digits.now) }
{
    match value_in(radix, digits) {
        Some(value) if value < 0x11_0000 => char::from_u32(value as u32),
        _ => None,
    }
}

#[tactic(auto, unfolding(term_core::specs::Tokens::numbered))]
fn numbered(cs: &[char], before: usize, radix: u32) -> Part
    requires front { (1 ≤ before) × (before ≤ length cs.now) }
    requires lower_bound { 2 ≤ radix }
    requires upper_bound { radix ≤ 36 }
    ensures value { part_of result ≡ tokens.numbered before radix cs.now }
    ensures within { (1 ≤ tokens.part_len (part_of result)) × (tokens.part_len (part_of result) ≤ length cs.now) }
{
    let number = &cs[before..];
    let count = digits(number, radix);
    if count == 0 {
        return Part::Refused(before);
    }
    let end = before + count;
    if character_at(cs, end) != '\\' {
        return Part::Refused(end);
    }
    match numbered_character(radix, &number[..count]) {
        Some(c) => Part::Character(c, end + 1),
        None => Part::Refused(end + 1),
    }
}

#[tactic(auto, unfolding(term_core::specs::Tokens::escape))]
fn escape(cs: &[char]) -> Part
    requires { 1 ≤ length cs.now }
    ensures value { part_of result ≡ tokens.escape cs.now }
    ensures within { (1 ≤ tokens.part_len (part_of result)) × (tokens.part_len (part_of result) ≤ length cs.now) }
{
    if cs.len() == 1 {
        return Part::Refused(1);
    }
    match cs[1] {
        'a' => Part::Character('\u{7}', 2),
        'b' => Part::Character('\u{8}', 2),
        'f' => Part::Character('\u{c}', 2),
        'n' => Part::Character('\n', 2),
        'r' => Part::Character('\r', 2),
        't' => Part::Character('\t', 2),
        'v' => Part::Character('\u{b}', 2),
        c @ ('\\' | '\'' | '"' | '`') => Part::Character(c, 2),
        '\n' => Part::Joint(2),
        'x' => numbered(cs, 2, 16),
        c if c.is_digit(8) => numbered(cs, 1, 8),
        _ => Part::Refused(2),
    }
}

#[tactic(auto, unfolding(term_core::specs::Tokens::part))]
pub(crate) fn next_part(quote: char, cs: &[char]) -> Part
    requires quote { 1 ≤ quote }
    requires some { 1 ≤ length cs.now }
    ensures value { part_of result ≡ tokens.part quote cs.now }
    ensures within { (1 ≤ tokens.part_len (part_of result)) × (tokens.part_len (part_of result) ≤ length cs.now) }
{
    let c = cs[0];
    if c == quote {
        if character_at(cs, 1) == quote {
            Part::Character(quote, 2)
        } else {
            Part::Closing
        }
    } else if c == '\\' {
        escape(cs)
    } else {
        Part::Character(c, 1)
    }
}

// A token of so many characters, unless a bad escape stands in its quotes.
fn closed(kind: TokenKind, count: usize, refused: Option<usize>) -> Front
    ensures { the_front result ≡ tokens.closed (kind_of kind) count refused }
{
    match refused {
        None => Front::Token(kind, count),
        Some(place) => Front::Fault(Reason::BadChar, place),
    }
}

// The token in quotes at the front of a text that begins with its quote.
pub(crate) fn quoted(cs: &[char], quote: char, kind: TokenKind) -> Front
    requires quote { 1 ≤ quote }
    requires some { 1 ≤ length cs.now }
    ensures value { the_front result ≡ tokens.quoted quote (kind_of kind) cs.now }
    ensures within { IsWithin (the_front result) (length cs.now) }
{
    let mut at = 1;
    let mut refused = None;
    while at < cs.len() {
        match next_part(quote, after(cs, at)) {
            Part::Closing => return closed(kind, at + 1, refused),
            Part::Refused(count) => {
                refused = refused.or(Some(at));
                at += count;
            }
            Part::Character(_, count) => at += count,
            Part::Joint(count) => at += count,
        }
    }
    Front::Fault(Reason::Unclosed, 0)
}

// The characters that the quotes of a token hold.
pub(crate) fn held(alloc: Global, cs: &[char], quote: char) -> Result<List<char>, Memory>
    requires { 1 ≤ quote }
    ensures { IfOk result (λ characters. characters ≡ tokens.held quote cs.now) }
{
    let mut characters = List::new(alloc);
    let mut at = 1;
    while at < cs.len() {
        match next_part(quote, after(cs, at)) {
            Part::Closing => break,
            Part::Character(c, count) => {
                characters.push(c)?;
                at += count;
            }
            Part::Joint(count) => at += count,
            Part::Refused(count) => at += count,
        }
    }
    Ok(characters)
}
