// Integers.
ghost use Rattle.std.specs.Prelude.{◌≡◌, ◌≤◌, ◌^◌, length, drop, SomeIff};
ghost use Rattle.term_core.specs.Tokens as tokens;
ghost use Rattle.prolog_lex.specs.Scanned.{the_front, IsWithin};

use crate::classes::{character_at, digits};
use crate::digits::value_in;
use crate::front::{Front, Reason};
use crate::quotes::{Part, next_part};
use crate::token::TokenKind;

// The code of the character that stands in front as in quotes, or 0.
#[tactic(auto, unfolding(term_core::specs::Tokens::part))]
fn character_code(cs: &[char]) -> u32
    ensures { result ≡ tokens.character_or_0 (tokens.part 39 cs.now) }
{
    if cs.is_empty() {
        return 0;
    }
    match next_part('\'', cs) {
        Part::Character(c, _) => u32::from(c),
        _ => 0,
    }
}

// The value of an integer token, where it is in range.
#[tactic(auto, unfolding(term_core::specs::Tokens::integer))]
pub(crate) fn integer(cs: &[char]) -> Option<u128>
    ensures { SomeIff result (tokens.integer cs.now ≤ 2 ^ 127) (tokens.integer cs.now) }
{
    match character_at(cs, 1) {
        'x' => value_in(16, &cs[2..]),
        'o' => value_in(8, &cs[2..]),
        'b' => value_in(2, &cs[2..]),
        '\'' => Some(u128::from(character_code(&cs[2..]))),
        _ => value_in(10, cs),
    }
}

fn counted(cs: &[char], count: usize) -> Front
    requires { (1 ≤ count) × (count ≤ length cs.now) }
    ensures value { the_front result ≡ tokens.counted count cs.now }
    ensures within { IsWithin (the_front result) (length cs.now) }
{
    match integer(&cs[..count]) {
        Some(_) => Front::Token(TokenKind::Integer, count),
        None => Front::Fault(Reason::OutOfRange, 0),
    }
}

fn decimal(cs: &[char]) -> Front
    requires { 1 ≤ length cs.now }
    ensures value { the_front result ≡ tokens.decimal cs.now }
    ensures within { IsWithin (the_front result) (length cs.now) }
{
    let count = 1 + digits(&cs[1..], 10);
    if character_at(cs, count) == '.' && character_at(cs, count + 1).is_ascii_digit() {
        Front::Fault(Reason::FloatNumber, 0)
    } else {
        counted(cs, count)
    }
}

// An integer of the form `0'c`, where a character stands behind its quote.
fn coded(cs: &[char]) -> Front
    requires { 3 ≤ length cs.now }
    ensures value { the_front result ≡ tokens.coded (tokens.part 39 (drop 2 cs.now)) cs.now }
    ensures within { IsWithin (the_front result) (length cs.now) }
{
    match next_part('\'', &cs[2..]) {
        Part::Character(_, count) => counted(cs, 2 + count),
        Part::Closing => decimal(cs),
        _ => Front::Fault(Reason::BadChar, 2),
    }
}

// An integer whose digits stand behind `0x` or the like.
fn in_radix(cs: &[char], radix: u32) -> Front
    requires some { 2 ≤ length cs.now }
    requires lower_bound { 2 ≤ radix }
    requires upper_bound { radix ≤ 36 }
    ensures value { the_front result ≡ tokens.in_radix radix cs.now }
    ensures within { IsWithin (the_front result) (length cs.now) }
{
    match digits(&cs[2..], radix) {
        0 => decimal(cs),
        count => counted(cs, 2 + count),
    }
}

// The integer at the front of a text that begins with a digit.
#[tactic(auto, unfolding(term_core::specs::Tokens::number))]
pub(crate) fn number(cs: &[char]) -> Front
    requires { 1 ≤ length cs.now }
    ensures value { the_front result ≡ tokens.number cs.now }
    ensures within { IsWithin (the_front result) (length cs.now) }
{
    if cs[0] != '0' {
        return decimal(cs);
    }
    match character_at(cs, 1) {
        'x' => in_radix(cs, 16),
        'o' => in_radix(cs, 8),
        'b' => in_radix(cs, 2),
        '\'' if cs.len() > 2 => coded(cs),
        _ => decimal(cs),
    }
}
