// Characters as terms (ISO/IEC 13211-1, 8.16.4 to 8.16.6).
ghost use Rattle.std.specs.Prelude.{◌≡◌, [], ◌∷◌, List as list, IfOk};
ghost use Rattle.term_core.specs.Tree.{Tree, integer};
ghost use Rattle.builtin_table.specs.Texts.{only as only_of, character_at as character_at_of, character_of as character_of_tree, character_term as character_term_of, character_terms as character_terms_of, character_refusal as character_refusal_of, joined as joined_of, code_ball as code_ball_of, character_by_code as character_by_code_of, code_of_character as code_of_character_of, char_code as char_code_of};
ghost use Rattle.tree_results.specs.Outcomes.{outcome_of};

use crate::texts::{atom_of, characters};
use builtin_table::{Spelling, instantiation_error, representation_error, type_error};
use std::alloc::Global;
use term_core::{List, Memory, Node, Term};
use tree_results::{Outcome, ball, is_variable, list_of, unifies};

// The only one of these.
fn only(characters: &[char]) -> Option<char>
    ensures { result ≡ only_of characters.now }
{
    match characters {
        [character] => Some(*character),
        _ => None,
    }
}

// The character of this number.
fn character_at(number: i128) -> Option<char>
    ensures { result ≡ character_at_of number }
{
    let code = u32::try_from(number).ok()?;
    char::from_u32(code)
}

// The character that a term is.
fn character_of(alloc: Global, spelling: Spelling, term: &Term) -> Result<Option<char>, Memory>
    ensures { IfOk result (λ character. character ≡ character_of_tree spelling term.now) }
{
    match (spelling, term.symbol()) {
        (Spelling::Characters, Node::Atom(name)) => {
            let characters = characters(alloc, name.as_str())?;
            Ok(only(&characters))
        }
        (Spelling::Codes, Node::Int(number)) => Ok(character_at(*number)),
        (_, _) => Ok(None),
    }
}

fn character_term(alloc: Global, spelling: Spelling, character: char) -> Result<Term, Memory>
    ensures { IfOk result (λ t. t ≡ character_term_of spelling character) }
{
    match spelling {
        Spelling::Characters => atom_of(alloc, &[character]),
        Spelling::Codes => Term::int(alloc, i128::from(u32::from(character))),
    }
}

// What is wrong with a term that is no character.
pub(crate) fn character_refusal(
    alloc: Global,
    spelling: Spelling,
    term: Term,
) -> Result<Term, Memory>
    ensures { IfOk result (λ t. t ≡ character_refusal_of spelling term) }
{
    match spelling {
        Spelling::Characters => type_error(alloc, "character", term),
        Spelling::Codes => representation_error(alloc, "character_code"),
    }
}

// The list of a text's characters.
pub(crate) fn character_terms(alloc: Global, spelling: Spelling, text: &str) -> Result<Term, Memory>
    ensures { IfOk result (λ t. t ≡ character_terms_of spelling text.now) }
{
    let characters = characters(alloc, text)?;
    let mut terms = Vec::new(alloc);
    for character in &characters {
        terms.push(character_term(alloc, spelling, *character)?)?;
    }
    list_of(alloc, &terms)
}

// The characters that terms are, or the first term that is none.
pub(crate) fn joined(
    alloc: Global,
    spelling: Spelling,
    terms: &[Term],
) -> Result<Result<List<char>, Term>, Memory>
    ensures { IfOk result (λ r. r ≡ joined_of spelling terms.now) }
{
    let mut characters = List::new(alloc);
    for term in terms {
        match character_of(alloc, spelling, term)? {
            Some(character) => characters.push(character)?,
            None => return Ok(Err(term.copied(alloc)?)),
        }
    }
    Ok(Ok(characters))
}

fn code_ball(alloc: Global, formal: Term) -> Result<Outcome, Memory>
    ensures { IfOk result (λ o. (ts : list Tree) → outcome_of ts o ≡ code_ball_of formal) }
{
    ball(alloc, "char_code", 2, formal)
}

// The character of a number.
fn character_of_code(alloc: Global, number: i128) -> Result<Outcome, Memory>
    ensures { IfOk result (λ o. (c n : Tree) →
        outcome_of (c ∷ n ∷ []) o ≡ character_by_code_of c (integer number)) }
{
    match character_at(number) {
        Some(found) => {
            let found = atom_of(alloc, &[found])?;
            let outcome = unifies(alloc, 0, found)?;
            Ok(outcome)
        }
        None => {
            let formal = representation_error(alloc, "character_code")?;
            let outcome = code_ball(alloc, formal)?;
            Ok(outcome)
        }
    }
}

// char_code(C, N) of a variable C.
fn character_by_code(alloc: Global, code: &Term) -> Result<Outcome, Memory>
    ensures { IfOk result (λ o. (c : Tree) →
        outcome_of (c ∷ code.now ∷ []) o ≡ character_by_code_of c code.now) }
{
    match code.symbol() {
        Node::Var(_) => {
            let outcome = code_ball(alloc, instantiation_error(alloc)?)?;
            Ok(outcome)
        }
        Node::Int(number) => {
            let outcome = character_of_code(alloc, *number)?;
            Ok(outcome)
        }
        Node::Atom(_) | Node::Comp(_, _) => {
            let formal = type_error(alloc, "integer", code.copied(alloc)?)?;
            let outcome = code_ball(alloc, formal)?;
            Ok(outcome)
        }
    }
}

// char_code(C, N) of another C.
fn code_of_character(alloc: Global, character: &Term) -> Result<Outcome, Memory>
    ensures { IfOk result (λ o. (n : Tree) →
        outcome_of (character.now ∷ n ∷ []) o ≡ code_of_character_of character.now n) }
{
    match character_of(alloc, Spelling::Characters, character)? {
        Some(found) => {
            let found = Term::int(alloc, i128::from(u32::from(found)))?;
            let outcome = unifies(alloc, 1, found)?;
            Ok(outcome)
        }
        None => {
            let formal = type_error(alloc, "character", character.copied(alloc)?)?;
            let outcome = code_ball(alloc, formal)?;
            Ok(outcome)
        }
    }
}

/// What char_code(C, N) gives.
pub fn char_code(alloc: Global, character: &Term, code: &Term) -> Result<Outcome, Memory>
    ensures { IfOk result (λ o. outcome_of (character.now ∷ code.now ∷ []) o
        ≡ char_code_of character.now code.now) }
{
    if is_variable(character) {
        let outcome = character_by_code(alloc, code)?;
        return Ok(outcome);
    }
    let outcome = code_of_character(alloc, character)?;
    Ok(outcome)
}
