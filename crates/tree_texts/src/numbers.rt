// number_chars/2, number_codes/2 and atom_number/2 (ISO/IEC 13211-1, 8.16.7 and 8.16.8).
ghost use Rattle.std.specs.Prelude.{◌≡◌, [], ◌∷◌, List as list, Ok, IfOk};
ghost use Rattle.term_core.specs.Tree.{Tree, atom};
ghost use Rattle.builtin_table.specs.Lists.{bound as bound_of};
ghost use Rattle.builtin_table.specs.Numbers.{number_ball as number_ball_of, illegal_number as illegal_number_of, number_joined as number_joined_of, number_made as number_made_of, number_text as number_text_of, number_spelled as number_spelled_of, atom_number_ball as atom_number_ball_of, atom_of_number as atom_of_number_of, atom_number as atom_number_of};
ghost use Rattle.tree_results.specs.Outcomes.{outcome_of};

use crate::characters::{character_terms, joined};
use crate::spelled::spelled_integer;
use crate::texts::text_of;
use builtin_table::{Spelling, instantiation_error, syntax_error, type_error};
use std::alloc::Global;
use term_core::{List, Memory, Node, Term};
use tree_results::{Outcome, ball, bound, fails, is_empty, list_parts, unifies};

fn number_ball(alloc: Global, spelling: Spelling, formal: Term) -> Result<Outcome, Memory>
    ensures { IfOk result (λ o. (ts : list Tree) → outcome_of ts o ≡ number_ball_of spelling formal) }
{
    match spelling {
        Spelling::Characters => ball(alloc, "number_chars", 2, formal),
        Spelling::Codes => ball(alloc, "number_codes", 2, formal),
    }
}

fn illegal_number(alloc: Global, spelling: Spelling) -> Result<Outcome, Memory>
    ensures { IfOk result (λ o. (ts : list Tree) → outcome_of ts o ≡ illegal_number_of spelling) }
{
    let formal = syntax_error(alloc, "illegal_number")?;
    number_ball(alloc, spelling, formal)
}

// N is the integer that these characters spell.
fn number_by_characters(
    alloc: Global,
    spelling: Spelling,
    characters: &[char],
) -> Result<Outcome, Memory>
    ensures { IfOk result (λ o. (n l : Tree) →
        outcome_of (n ∷ l ∷ []) o ≡ number_joined_of spelling n (Ok characters.now)) }
{
    let text: String = characters.iter().copied().collect(alloc)?;
    match spelled_integer(alloc, text.as_str())? {
        Some(value) => {
            let found = Term::int(alloc, value)?;
            let outcome = unifies(alloc, 0, found)?;
            Ok(outcome)
        }
        None => {
            let outcome = illegal_number(alloc, spelling)?;
            Ok(outcome)
        }
    }
}

fn number_joined(alloc: Global, spelling: Spelling, terms: &[Term]) -> Result<Outcome, Memory>
    ensures { IfOk result (λ o. (n l : Tree) →
        outcome_of (n ∷ l ∷ []) o ≡ number_made_of spelling n (Ok terms.now)) }
{
    match joined(alloc, spelling, terms)? {
        Ok(characters) => {
            let outcome = number_by_characters(alloc, spelling, characters.as_slice())?;
            Ok(outcome)
        }
        Err(_) => {
            let outcome = illegal_number(alloc, spelling)?;
            Ok(outcome)
        }
    }
}

// N is the integer that the elements of a list spell.
fn number_made(alloc: Global, spelling: Spelling, elements: List<Term>) -> Result<Outcome, Memory>
    ensures { IfOk result (λ o. (n l : Tree) →
        outcome_of (n ∷ l ∷ []) o ≡ number_made_of spelling n (bound_of (Ok elements))) }
{
    match bound(alloc, elements)? {
        Ok(terms) => {
            let outcome = number_joined(alloc, spelling, terms.as_slice())?;
            Ok(outcome)
        }
        Err(formal) => {
            let outcome = number_ball(alloc, spelling, formal)?;
            Ok(outcome)
        }
    }
}

// The text of N.
fn number_text(alloc: Global, spelling: Spelling, number: &Term) -> Result<Outcome, Memory>
    ensures { IfOk result (λ o. (l : Tree) →
        outcome_of (number.now ∷ l ∷ []) o ≡ number_text_of spelling number.now l) }
{
    match number.symbol() {
        Node::Var(_) => {
            let outcome = number_ball(alloc, spelling, instantiation_error(alloc)?)?;
            Ok(outcome)
        }
        Node::Int(_) => {
            let text = text_of(alloc, number)?;
            let found = character_terms(alloc, spelling, text.as_str())?;
            let outcome = unifies(alloc, 1, found)?;
            Ok(outcome)
        }
        Node::Atom(_) | Node::Comp(_, _) => {
            let formal = type_error(alloc, "integer", number.copied(alloc)?)?;
            let outcome = number_ball(alloc, spelling, formal)?;
            Ok(outcome)
        }
    }
}

/// What number_chars(N, L) or number_codes(N, L) gives.
pub fn number_spelled(
    alloc: Global,
    spelling: Spelling,
    number: &Term,
    list: &Term,
) -> Result<Outcome, Memory>
    ensures { IfOk result (λ o. outcome_of (number.now ∷ list.now ∷ []) o
        ≡ number_spelled_of spelling number.now list.now) }
{
    let (elements, rest) = list_parts(alloc, list)?;
    if is_empty(&rest) {
        let elements = List::from_vec(elements);
        let outcome = number_made(alloc, spelling, elements)?;
        return Ok(outcome);
    }
    let outcome = number_text(alloc, spelling, number)?;
    Ok(outcome)
}

fn atom_number_ball(alloc: Global, formal: Term) -> Result<Outcome, Memory>
    ensures { IfOk result (λ o. (ts : list Tree) → outcome_of ts o ≡ atom_number_ball_of formal) }
{
    ball(alloc, "atom_number", 2, formal)
}

// atom_number(A, N) of a variable A.
fn atom_of_number(alloc: Global, number: &Term) -> Result<Outcome, Memory>
    ensures { IfOk result (λ o. (a : Tree) →
        outcome_of (a ∷ number.now ∷ []) o ≡ atom_of_number_of a number.now) }
{
    match number.symbol() {
        Node::Var(_) => {
            let outcome = atom_number_ball(alloc, instantiation_error(alloc)?)?;
            Ok(outcome)
        }
        Node::Int(_) => {
            let text = text_of(alloc, number)?;
            let found = Term::atom(alloc, text.as_str())?;
            let outcome = unifies(alloc, 0, found)?;
            Ok(outcome)
        }
        Node::Atom(_) | Node::Comp(_, _) => {
            let formal = type_error(alloc, "integer", number.copied(alloc)?)?;
            let outcome = atom_number_ball(alloc, formal)?;
            Ok(outcome)
        }
    }
}

// N is the integer that an atom's text spells.
fn number_of_text(alloc: Global, text: &str) -> Result<Outcome, Memory>
    ensures { IfOk result (λ o. (a n : Tree) →
        outcome_of (a ∷ n ∷ []) o ≡ atom_number_of (atom text.now) n) }
{
    match spelled_integer(alloc, text)? {
        Some(value) => {
            let found = Term::int(alloc, value)?;
            let outcome = unifies(alloc, 1, found)?;
            Ok(outcome)
        }
        None => Ok(fails()),
    }
}

/// What atom_number(A, N) gives.
pub fn atom_number(alloc: Global, atom: &Term, number: &Term) -> Result<Outcome, Memory>
    ensures { IfOk result (λ o. outcome_of (atom.now ∷ number.now ∷ []) o
        ≡ atom_number_of atom.now number.now) }
{
    match atom.symbol() {
        Node::Var(_) => {
            let outcome = atom_of_number(alloc, number)?;
            Ok(outcome)
        }
        Node::Atom(name) => {
            let outcome = number_of_text(alloc, name.as_str())?;
            Ok(outcome)
        }
        Node::Int(_) | Node::Comp(_, _) => {
            let formal = type_error(alloc, "atom", atom.copied(alloc)?)?;
            let outcome = atom_number_ball(alloc, formal)?;
            Ok(outcome)
        }
    }
}
