// Texts of atoms and integers, and their characters (ISO/IEC 13211-1, 8.16).
ghost use Rattle.std.specs.Prelude.{◌≡◌, [], ◌∷◌, List as list, length, IfOk};
ghost use Rattle.std.specs.Str.{chars};
ghost use Rattle.term_core.specs.Tree.{Tree};
ghost use Rattle.builtin_table.specs.Texts.{text_of as text_of_tree, characters_of, atom_of as atom_of_characters, atom_length as atom_length_of, length_ball as length_ball_of, length_found as length_found_of};
ghost use Rattle.tree_results.specs.Outcomes.{outcome_of};

use builtin_table::{instantiation_error, type_error};
use std::alloc::{AllocError, Global};
use term_core::{Memory, Name, Node, Term};
use tree_results::{Outcome, ball, is_compound, is_variable, unifies};

// The text of an atom or an integer; another term has none.
pub(crate) fn text_of(alloc: Global, term: &Term) -> Result<Name, Memory>
    ensures { IfOk result (λ text. text ≡ text_of_tree term.now) }
{
    match term.symbol() {
        Node::Atom(name) => name.copied(alloc),
        Node::Int(value) => Name::new(alloc, value.to_string(alloc)?.as_str()),
        Node::Var(_) | Node::Comp(_, _) => Name::new(alloc, ""),
    }
}

// The characters of a text.
pub(crate) fn characters(alloc: Global, text: &str) -> Result<Vec<char>, AllocError>
    ensures { IfOk result (λ characters. characters.items ≡ chars text.now) }
{
    text.chars().collect(alloc)
}

// The atom of these characters.
pub(crate) fn atom_of(alloc: Global, characters: &[char]) -> Result<Term, Memory>
    ensures { IfOk result (λ t. t ≡ atom_of_characters characters.now) }
{
    let text: String = characters.iter().copied().collect(alloc)?;
    Term::atom(alloc, text.as_str())
}

fn length_ball(alloc: Global, formal: Term) -> Result<Outcome, Memory>
    ensures { IfOk result (λ o. (ts : list Tree) → outcome_of ts o ≡ length_ball_of formal) }
{
    ball(alloc, "atom_length", 2, formal)
}

// How many characters the text of an atom or an integer has.
fn length_of(alloc: Global, term: &Term) -> Result<usize, Memory>
    ensures { IfOk result (λ count. count ≡ length (characters_of term.now)) }
{
    let text = text_of(alloc, term)?;
    Ok(characters(alloc, text.as_str())?.len())
}

// N is so many.
fn length_found(alloc: Global, number: &Term, count: usize) -> Result<Outcome, Memory>
    ensures { IfOk result (λ o. (a : Tree) →
        outcome_of (a ∷ number.now ∷ []) o ≡ length_found_of number.now count) }
{
    match number.symbol() {
        Node::Var(_) | Node::Int(_) => {
            let found = Term::int(alloc, count as i128)?;
            let outcome = unifies(alloc, 1, found)?;
            Ok(outcome)
        }
        Node::Atom(_) | Node::Comp(_, _) => {
            let formal = type_error(alloc, "integer", number.copied(alloc)?)?;
            let outcome = length_ball(alloc, formal)?;
            Ok(outcome)
        }
    }
}

/// What atom_length(A, N) gives.
pub fn atom_length(alloc: Global, atom: &Term, number: &Term) -> Result<Outcome, Memory>
    ensures { IfOk result (λ o. outcome_of (atom.now ∷ number.now ∷ []) o
        ≡ atom_length_of atom.now number.now) }
{
    if is_variable(atom) {
        let outcome = length_ball(alloc, instantiation_error(alloc)?)?;
        return Ok(outcome);
    }
    if is_compound(atom) {
        let formal = type_error(alloc, "atom", atom.copied(alloc)?)?;
        let outcome = length_ball(alloc, formal)?;
        return Ok(outcome);
    }
    let count = length_of(alloc, atom)?;
    let outcome = length_found(alloc, number, count)?;
    Ok(outcome)
}
