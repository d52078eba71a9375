// atom_chars/2 and atom_codes/2 (ISO/IEC 13211-1, 8.16.4 and 8.16.5).
ghost use Rattle.std.specs.Prelude.{◌≡◌, [], ◌∷◌, List as list, Ok, IfOk};
ghost use Rattle.builtin_table.specs.Texts.{atom_ball as atom_ball_of, atom_joined as atom_joined_of, atom_made as atom_made_of, atom_spelled as atom_spelled_of};
ghost use Rattle.term_core.specs.Tree.{Tree};
ghost use Rattle.builtin_table.specs.Lists.{needed_values as needed_values_of};
ghost use Rattle.tree_results.specs.Outcomes.{outcome_of};

use crate::characters::{character_refusal, character_terms, joined};
use crate::texts::{atom_of, text_of};
use builtin_table::{Spelling, type_error};
use std::alloc::Global;
use term_core::{List, Memory, Term};
use tree_results::{Outcome, ball, is_compound, is_variable, needed_values, unifies};

fn atom_ball(alloc: Global, spelling: Spelling, formal: Term) -> Result<Outcome, Memory>
    ensures { IfOk result (λ o. (ts : list Tree) → outcome_of ts o ≡ atom_ball_of spelling formal) }
{
    match spelling {
        Spelling::Characters => ball(alloc, "atom_chars", 2, formal),
        Spelling::Codes => ball(alloc, "atom_codes", 2, formal),
    }
}

// A is the atom of these characters, where no term is no character.
fn atom_joined(
    alloc: Global,
    spelling: Spelling,
    characters: Result<List<char>, Term>,
) -> Result<Outcome, Memory>
    ensures { IfOk result (λ o. (a l : Tree) →
        outcome_of (a ∷ l ∷ []) o ≡ atom_joined_of spelling a characters) }
{
    match characters {
        Ok(characters) => {
            let found = atom_of(alloc, characters.as_slice())?;
            let outcome = unifies(alloc, 0, found)?;
            Ok(outcome)
        }
        Err(term) => {
            let formal = character_refusal(alloc, spelling, term)?;
            let outcome = atom_ball(alloc, spelling, formal)?;
            Ok(outcome)
        }
    }
}

// The atom of a list's characters.
fn atom_made(alloc: Global, spelling: Spelling, list: &Term) -> Result<Outcome, Memory>
    ensures { IfOk result (λ o. (a : Tree) →
        outcome_of (a ∷ list.now ∷ []) o ≡ atom_made_of spelling a (needed_values_of list.now)) }
{
    match needed_values(alloc, list)? {
        Ok(terms) => {
            let characters = joined(alloc, spelling, terms.as_slice())?;
            let outcome = atom_joined(alloc, spelling, characters)?;
            Ok(outcome)
        }
        Err(formal) => {
            let outcome = atom_ball(alloc, spelling, formal)?;
            Ok(outcome)
        }
    }
}

/// What atom_chars(A, L) or atom_codes(A, L) gives.
pub fn atom_spelled(
    alloc: Global,
    spelling: Spelling,
    atom: &Term,
    list: &Term,
) -> Result<Outcome, Memory>
    ensures { IfOk result (λ o. outcome_of (atom.now ∷ list.now ∷ []) o
        ≡ atom_spelled_of spelling atom.now list.now) }
{
    if is_variable(atom) {
        let outcome = atom_made(alloc, spelling, list)?;
        return Ok(outcome);
    }
    if is_compound(atom) {
        let formal = type_error(alloc, "atom", atom.copied(alloc)?)?;
        let outcome = atom_ball(alloc, spelling, formal)?;
        return Ok(outcome);
    }
    let text = text_of(alloc, atom)?;
    let found = character_terms(alloc, spelling, text.as_str())?;
    let outcome = unifies(alloc, 1, found)?;
    Ok(outcome)
}
