// atom_concat/3 and sub_atom/5 (ISO/IEC 13211-1, 8.16.2 and 8.16.3).
ghost use Rattle.std.specs.Prelude.{◌≡◌, [], ◌∷◌, List as list, Some, None, IfOk, MatchOption};
ghost use Rattle.std.specs.List.{find};
ghost use Rattle.term_core.specs.Tree.{Tree};
ghost use Rattle.std.specs.Str.{chars};
ghost use Rattle.builtin_table.specs.Primitives.{Offers, is_compound as is_compound_tree};
ghost use Rattle.builtin_table.specs.Texts.{splits_from, parts_from, sub_ball as sub_ball_of, sub_atom as sub_atom_of, concat_ball as concat_ball_of, concatenation as concatenation_of, concat_found as concat_found_of, atom_concat as atom_concat_of};
ghost use Rattle.tree_results.specs.Outcomes.{outcome_of};
ghost use Rattle.tree_texts.specs.Parts.{text_outcome_of};

use crate::outcome::TextOutcome;
use crate::parts::Parts;
use crate::splits::Splits;
use crate::texts::{characters, text_of};
use builtin_table::{instantiation_error, type_error};
use std::alloc::Global;
use term_core::{Memory, Node, Term};
use tree_results::{Outcome, ball, is_compound, is_either_variable, is_variable, unifies};

fn concat_ball(alloc: Global, formal: Term) -> Result<Outcome, Memory>
    ensures { IfOk result (λ o. (ts : list Tree) → outcome_of ts o ≡ concat_ball_of formal) }
{
    ball(alloc, "atom_concat", 3, formal)
}

// The first of the three that is a compound.
fn first_compound<'a>(first: &'a Term, second: &'a Term, whole: &'a Term) -> Option<&'a Term>
    ensures { MatchOption result
        (find is_compound_tree (first.now ∷ second.now ∷ whole.now ∷ []) ≡ None)
        (λ found. find is_compound_tree (first.now ∷ second.now ∷ whole.now ∷ []) ≡ Some found.now) }
{
    if is_compound(first) {
        return Some(first);
    }
    if is_compound(second) {
        return Some(second);
    }
    if is_compound(whole) {
        return Some(whole);
    }
    None
}

// The atom of two texts.
fn concatenation(alloc: Global, first: &Term, second: &Term) -> Result<Term, Memory>
    ensures { IfOk result (λ t. t ≡ concatenation_of first.now second.now) }
{
    let mut text = String::from_str(alloc, text_of(alloc, first)?.as_str())?;
    text.push_str(text_of(alloc, second)?.as_str())?;
    Term::atom(alloc, text.as_str())
}

// The two parts of a text, for the first two of three arguments.
fn split(alloc: Global, text: &str) -> Result<TextOutcome, Memory>
    ensures { IfOk result (λ o. (a b c : Tree) →
        text_outcome_of (a ∷ b ∷ c ∷ []) o ≡ Offers (splits_from a b (chars text.now) 0)) }
{
    let characters = characters(alloc, text)?;
    Ok(TextOutcome::Splits(Splits { characters, at: 0 }))
}

// The parts of a text, for the last four of five arguments.
fn parts(alloc: Global, text: &str) -> Result<TextOutcome, Memory>
    ensures { IfOk result (λ o. (a b l r s : Tree) → text_outcome_of (a ∷ b ∷ l ∷ r ∷ s ∷ []) o
        ≡ Offers (parts_from (record { before = b; len = l; after = r; part = s }) (chars text.now) 0)) }
{
    let characters = characters(alloc, text)?;
    Ok(TextOutcome::Parts(Parts {
        characters,
        start: 0,
        len: 0,
    }))
}

// atom_concat(A, B, C) of terms that are no compounds.
fn concat_found(
    alloc: Global,
    first: &Term,
    second: &Term,
    whole: &Term,
) -> Result<TextOutcome, Memory>
    ensures { IfOk result (λ o. text_outcome_of (first.now ∷ second.now ∷ whole.now ∷ []) o
        ≡ concat_found_of first.now second.now whole.now) }
{
    if is_either_variable(first, second) {
        let outcome = split(alloc, text_of(alloc, whole)?.as_str())?;
        return Ok(outcome);
    }
    let found = concatenation(alloc, first, second)?;
    let outcome = unifies(alloc, 2, found)?;
    Ok(TextOutcome::Outcome(outcome))
}

/// What atom_concat(A, B, C) gives.
pub fn atom_concat(
    alloc: Global,
    first: &Term,
    second: &Term,
    whole: &Term,
) -> Result<TextOutcome, Memory>
    ensures { IfOk result (λ o. text_outcome_of (first.now ∷ second.now ∷ whole.now ∷ []) o
        ≡ atom_concat_of first.now second.now whole.now) }
{
    if is_either_variable(first, second) && is_variable(whole) {
        let outcome = concat_ball(alloc, instantiation_error(alloc)?)?;
        return Ok(TextOutcome::Outcome(outcome));
    }
    if let Some(term) = first_compound(first, second, whole) {
        let formal = type_error(alloc, "atomic", term.copied(alloc)?)?;
        let outcome = concat_ball(alloc, formal)?;
        return Ok(TextOutcome::Outcome(outcome));
    }
    let outcome = concat_found(alloc, first, second, whole)?;
    Ok(outcome)
}

fn sub_ball(alloc: Global, formal: Term) -> Result<Outcome, Memory>
    ensures { IfOk result (λ o. (ts : list Tree) → outcome_of ts o ≡ sub_ball_of formal) }
{
    ball(alloc, "sub_atom", 5, formal)
}

/// What sub_atom(A, B, L, R, S) gives, whatever B, L, R and S are.
pub fn sub_atom(alloc: Global, atom: &Term) -> Result<TextOutcome, Memory>
    ensures { IfOk result (λ o. (b l r s : Tree) → text_outcome_of (atom.now ∷ b ∷ l ∷ r ∷ s ∷ []) o
        ≡ sub_atom_of atom.now (record { before = b; len = l; after = r; part = s })) }
{
    match atom.symbol() {
        Node::Var(_) => {
            let outcome = sub_ball(alloc, instantiation_error(alloc)?)?;
            Ok(TextOutcome::Outcome(outcome))
        }
        Node::Atom(name) => {
            let outcome = parts(alloc, name.as_str())?;
            Ok(outcome)
        }
        Node::Int(_) | Node::Comp(_, _) => {
            let formal = type_error(alloc, "atom", atom.copied(alloc)?)?;
            let outcome = sub_ball(alloc, formal)?;
            Ok(TextOutcome::Outcome(outcome))
        }
    }
}
