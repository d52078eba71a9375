// msort/2, sort/2 and keysort/2 (ISO/IEC 13211-1, Cor.2, 8.4.3 and 8.4.4).
ghost use Rattle.std.specs.Prelude.{◌≡◌, [], ◌∷◌, not, map, Some, None, IfOk, MatchOption};
ghost use Rattle.std.specs.List.{find};
ghost use Rattle.term_core.specs.Tree.{Tree};
ghost use Rattle.builtin_table.specs.Sorting.{sorted, sorted_terms as sorted_terms_of, sorted_set as sorted_set_of, key_cmp, is_pair as is_pair_of, pairs_among as pairs_among_of, msort as msort_of, sort as sort_of, keysort as keysort_of, keysort_made as keysort_made_of};
ghost use Rattle.builtin_table.specs.Lists.{needed_values as needed_values_of};
ghost use Rattle.tree_results.specs.Outcomes.{outcome_of};
ghost use Rattle.tree_lists.specs.Keys.{keyed};

use crate::keyed::Keyed;
use builtin_table::type_error;
use std::alloc::Global;
use term_core::{List, Memory, Node, Term};
use tree_results::{Outcome, ball, list_of, needed_list, needed_values, unifies};

fn sorted_terms(terms: List<Term>) -> Result<Vec<Term>, Memory>
    ensures { IfOk result (λ v. v.items ≡ sorted_terms_of terms) }
{
    let mut terms = terms.into_vec();
    terms.sort()?;
    Ok(terms)
}

fn sorted_set(terms: List<Term>) -> Result<Vec<Term>, Memory>
    ensures { IfOk result (λ v. v.items ≡ sorted_set_of terms) }
{
    let mut terms = sorted_terms(terms)?;
    terms.dedup();
    Ok(terms)
}

/// What msort(L, S) gives, whatever S is.
pub fn msort(alloc: Global, list: &Term) -> Result<Outcome, Memory>
    ensures { IfOk result (λ o. (s : Tree) → outcome_of (list.now ∷ s ∷ []) o ≡ msort_of list.now s) }
{
    match needed_list(alloc, list)? {
        Ok(terms) => {
            let found = list_of(alloc, &sorted_terms(terms)?)?;
            let outcome = unifies(alloc, 1, found)?;
            Ok(outcome)
        }
        Err(formal) => {
            let outcome = ball(alloc, "msort", 2, formal)?;
            Ok(outcome)
        }
    }
}

/// What sort(L, S) gives, whatever S is.
pub fn sort(alloc: Global, list: &Term) -> Result<Outcome, Memory>
    ensures { IfOk result (λ o. (s : Tree) → outcome_of (list.now ∷ s ∷ []) o ≡ sort_of list.now s) }
{
    match needed_list(alloc, list)? {
        Ok(terms) => {
            let found = list_of(alloc, &sorted_set(terms)?)?;
            let outcome = unifies(alloc, 1, found)?;
            Ok(outcome)
        }
        Err(formal) => {
            let outcome = ball(alloc, "sort", 2, formal)?;
            Ok(outcome)
        }
    }
}

// Whether a term is Key-Value.
fn is_pair(term: &Term) -> bool
    ensures { result ≡ is_pair_of term.now }
{
    match term.symbol() {
        Node::Comp(name, count) => *count == 2 && name.as_str() == "-",
        Node::Var(_) | Node::Int(_) | Node::Atom(_) => false,
    }
}

// The first term that is no pair.
fn first_other(terms: &[Term]) -> Option<&Term>
    ensures { MatchOption result (find (λ t. not (is_pair_of t)) terms.now ≡ None)
        (λ found. find (λ t. not (is_pair_of t)) terms.now ≡ Some found.now) }
{
    for term in terms {
        if !is_pair(term) {
            return Some(term);
        }
    }
    None
}

// The elements of a list of pairs, or what is wrong.
fn needed_pairs(alloc: Global, list: &Term) -> Result<Result<List<Term>, Term>, Memory>
    ensures { IfOk result (λ r. r ≡ pairs_among_of (needed_values_of list.now)) }
{
    match needed_values(alloc, list)? {
        Ok(terms) => match first_other(terms.as_slice()) {
            Some(term) => Ok(Err(type_error(alloc, "pair", term.copied(alloc)?)?)),
            None => Ok(Ok(terms)),
        },
        Err(formal) => Ok(Err(formal)),
    }
}

// The terms with their keys.
fn with_keys(alloc: Global, terms: &[Term]) -> Result<Vec<Keyed>, Memory>
    ensures { IfOk result (λ v. v.items ≡ map keyed terms.now) }
{
    let mut items = Vec::new(alloc);
    for term in terms {
        items.push(Keyed::of(alloc, term)?)?;
    }
    Ok(items)
}

// The terms without their keys.
fn without_keys(alloc: Global, items: &[Keyed]) -> Result<Vec<Term>, Memory>
    ensures { IfOk result (λ v. v.items ≡ map (λ k. k.term) items.now) }
{
    let mut terms = Vec::new(alloc);
    for item in items {
        terms.push(item.term.copied(alloc)?)?;
    }
    Ok(terms)
}

fn sorted_pairs(alloc: Global, terms: &[Term]) -> Result<Vec<Term>, Memory>
    ensures { IfOk result (λ v. v.items ≡ sorted key_cmp terms.now) }
{
    let mut items = with_keys(alloc, terms)?;
    items.sort()?;
    let terms = without_keys(alloc, &items)?;
    Ok(terms)
}

/// What keysort(L, S) gives, whatever S is.
pub fn keysort(alloc: Global, list: &Term) -> Result<Outcome, Memory>
    ensures { IfOk result (λ o. (s : Tree) → outcome_of (list.now ∷ s ∷ []) o ≡ keysort_of list.now s) }
{
    match needed_pairs(alloc, list)? {
        Ok(terms) => {
            let found = list_of(alloc, &sorted_pairs(alloc, terms.as_slice())?)?;
            let outcome = unifies(alloc, 1, found)?;
            Ok(outcome)
        }
        Err(formal) => {
            let outcome = ball(alloc, "keysort", 2, formal)?;
            Ok(outcome)
        }
    }
}
