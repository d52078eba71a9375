// The results of a primitive, by its name and the cells of its arguments.
ghost use Rattle.std.specs.Prelude.{◌≡◌, ℕ, ◌<◌, ◌^◌, map, length, IfOk};
ghost use Rattle.std.specs.List.{All};
ghost use Rattle.builtin_table.specs.Primitives.{primitive};
ghost use Rattle.store.specs.Cells.{IsCell, tree_of};
ghost use Rattle.tree_offers.specs.Outcomes.{outcome_of, IsPlain, OutcomeHasPlaces};

use crate::offers::Offers;
use prims_tree::{PlacedOutcome, placed_call};
use std::alloc::Global;
use store::{Cell, Store, Taken};
use term_core::{MAX_NODES, Memory, Term};

/// What a primitive gives.
#[derive(Debug, Drop)]
pub enum Outcome {
    /// Its results.
    Offers(Offers),
    /// An error term.
    Ball(Term),
}

/// What the primitive of this name gives for these cells' terms, where it has no new variables.
///
/// The results are those of the definition, in order, whatever the number of the next variable. `Memory`
/// also comes where a term would have more than `term_core::MAX_NODES` nodes.
pub fn call(alloc: Global, store: &Store, name: &str, args: &[Cell]) -> Result<Outcome, Memory>
    requires cells { All (IsCell store.now) args.now }
    requires few { length args.now < 2 ^ 32 }
    requires plain { IsPlain name.now (map (tree_of store.now) args.now) }
    ensures outcome { IfOk result (λ o. (next : ℕ) → outcome_of (map (tree_of store.now) args.now) o
        ≡ primitive name.now (map (tree_of store.now) args.now) next) }
    ensures places { IfOk result (OutcomeHasPlaces (length args.now)) }
{
    let terms = taken(alloc, store, args)?;
    match placed_call(alloc, name, &terms, 0)? {
        PlacedOutcome::Offers(results) => Ok(Outcome::Offers(Offers::new(alloc, results))),
        PlacedOutcome::Ball(ball) => Ok(Outcome::Ball(ball)),
        PlacedOutcome::Unknown => unreachable!(),
    }
}

// The terms of these cells.
fn taken(alloc: Global, store: &Store, cells: &[Cell]) -> Result<Vec<Term>, Memory>
    requires { All (IsCell store.now) cells.now }
    ensures { IfOk result (λ v. v.items ≡ map (tree_of store.now) cells.now) }
{
    let mut terms = Vec::new(alloc);
    for cell in cells {
        terms.push(whole(store, *cell)?)?;
    }
    Ok(terms)
}

// A cell's term; `Memory` where it has more than `MAX_NODES` nodes.
fn whole(store: &Store, c: Cell) -> Result<Term, Memory>
    requires { IsCell store.now c }
    ensures { IfOk result (λ t. t ≡ tree_of store.now c) }
{
    match store.take(c, MAX_NODES as u64)? {
        Taken::Term(term) => Ok(term),
        Taken::TooLong => Err(Memory),
    }
}
