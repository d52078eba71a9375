// A primitive by its name and arguments.
ghost use Rattle.std.specs.Prelude.{◌≡◌, ◌∷◌, [], true, map, length, IfOk};
ghost use Rattle.std.specs.List.{All};
ghost use Rattle.builtin_table.specs.Primitives.{primitive, of_two as of_two_tree, of_two_terms as of_two_terms_tree, of_three as of_three_tree, of_four as of_four_tree};
ghost use Rattle.store.specs.Cells.{IsCell, tree_of};
ghost use Rattle.prims_term.specs.Plans.{plan_outcome, IsPlan};
ghost use Rattle.prims_term.specs.Rows.{is_row, is_two_name, is_pair_name, is_triple_name, is_quadruple_name};

use crate::arg::arg;
use crate::compare::{assign, compare, compare_values, order_of};
use crate::functor::functor;
use crate::integers::{divmod, plus};
use crate::kinds::of_one;
use crate::plan::{Plan, What};
use crate::results::tested;
use crate::univ::univ;
use builtin_table::Relation;
use std::alloc::Global;
use store::{Cell, Store};
use term_core::Memory;

// What the primitive of this name gives for these arguments.
#[tactic(auto, unfolding(builtin_table::specs::Primitives::primitive))]
pub(crate) fn planned(
    alloc: Global,
    store: &Store,
    name: &str,
    args: &[Cell],
) -> Result<Plan, Memory>
    requires cells { All (IsCell store.now) args.now }
    requires row { is_row name.now (length args.now) ≡ true }
    ensures outcome { IfOk result (λ p. plan_outcome store.now args.now p
        ≡ primitive name.now (map (tree_of store.now) args.now) store.now.next) }
    ensures plan { IfOk result (IsPlan store.now args.now) }
{
    match args {
        [term] => of_one(alloc, store, name, *term),
        [first, second] => of_two(alloc, store, name, *first, *second),
        [first, second, third] => of_three(alloc, store, name, *first, *second, *third),
        [first, second, third, fourth] => {
            of_four(alloc, store, name, *first, *second, *third, *fourth)
        }
        _ => unreachable!(),
    }
}

#[tactic(auto, unfolding(builtin_table::specs::Primitives::of_two))]
fn of_two(
    alloc: Global,
    store: &Store,
    name: &str,
    first: Cell,
    second: Cell,
) -> Result<Plan, Memory>
    requires first { IsCell store.now first }
    requires second { IsCell store.now second }
    requires row { is_two_name name.now ≡ true }
    ensures outcome { IfOk result (λ p. plan_outcome store.now (first ∷ second ∷ []) p
        ≡ of_two_tree name.now (tree_of store.now first) (tree_of store.now second) store.now.next) }
    ensures plan { IfOk result (IsPlan store.now (first ∷ second ∷ [])) }
{
    if let Some(relation) = Relation::of_order(name) {
        let found = order_of(store, first, second)?;
        return Ok(tested(relation.holds(found)));
    }
    if let Some(relation) = Relation::of_values(name) {
        let plan = compare_values(alloc, store, name, relation, first, second)?;
        return Ok(plan);
    }
    let plan = of_two_terms(alloc, store, name, first, second)?;
    Ok(plan)
}

#[tactic(auto, unfolding(builtin_table::specs::Primitives::of_two_terms))]
fn of_two_terms(
    alloc: Global,
    store: &Store,
    name: &str,
    first: Cell,
    second: Cell,
) -> Result<Plan, Memory>
    requires first { IsCell store.now first }
    requires second { IsCell store.now second }
    requires row { is_pair_name name.now ≡ true }
    ensures outcome { IfOk result (λ p. plan_outcome store.now (first ∷ second ∷ []) p
        ≡ of_two_terms_tree name.now (tree_of store.now first) (tree_of store.now second) store.now.next) }
    ensures plan { IfOk result (IsPlan store.now (first ∷ second ∷ [])) }
{
    match name {
        "=" | "unify_with_occurs_check" => Ok(Plan::Equal(0, What::Cell(second))),
        "is" => assign(alloc, store, first, second),
        "=.." => univ(alloc, store, first, second),
        "copy_term" => Ok(Plan::Equal(1, What::Copy(first))),
        "term_variables" => Ok(Plan::Equal(1, What::Variables(first))),
        _ => unreachable!(),
    }
}

#[tactic(auto, unfolding(builtin_table::specs::Primitives::of_three))]
fn of_three(
    alloc: Global,
    store: &Store,
    name: &str,
    first: Cell,
    second: Cell,
    third: Cell,
) -> Result<Plan, Memory>
    requires first { IsCell store.now first }
    requires second { IsCell store.now second }
    requires third { IsCell store.now third }
    requires row { is_triple_name name.now ≡ true }
    ensures outcome { IfOk result (λ p. plan_outcome store.now (first ∷ second ∷ third ∷ []) p
        ≡ of_three_tree name.now (tree_of store.now first) (tree_of store.now second) (tree_of store.now third) store.now.next) }
    ensures plan { IfOk result (IsPlan store.now (first ∷ second ∷ third ∷ [])) }
{
    match name {
        "functor" => functor(alloc, store, first, second, third),
        "arg" => arg(alloc, store, first, second, third),
        "compare" => compare(alloc, store, first, second, third),
        "plus" => plus(alloc, store, first, second, third),
        _ => unreachable!(),
    }
}

#[tactic(auto, unfolding(builtin_table::specs::Primitives::of_four))]
fn of_four(
    alloc: Global,
    store: &Store,
    name: &str,
    first: Cell,
    second: Cell,
    third: Cell,
    fourth: Cell,
) -> Result<Plan, Memory>
    requires first { IsCell store.now first }
    requires second { IsCell store.now second }
    requires third { IsCell store.now third }
    requires fourth { IsCell store.now fourth }
    requires row { is_quadruple_name name.now ≡ true }
    ensures outcome { IfOk result (λ p. plan_outcome store.now (first ∷ second ∷ third ∷ fourth ∷ []) p
        ≡ of_four_tree name.now (tree_of store.now first) (tree_of store.now second) (tree_of store.now third) (tree_of store.now fourth)) }
    ensures plan { IfOk result (IsPlan store.now (first ∷ second ∷ third ∷ fourth ∷ [])) }
{
    match name {
        "divmod" => divmod(alloc, store, first, second, third, fourth),
        _ => unreachable!(),
    }
}
