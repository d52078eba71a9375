// arg/3 (ISO/IEC 13211-1, 8.5.2).
ghost use Rattle.std.specs.Prelude.{◌≡◌, codes, ◌∷◌, [], false, true, IfOk};
ghost use Rattle.term_core.specs.Tree.{integer};
ghost use Rattle.term_core.specs.Parts.{arguments_of};
ghost use Rattle.builtin_table.specs.Primitives.{is_variable as is_variable_tree, arg as arg_of, argument as argument_of_place};
ghost use Rattle.builtin_table.specs.Errors.{error_term, indicator_term};
ghost use Rattle.store.specs.Cells.{IsCell, tree_of};
ghost use Rattle.prims_term.specs.Plans.{plan_outcome, IsPlan};

use crate::kinds::{is_compound, is_variable};
use crate::make::argument_count;
use crate::plan::{Plan, What};
use crate::results::{ball, whole};
use builtin_table::{domain_error, instantiation_error, type_error};
use std::alloc::Global;
use store::{Cell, Seen, Store};
use term_core::{Memory, Term};

// arg(N, T, A).
pub(crate) fn arg(
    alloc: Global,
    store: &Store,
    place: Cell,
    term: Cell,
    argument: Cell,
) -> Result<Plan, Memory>
    requires place { IsCell store.now place }
    requires term { IsCell store.now term }
    requires argument { IsCell store.now argument }
    ensures outcome { IfOk result (λ p. plan_outcome store.now (place ∷ term ∷ argument ∷ []) p
        ≡ arg_of (tree_of store.now place) (tree_of store.now term) (tree_of store.now argument)) }
    ensures plan { IfOk result (IsPlan store.now (place ∷ term ∷ argument ∷ [])) }
{
    if is_variable(store, place) || is_variable(store, term) {
        let plan = arg_ball(alloc, instantiation_error(alloc)?)?;
        return Ok(plan);
    }
    match store.look(place) {
        Seen::Int(at) => {
            let plan = argument_at(alloc, store, at, place, term, argument)?;
            Ok(plan)
        }
        Seen::Var(_) | Seen::Atom(_) | Seen::Comp(_, _) => {
            let formal = type_error(alloc, "integer", whole(store, place)?)?;
            let plan = arg_ball(alloc, formal)?;
            Ok(plan)
        }
    }
}

fn arg_ball(alloc: Global, formal: Term) -> Result<Plan, Memory>
    ensures { IfOk result (λ p. p ≡ Plan.Ball (error_term formal
        (indicator_term (record { name = codes "arg"; arity = 3 })))) }
{
    ball(alloc, "arg", 3, formal)
}

// The argument of this place of a term that is no variable.
fn argument_at(
    alloc: Global,
    store: &Store,
    at: i128,
    place: Cell,
    term: Cell,
    argument: Cell,
) -> Result<Plan, Memory>
    requires term { IsCell store.now term }
    requires argument { IsCell store.now argument }
    requires bound { is_variable_tree (tree_of store.now term) ≡ false }
    ensures outcome { IfOk result (λ p. plan_outcome store.now (place ∷ term ∷ argument ∷ []) p
        ≡ arg_of (integer at) (tree_of store.now term) (tree_of store.now argument)) }
    ensures plan { IfOk result (IsPlan store.now (place ∷ term ∷ argument ∷ [])) }
{
    if !is_compound(store, term) {
        let formal = type_error(alloc, "compound", whole(store, term)?)?;
        let plan = arg_ball(alloc, formal)?;
        return Ok(plan);
    }
    let plan = argument_among(alloc, store, at, place, term, argument)?;
    Ok(plan)
}

// The argument of this place, counted from 1.
fn argument_among(
    alloc: Global,
    store: &Store,
    at: i128,
    place: Cell,
    term: Cell,
    argument: Cell,
) -> Result<Plan, Memory>
    requires term { IsCell store.now term }
    requires argument { IsCell store.now argument }
    ensures outcome { IfOk result (λ p. plan_outcome store.now (place ∷ term ∷ argument ∷ []) p
        ≡ argument_of_place at (arguments_of (tree_of store.now term)) (tree_of store.now argument)) }
    ensures plan { IfOk result (IsPlan store.now (place ∷ term ∷ argument ∷ [])) }
{
    if at < 0 {
        let formal = domain_error(alloc, "not_less_than_zero", Term::int(alloc, at)?)?;
        let plan = arg_ball(alloc, formal)?;
        return Ok(plan);
    }
    if at == 0 || at > i128::from(argument_count(store, term)) {
        return Ok(Plan::Fails);
    }
    Ok(Plan::Equal(2, What::Cell(store.arg(term, at as u32 - 1))))
}
