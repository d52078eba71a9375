// functor/3 (ISO/IEC 13211-1, 8.5.1).
ghost use Rattle.std.specs.Prelude.{◌≡◌, codes, ◌∷◌, ◌≤◌, ◌||◌, [], false, pos, IfOk};
ghost use Rattle.term_core.specs.Tree.{integer};
ghost use Rattle.builtin_table.specs.Primitives.{is_variable as is_variable_tree, functor as functor_of, functor_made, made, made_within};
ghost use Rattle.builtin_table.specs.Errors.{error_term, indicator_term};
ghost use Rattle.store.specs.Cells.{IsCell, tree_of};
ghost use Rattle.prims_term.specs.Plans.{plan_outcome, IsPlan};

use crate::kinds::{is_compound, is_variable};
use crate::plan::{Plan, What};
use crate::results::{ball, whole};
use builtin_table::{domain_error, instantiation_error, representation_error, type_error};
use std::alloc::Global;
use store::{Cell, Seen, Store};
use term_core::{Memory, Term};

// functor(T, N, A).
pub(crate) fn functor(
    alloc: Global,
    store: &Store,
    term: Cell,
    name: Cell,
    arity: Cell,
) -> Result<Plan, Memory>
    requires term { IsCell store.now term }
    requires name { IsCell store.now name }
    requires arity { IsCell store.now arity }
    ensures outcome { IfOk result (λ p. plan_outcome store.now (term ∷ name ∷ arity ∷ []) p
        ≡ functor_of (tree_of store.now term) (tree_of store.now name) (tree_of store.now arity) store.now.next) }
    ensures plan { IfOk result (IsPlan store.now (term ∷ name ∷ arity ∷ [])) }
{
    match store.look(term) {
        Seen::Var(_) => {
            let plan = functor_of_variable(alloc, store, term, name, arity)?;
            Ok(plan)
        }
        Seen::Int(_) | Seen::Atom(_) | Seen::Comp(_, _) => Ok(Plan::Symbol(term)),
    }
}

fn functor_ball(alloc: Global, formal: Term) -> Result<Plan, Memory>
    ensures { IfOk result (λ p. p ≡ Plan.Ball (error_term formal
        (indicator_term (record { name = codes "functor"; arity = 3 })))) }
{
    ball(alloc, "functor", 3, formal)
}

// functor(T, N, A) of a variable T.
fn functor_of_variable(
    alloc: Global,
    store: &Store,
    term: Cell,
    name: Cell,
    arity: Cell,
) -> Result<Plan, Memory>
    requires term { IsCell store.now term }
    requires name { IsCell store.now name }
    requires arity { IsCell store.now arity }
    ensures outcome { IfOk result (λ p. plan_outcome store.now (term ∷ name ∷ arity ∷ []) p
        ≡ functor_made (tree_of store.now term) (tree_of store.now name) (tree_of store.now arity) store.now.next) }
    ensures plan { IfOk result (IsPlan store.now (term ∷ name ∷ arity ∷ [])) }
{
    if is_variable(store, name) || is_variable(store, arity) {
        let plan = functor_ball(alloc, instantiation_error(alloc)?)?;
        return Ok(plan);
    }
    if is_compound(store, name) {
        let formal = type_error(alloc, "atomic", whole(store, name)?)?;
        let plan = functor_ball(alloc, formal)?;
        return Ok(plan);
    }
    match store.look(arity) {
        Seen::Int(count) => {
            let plan = functor_of_count(alloc, store, term, name, arity, count)?;
            Ok(plan)
        }
        Seen::Var(_) | Seen::Atom(_) | Seen::Comp(_, _) => {
            let formal = type_error(alloc, "integer", whole(store, arity)?)?;
            let plan = functor_ball(alloc, formal)?;
            Ok(plan)
        }
    }
}

// With so many arguments, where a term can have them.
fn functor_of_count(
    alloc: Global,
    store: &Store,
    term: Cell,
    name: Cell,
    arity: Cell,
    count: i128,
) -> Result<Plan, Memory>
    requires term { IsCell store.now term }
    requires name { IsCell store.now name }
    requires arity { IsCell store.now arity }
    ensures outcome { IfOk result (λ p. plan_outcome store.now (term ∷ name ∷ arity ∷ []) p
        ≡ made_within (tree_of store.now term) (tree_of store.now name) count store.now.next) }
    ensures plan { IfOk result (IsPlan store.now (term ∷ name ∷ arity ∷ [])) }
{
    if count < 0 {
        let formal = domain_error(alloc, "not_less_than_zero", Term::int(alloc, count)?)?;
        let plan = functor_ball(alloc, formal)?;
        return Ok(plan);
    }
    if count > 1024 {
        let formal = representation_error(alloc, "max_arity")?;
        let plan = functor_ball(alloc, formal)?;
        return Ok(plan);
    }
    let plan = functor_of_arity(alloc, store, term, name, arity, count as u32)?;
    Ok(plan)
}

fn functor_of_arity(
    alloc: Global,
    store: &Store,
    term: Cell,
    name: Cell,
    arity: Cell,
    count: u32,
) -> Result<Plan, Memory>
    requires term { IsCell store.now term }
    requires name { IsCell store.now name }
    requires arity { IsCell store.now arity }
    requires few { count ≤ 1024 }
    ensures outcome { IfOk result (λ p. plan_outcome store.now (term ∷ name ∷ arity ∷ []) p
        ≡ made (tree_of store.now term) (tree_of store.now name) count store.now.next) }
    ensures plan { IfOk result (IsPlan store.now (term ∷ name ∷ arity ∷ [])) }
{
    if count == 0 {
        return Ok(Plan::Equal(0, What::Cell(name)));
    }
    match store.look(name) {
        Seen::Atom(symbol) => Ok(Plan::Equal(0, What::New(symbol.copied(alloc)?, count))),
        Seen::Var(_) | Seen::Int(_) | Seen::Comp(_, _) => {
            let formal = type_error(alloc, "atom", whole(store, name)?)?;
            let plan = functor_ball(alloc, formal)?;
            Ok(plan)
        }
    }
}
