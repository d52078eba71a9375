// (=..)/2 (ISO/IEC 13211-1, 8.5.3).
ghost use Rattle.std.specs.Prelude.{◌≡◌, codes, ◌≤◌, ◌∷◌, [], length, map, drop, IfOk};
ghost use Rattle.std.specs.List.{All};
ghost use Rattle.builtin_table.specs.Primitives.{univ as univ_of, univ_made, univ_elements, univ_alone as univ_alone_of, univ_compound as univ_compound_of};
ghost use Rattle.builtin_table.specs.Lists.{elements, rest as rest_of};
ghost use Rattle.builtin_table.specs.Errors.{error_term, indicator_term};
ghost use Rattle.store.specs.Cells.{IsCell, tree_of};
ghost use Rattle.prims_term.specs.Plans.{plan_outcome, IsPlan};

use crate::kinds::{is_compound, is_variable};
use crate::lists::{is_empty, list_parts};
use crate::plan::{Plan, What};
use crate::results::{ball, whole};
use builtin_table::{domain_error, instantiation_error, representation_error, type_error};
use std::alloc::Global;
use store::{Cell, Seen, Store};
use term_core::{Memory, Term};

// T =.. L.
pub(crate) fn univ(alloc: Global, store: &Store, term: Cell, list: Cell) -> Result<Plan, Memory>
    requires term { IsCell store.now term }
    requires list { IsCell store.now list }
    ensures outcome { IfOk result (λ p. plan_outcome store.now (term ∷ list ∷ []) p
        ≡ univ_of (tree_of store.now term) (tree_of store.now list)) }
    ensures plan { IfOk result (IsPlan store.now (term ∷ list ∷ [])) }
{
    match store.look(term) {
        Seen::Var(_) => {
            let plan = univ_of_variable(alloc, store, term, list)?;
            Ok(plan)
        }
        Seen::Int(_) | Seen::Atom(_) | Seen::Comp(_, _) => Ok(Plan::Equal(1, What::Parts(term))),
    }
}

fn univ_ball(alloc: Global, formal: Term) -> Result<Plan, Memory>
    ensures { IfOk result (λ p. p ≡ Plan.Ball (error_term formal
        (indicator_term (record { name = codes "=.."; arity = 2 })))) }
{
    ball(alloc, "=..", 2, formal)
}

// T =.. L of a variable T.
fn univ_of_variable(alloc: Global, store: &Store, term: Cell, list: Cell) -> Result<Plan, Memory>
    requires term { IsCell store.now term }
    requires list { IsCell store.now list }
    ensures outcome { IfOk result (λ p. plan_outcome store.now (term ∷ list ∷ []) p
        ≡ univ_made (tree_of store.now term) (tree_of store.now list) (elements (tree_of store.now list)) (rest_of (tree_of store.now list))) }
    ensures plan { IfOk result (IsPlan store.now (term ∷ list ∷ [])) }
{
    let parts = list_parts(alloc, store, list)?;
    if is_variable(store, parts.rest) {
        let plan = univ_ball(alloc, instantiation_error(alloc)?)?;
        return Ok(plan);
    }
    if !is_empty(store, parts.rest) {
        let formal = type_error(alloc, "list", whole(store, list)?)?;
        let plan = univ_ball(alloc, formal)?;
        return Ok(plan);
    }
    let plan = univ_of_elements(alloc, store, term, list, &parts.elements)?;
    Ok(plan)
}

fn univ_of_elements(
    alloc: Global,
    store: &Store,
    term: Cell,
    list: Cell,
    parts: &[Cell],
) -> Result<Plan, Memory>
    requires term { IsCell store.now term }
    requires parts { All (IsCell store.now) parts.now }
    ensures outcome { IfOk result (λ p. plan_outcome store.now (term ∷ list ∷ []) p
        ≡ univ_elements (tree_of store.now term) (map (tree_of store.now) parts.now)) }
    ensures plan { IfOk result (IsPlan store.now (term ∷ list ∷ [])) }
{
    match parts {
        [] => {
            let formal = domain_error(alloc, "non_empty_list", Term::atom(alloc, "[]")?)?;
            let plan = univ_ball(alloc, formal)?;
            Ok(plan)
        }
        [alone] => {
            let plan = univ_alone(alloc, store, term, list, *alone)?;
            Ok(plan)
        }
        [name, ..] => {
            let plan = univ_compound(alloc, store, term, list, *name, &parts[1..])?;
            Ok(plan)
        }
    }
}

// T is this term alone.
fn univ_alone(
    alloc: Global,
    store: &Store,
    term: Cell,
    list: Cell,
    alone: Cell,
) -> Result<Plan, Memory>
    requires term { IsCell store.now term }
    requires alone { IsCell store.now alone }
    ensures outcome { IfOk result (λ p. plan_outcome store.now (term ∷ list ∷ []) p
        ≡ univ_alone_of (tree_of store.now term) (tree_of store.now alone)) }
    ensures plan { IfOk result (IsPlan store.now (term ∷ list ∷ [])) }
{
    if is_variable(store, alone) {
        let plan = univ_ball(alloc, instantiation_error(alloc)?)?;
        return Ok(plan);
    }
    if is_compound(store, alone) {
        let formal = type_error(alloc, "atomic", whole(store, alone)?)?;
        let plan = univ_ball(alloc, formal)?;
        return Ok(plan);
    }
    Ok(Plan::Equal(0, What::Cell(alone)))
}

// T has this name and these arguments, one or more.
fn univ_compound(
    alloc: Global,
    store: &Store,
    term: Cell,
    list: Cell,
    name: Cell,
    arguments: &[Cell],
) -> Result<Plan, Memory>
    requires term { IsCell store.now term }
    requires name { IsCell store.now name }
    requires some { 1 ≤ length arguments.now }
    requires arguments { All (IsCell store.now) arguments.now }
    ensures outcome { IfOk result (λ p. plan_outcome store.now (term ∷ list ∷ []) p
        ≡ univ_compound_of (tree_of store.now term) (tree_of store.now name) (map (tree_of store.now) arguments.now)) }
    ensures plan { IfOk result (IsPlan store.now (term ∷ list ∷ [])) }
{
    match store.look(name) {
        Seen::Var(_) => {
            let plan = univ_ball(alloc, instantiation_error(alloc)?)?;
            Ok(plan)
        }
        Seen::Atom(symbol) => {
            if arguments.len() > 1024 {
                let formal = representation_error(alloc, "max_arity")?;
                let plan = univ_ball(alloc, formal)?;
                return Ok(plan);
            }
            let arguments = Vec::from_slice(alloc, arguments)?;
            Ok(Plan::Equal(0, What::Compound(symbol.copied(alloc)?, arguments)))
        }
        Seen::Int(_) | Seen::Comp(_, _) => {
            let formal = type_error(alloc, "atom", whole(store, name)?)?;
            let plan = univ_ball(alloc, formal)?;
            Ok(plan)
        }
    }
}
