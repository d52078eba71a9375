// Comparison of terms and of the values of expressions (ISO/IEC 13211-1, 8.4, 8.6 and 8.7).
ghost use Rattle.std.specs.Prelude.{◌≡◌, ◌∷◌, [], IfOk};
ghost use Rattle.term_core.specs.Order.{tree_cmp};
ghost use Rattle.builtin_table.specs.Arithmetic.{value_of};
ghost use Rattle.builtin_table.specs.Primitives.{compares, compared as compared_of, assigned, order_name as order_name_of, is_order_name as is_order_name_of};
ghost use Rattle.store.specs.Cells.{IsCell, tree_of};
ghost use Rattle.arith.specs.Machine.{value_result};
ghost use Rattle.prims_term.specs.Plans.{plan_outcome, IsPlan, compared_plan};

use crate::plan::{Plan, What};
use crate::results::{ball, tested, whole};
use arith::{Value, eval};
use builtin_table::{Relation, domain_error, type_error};
use std::alloc::Global;
use std::cmp::Ordering;
use store::{Cell, Seen, Store};
use term_core::{Memory, Name, Term};

// How two terms compare.
pub(crate) fn order_of(store: &Store, first: Cell, second: Cell) -> Result<Ordering, Memory>
    requires first { IsCell store.now first }
    requires second { IsCell store.now second }
    ensures { IfOk result (λ o. o ≡ tree_cmp (tree_of store.now first) (tree_of store.now second)) }
{
    let first = whole(store, first)?;
    let second = whole(store, second)?;
    Ok(Term::cmp(&first, &second))
}

// compare(O, T, U).
pub(crate) fn compare(
    alloc: Global,
    store: &Store,
    order: Cell,
    first: Cell,
    second: Cell,
) -> Result<Plan, Memory>
    requires order { IsCell store.now order }
    requires first { IsCell store.now first }
    requires second { IsCell store.now second }
    ensures outcome { IfOk result (λ p. plan_outcome store.now (order ∷ first ∷ second ∷ []) p
        ≡ compares (tree_of store.now order) (tree_cmp (tree_of store.now first) (tree_of store.now second))) }
    ensures plan { IfOk result (IsPlan store.now (order ∷ first ∷ second ∷ [])) }
{
    match store.look(order) {
        Seen::Var(_) => {
            let found = order_name(order_of(store, first, second)?);
            Ok(Plan::Equal(0, What::Atom(Name::new(alloc, found)?)))
        }
        Seen::Atom(name) => {
            if !is_order_name(name.as_str()) {
                let formal = domain_error(alloc, "order", whole(store, order)?)?;
                let plan = ball(alloc, "compare", 3, formal)?;
                return Ok(plan);
            }
            let found = order_name(order_of(store, first, second)?);
            Ok(Plan::Equal(0, What::Atom(Name::new(alloc, found)?)))
        }
        Seen::Int(_) | Seen::Comp(_, _) => {
            let formal = type_error(alloc, "atom", whole(store, order)?)?;
            let plan = ball(alloc, "compare", 3, formal)?;
            Ok(plan)
        }
    }
}

fn order_name(found: Ordering) -> &'static str
    ensures { result.now ≡ order_name_of found }
{
    match found {
        Ordering::Less => "<",
        Ordering::Equal => "=",
        Ordering::Greater => ">",
    }
}

fn is_order_name(name: &str) -> bool
    ensures { result ≡ is_order_name_of name.now }
{
    name == "<" || name == "=" || name == ">"
}

// A comparison of this name of the values of two expressions.
pub(crate) fn compare_values(
    alloc: Global,
    store: &Store,
    name: &str,
    relation: Relation,
    first: Cell,
    second: Cell,
) -> Result<Plan, Memory>
    requires first { IsCell store.now first }
    requires second { IsCell store.now second }
    ensures outcome { IfOk result (λ p. plan_outcome store.now (first ∷ second ∷ []) p
        ≡ compared_of name.now relation (value_of (tree_of store.now first)) (value_of (tree_of store.now second))) }
    ensures plan { IfOk result (IsPlan store.now (first ∷ second ∷ [])) }
{
    let left = eval(alloc, store, first)?;
    let right = eval(alloc, store, second)?;
    let plan = compared(alloc, name, relation, left, right)?;
    Ok(plan)
}

// Of two faults the first expression's goes first.
fn compared(
    alloc: Global,
    name: &str,
    relation: Relation,
    first: Value,
    second: Value,
) -> Result<Plan, Memory>
    ensures { IfOk result (λ p. p ≡ compared_plan name.now relation (value_result first) (value_result second)) }
{
    match (first, second) {
        (Value::Int(first), Value::Int(second)) => {
            Ok(tested(relation.holds(first.cmp(&second))))
        }
        (Value::Int(_), Value::Ball(fault)) => {
            let plan = ball(alloc, name, 2, fault)?;
            Ok(plan)
        }
        (Value::Ball(fault), _) => {
            let plan = ball(alloc, name, 2, fault)?;
            Ok(plan)
        }
    }
}

// T is E.
pub(crate) fn assign(
    alloc: Global,
    store: &Store,
    term: Cell,
    expression: Cell,
) -> Result<Plan, Memory>
    requires term { IsCell store.now term }
    requires expression { IsCell store.now expression }
    ensures outcome { IfOk result (λ p. plan_outcome store.now (term ∷ expression ∷ []) p
        ≡ assigned (tree_of store.now term) (value_of (tree_of store.now expression))) }
    ensures plan { IfOk result (IsPlan store.now (term ∷ expression ∷ [])) }
{
    match eval(alloc, store, expression)? {
        Value::Int(value) => Ok(Plan::Equal(0, What::Int(value))),
        Value::Ball(fault) => {
            let plan = ball(alloc, "is", 2, fault)?;
            Ok(plan)
        }
    }
}
