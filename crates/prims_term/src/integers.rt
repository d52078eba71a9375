// plus/3 and divmod/4.
ghost use Rattle.std.specs.Prelude.{◌≡◌, ◌∷◌, [], codes, Some, None, IfOk, MatchOption, ⊤};
ghost use Rattle.std.specs.List.{find};
ghost use Rattle.builtin_table.specs.Arithmetic.{evaluated as evaluated_of, binary_value, binary_applied};
ghost use Rattle.builtin_table.specs.Errors.{error_term, indicator_term};
ghost use Rattle.builtin_table.specs.Integers.{plus as plus_of, plus_given as plus_given_of, too_few_given as too_few_given_of, is_no_integer as is_no_integer_of, divmod as divmod_of, needed_integer as needed_integer_of};
ghost use Rattle.arith.specs.Machine.{value_result};
ghost use Rattle.store.specs.Cells.{IsCell, tree_of};
ghost use Rattle.prims_term.specs.Plans.{plan_outcome, IsPlan, plus_plan, divmod_plan};

use crate::kinds::{is_integer, is_variable};
use crate::plan::{Plan, What};
use crate::results::{ball, whole};
use arith::Value;
use builtin_table::{Binary, evaluation_error, instantiation_error, type_error};
use std::alloc::Global;
use store::{Cell, Seen, Store};
use term_core::{Memory, Term};

// plus(X, Y, Z).
pub(crate) fn plus(
    alloc: Global,
    store: &Store,
    first: Cell,
    second: Cell,
    sum: Cell,
) -> Result<Plan, Memory>
    requires first { IsCell store.now first }
    requires second { IsCell store.now second }
    requires sum { IsCell store.now sum }
    ensures outcome { IfOk result (λ p. plan_outcome store.now (first ∷ second ∷ sum ∷ []) p
        ≡ plus_of (tree_of store.now first) (tree_of store.now second) (tree_of store.now sum)) }
    ensures plan { IfOk result (IsPlan store.now (first ∷ second ∷ sum ∷ [])) }
{
    if too_few_given(store, first, second, sum) {
        let plan = plus_ball(alloc, instantiation_error(alloc)?)?;
        return Ok(plan);
    }
    if let Some(other) = first_other(store, first, second, sum) {
        let formal = type_error(alloc, "integer", whole(store, other)?)?;
        let plan = plus_ball(alloc, formal)?;
        return Ok(plan);
    }
    let plan = plus_given(alloc, store, first, second, sum)?;
    Ok(plan)
}

fn plus_ball(alloc: Global, formal: Term) -> Result<Plan, Memory>
    ensures { IfOk result (λ p. p ≡ Plan.Ball (error_term formal
        (indicator_term (record { name = codes "plus"; arity = 3 })))) }
{
    ball(alloc, "plus", 3, formal)
}

// Whether two of the three are variables.
fn too_few_given(store: &Store, first: Cell, second: Cell, sum: Cell) -> bool
    requires first { IsCell store.now first }
    requires second { IsCell store.now second }
    requires sum { IsCell store.now sum }
    ensures { result ≡ too_few_given_of (tree_of store.now first) (tree_of store.now second) (tree_of store.now sum) }
{
    let no_first = is_variable(store, first);
    let no_second = is_variable(store, second);
    no_first && no_second || (no_first || no_second) && is_variable(store, sum)
}

// Whether a term is neither a variable nor an integer.
fn is_no_integer(store: &Store, c: Cell) -> bool
    requires { IsCell store.now c }
    ensures { result ≡ is_no_integer_of (tree_of store.now c) }
{
    !(is_variable(store, c) || is_integer(store, c))
}

// The first of the three that is neither a variable nor an integer.
fn first_other(store: &Store, first: Cell, second: Cell, sum: Cell) -> Option<Cell>
    requires first { IsCell store.now first }
    requires second { IsCell store.now second }
    requires sum { IsCell store.now sum }
    ensures cell { MatchOption result ⊤ (IsCell store.now) }
    ensures term { MatchOption result
        (find is_no_integer_of (tree_of store.now first ∷ tree_of store.now second ∷ tree_of store.now sum ∷ []) ≡ None)
        (λ c. find is_no_integer_of (tree_of store.now first ∷ tree_of store.now second ∷ tree_of store.now sum ∷ [])
        ≡ Some (tree_of store.now c)) }
{
    if is_no_integer(store, first) {
        return Some(first);
    }
    if is_no_integer(store, second) {
        return Some(second);
    }
    if is_no_integer(store, sum) {
        return Some(sum);
    }
    None
}

// plus(X, Y, Z) of integers, of which one may be left out.
fn plus_given(
    alloc: Global,
    store: &Store,
    first: Cell,
    second: Cell,
    sum: Cell,
) -> Result<Plan, Memory>
    requires first { IsCell store.now first }
    requires second { IsCell store.now second }
    requires sum { IsCell store.now sum }
    ensures outcome { IfOk result (λ p. plan_outcome store.now (first ∷ second ∷ sum ∷ []) p
        ≡ plus_given_of (tree_of store.now first) (tree_of store.now second) (tree_of store.now sum)) }
    ensures plan { IfOk result (IsPlan store.now (first ∷ second ∷ sum ∷ [])) }
{
    match (store.look(first), store.look(second), store.look(sum)) {
        (Seen::Int(x), Seen::Int(y), _) => found(alloc, 2, Binary::Plus, x, y),
        (Seen::Int(x), _, Seen::Int(z)) => found(alloc, 1, Binary::Minus, z, x),
        (_, Seen::Int(y), Seen::Int(z)) => found(alloc, 0, Binary::Minus, z, y),
        (_, _, _) => {
            let plan = plus_ball(alloc, instantiation_error(alloc)?)?;
            Ok(plan)
        }
    }
}

// The argument of this place is the value of a function.
fn found(alloc: Global, place: u32, function: Binary, x: i128, y: i128) -> Result<Plan, Memory>
    ensures { IfOk result (λ p. p ≡ plus_plan place (evaluated_of (binary_value function x y))) }
{
    match value(alloc, function, x, y)? {
        Value::Int(value) => Ok(Plan::Equal(place, What::Int(value))),
        Value::Ball(fault) => {
            let plan = plus_ball(alloc, fault)?;
            Ok(plan)
        }
    }
}

// The value of a function.
fn value(alloc: Global, function: Binary, x: i128, y: i128) -> Result<Value, Memory>
    ensures { IfOk result (λ v. value_result v ≡ evaluated_of (binary_value function x y)) }
{
    match function.value(x, y) {
        Ok(value) => Ok(Value::Int(value)),
        Err(fault) => Ok(Value::Ball(evaluation_error(alloc, fault.name())?)),
    }
}

// divmod(A, B, Q, R).
pub(crate) fn divmod(
    alloc: Global,
    store: &Store,
    dividend: Cell,
    divisor: Cell,
    quotient: Cell,
    left: Cell,
) -> Result<Plan, Memory>
    requires dividend { IsCell store.now dividend }
    requires divisor { IsCell store.now divisor }
    ensures outcome { IfOk result (λ p. plan_outcome store.now (dividend ∷ divisor ∷ quotient ∷ left ∷ []) p
        ≡ divmod_of (tree_of store.now dividend) (tree_of store.now divisor) (tree_of store.now quotient) (tree_of store.now left)) }
    ensures plan { IfOk result (IsPlan store.now (dividend ∷ divisor ∷ quotient ∷ left ∷ [])) }
{
    let x = needed_integer(alloc, store, dividend)?;
    let y = needed_integer(alloc, store, divisor)?;
    let plan = divided(alloc, x, y)?;
    Ok(plan)
}

// The integer that a term is, or what is wrong.
fn needed_integer(alloc: Global, store: &Store, c: Cell) -> Result<Value, Memory>
    requires { IsCell store.now c }
    ensures { IfOk result (λ v. value_result v ≡ needed_integer_of (tree_of store.now c)) }
{
    match store.look(c) {
        Seen::Var(_) => Ok(Value::Ball(instantiation_error(alloc)?)),
        Seen::Int(value) => Ok(Value::Int(value)),
        Seen::Atom(_) | Seen::Comp(_, _) => {
            Ok(Value::Ball(type_error(alloc, "integer", whole(store, c)?)?))
        }
    }
}

// The quotient and what is left. Of two faults the dividend's goes first.
fn divided(alloc: Global, dividend: Value, divisor: Value) -> Result<Plan, Memory>
    ensures { IfOk result (λ p. p ≡ divmod_plan
        (binary_applied Binary.FloorQuotient (value_result dividend) (value_result divisor))
        (binary_applied Binary.Modulus (value_result dividend) (value_result divisor))) }
{
    match (dividend, divisor) {
        (Value::Int(x), Value::Int(y)) => {
            let quotient = value(alloc, Binary::FloorQuotient, x, y)?;
            let left = value(alloc, Binary::Modulus, x, y)?;
            let plan = both(alloc, quotient, left)?;
            Ok(plan)
        }
        (Value::Int(_), Value::Ball(fault)) => {
            let plan = divmod_ball(alloc, fault)?;
            Ok(plan)
        }
        (Value::Ball(fault), _) => {
            let plan = divmod_ball(alloc, fault)?;
            Ok(plan)
        }
    }
}

// Of two faults the quotient's goes first.
fn both(alloc: Global, quotient: Value, left: Value) -> Result<Plan, Memory>
    ensures { IfOk result (λ p. p ≡ divmod_plan (value_result quotient) (value_result left)) }
{
    match (quotient, left) {
        (Value::Int(quotient), Value::Int(left)) => Ok(Plan::Divided(quotient, left)),
        (Value::Int(_), Value::Ball(fault)) => {
            let plan = divmod_ball(alloc, fault)?;
            Ok(plan)
        }
        (Value::Ball(fault), _) => {
            let plan = divmod_ball(alloc, fault)?;
            Ok(plan)
        }
    }
}

fn divmod_ball(alloc: Global, formal: Term) -> Result<Plan, Memory>
    ensures { IfOk result (λ p. p ≡ Plan.Ball (error_term formal
        (indicator_term (record { name = codes "divmod"; arity = 4 })))) }
{
    ball(alloc, "divmod", 4, formal)
}
