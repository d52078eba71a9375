// plus/3 and divmod/4.
ghost use Rattle.std.specs.Prelude.{◌≡◌, [], ◌∷◌, List as list, Some, None, Ok, IfOk, MatchOption};
ghost use Rattle.std.specs.List.{find};
ghost use Rattle.term_core.specs.Tree.{Tree};
ghost use Rattle.builtin_table.specs.Arithmetic.{binary_applied};
ghost use Rattle.builtin_table.specs.Integers.{plus as plus_of, plus_ball as plus_ball_of, plus_given as plus_given_of, too_few_given as too_few_given_of, is_no_integer as is_no_integer_of, divmod as divmod_of, divmod_ball as divmod_ball_of, divmod_found as divmod_found_of, needed_integer as needed_integer_of};
ghost use Rattle.tree_results.specs.Outcomes.{outcome_of};
ghost use Rattle.tree_values.specs.Integers.{computed_at};

use crate::values::{Value, apply_binary};
use builtin_table::{Binary, instantiation_error, type_error};
use std::alloc::Global;
use term_core::{List, Memory, Node, Term};
use tree_results::{Outcome, ball, is_either_variable, is_integer, is_variable, one, unifies};

/// What plus(X, Y, Z) gives: the argument that is left of the three, so that X + Y = Z.
pub fn plus(alloc: Global, first: &Term, second: &Term, sum: &Term) -> Result<Outcome, Memory>
    ensures { IfOk result (λ o. outcome_of (first.now ∷ second.now ∷ sum.now ∷ []) o
        ≡ plus_of first.now second.now sum.now) }
{
    if too_few_given(first, second, sum) {
        let outcome = plus_ball(alloc, instantiation_error(alloc)?)?;
        return Ok(outcome);
    }
    if let Some(term) = first_other(first, second, sum) {
        let formal = type_error(alloc, "integer", term.copied(alloc)?)?;
        let outcome = plus_ball(alloc, formal)?;
        return Ok(outcome);
    }
    let outcome = plus_given(alloc, first, second, sum)?;
    Ok(outcome)
}

fn plus_ball(alloc: Global, formal: Term) -> Result<Outcome, Memory>
    ensures { IfOk result (λ o. (ts : list Tree) → outcome_of ts o ≡ plus_ball_of formal) }
{
    ball(alloc, "plus", 3, formal)
}

// Whether two of the three are variables.
fn too_few_given(first: &Term, second: &Term, sum: &Term) -> bool
    ensures { result ≡ too_few_given_of first.now second.now sum.now }
{
    is_variable(first) && is_variable(second)
        || is_either_variable(first, second) && is_variable(sum)
}

// Whether a term is neither a variable nor an integer.
fn is_no_integer(term: &Term) -> bool
    ensures { result ≡ is_no_integer_of term.now }
{
    !(is_variable(term) || is_integer(term))
}

// The first of the three that is neither a variable nor an integer.
fn first_other<'a>(first: &'a Term, second: &'a Term, sum: &'a Term) -> Option<&'a Term>
    ensures { MatchOption result
        (find is_no_integer_of (first.now ∷ second.now ∷ sum.now ∷ []) ≡ None)
        (λ found. find is_no_integer_of (first.now ∷ second.now ∷ sum.now ∷ []) ≡ Some found.now) }
{
    if is_no_integer(first) {
        return Some(first);
    }
    if is_no_integer(second) {
        return Some(second);
    }
    if is_no_integer(sum) {
        return Some(sum);
    }
    None
}

// plus(X, Y, Z) of integers, of which one may be left out.
fn plus_given(alloc: Global, first: &Term, second: &Term, sum: &Term) -> Result<Outcome, Memory>
    ensures { IfOk result (λ o. outcome_of (first.now ∷ second.now ∷ sum.now ∷ []) o
        ≡ plus_given_of first.now second.now sum.now) }
{
    match (first.symbol(), second.symbol(), sum.symbol()) {
        (Node::Int(x), Node::Int(y), _) => computed(alloc, 2, Binary::Plus, *x, *y),
        (Node::Int(x), _, Node::Int(z)) => computed(alloc, 1, Binary::Minus, *z, *x),
        (_, Node::Int(y), Node::Int(z)) => computed(alloc, 0, Binary::Minus, *z, *y),
        (_, _, _) => {
            let outcome = plus_ball(alloc, instantiation_error(alloc)?)?;
            Ok(outcome)
        }
    }
}

// The argument of this place is the value of a function.
fn computed(
    alloc: Global,
    place: u32,
    function: Binary,
    x: i128,
    y: i128,
) -> Result<Outcome, Memory>
    ensures { IfOk result (λ o. (ts : list Tree) → outcome_of ts o
        ≡ computed_at ts place (binary_applied function (Ok x) (Ok y))) }
{
    match apply_binary(alloc, function, &Ok(x), &Ok(y))? {
        Ok(value) => {
            let value = Term::int(alloc, value)?;
            let outcome = unifies(alloc, place, value)?;
            Ok(outcome)
        }
        Err(fault) => {
            let outcome = plus_ball(alloc, fault)?;
            Ok(outcome)
        }
    }
}

fn divmod_ball(alloc: Global, formal: Term) -> Result<Outcome, Memory>
    ensures { IfOk result (λ o. (ts : list Tree) → outcome_of ts o ≡ divmod_ball_of formal) }
{
    ball(alloc, "divmod", 4, formal)
}

// The integer that a term is, or what is wrong.
fn needed_integer(alloc: Global, term: &Term) -> Result<Value, Memory>
    ensures { IfOk result (λ v. v ≡ needed_integer_of term.now) }
{
    match term.symbol() {
        Node::Var(_) => Ok(Err(instantiation_error(alloc)?)),
        Node::Int(value) => Ok(Ok(*value)),
        Node::Atom(_) | Node::Comp(_, _) => {
            Ok(Err(type_error(alloc, "integer", term.copied(alloc)?)?))
        }
    }
}

/// What divmod(A, B, Q, R) gives, whatever Q and R are: Q is A div B, and R is A mod B.
pub fn divmod(alloc: Global, dividend: &Term, divisor: &Term) -> Result<Outcome, Memory>
    ensures { IfOk result (λ o. (q r : Tree) → outcome_of (dividend.now ∷ divisor.now ∷ q ∷ r ∷ []) o
        ≡ divmod_of dividend.now divisor.now q r) }
{
    let x = needed_integer(alloc, dividend)?;
    let y = needed_integer(alloc, divisor)?;
    let quotient = apply_binary(alloc, Binary::FloorQuotient, &x, &y)?;
    let left = apply_binary(alloc, Binary::Modulus, &x, &y)?;
    let outcome = divmod_found(alloc, quotient, left)?;
    Ok(outcome)
}

// The quotient and what is left.
fn divmod_found(alloc: Global, quotient: Value, left: Value) -> Result<Outcome, Memory>
    ensures { IfOk result (λ o. (a b q r : Tree) → outcome_of (a ∷ b ∷ q ∷ r ∷ []) o
        ≡ divmod_found_of q r quotient left) }
{
    match (quotient, left) {
        (Ok(quotient), Ok(left)) => {
            let mut pairs = List::new(alloc);
            pairs.push((2, Term::int(alloc, quotient)?))?;
            pairs.push((3, Term::int(alloc, left)?))?;
            Ok(one(pairs, 0))
        }
        (Ok(_), Err(fault)) => {
            let outcome = divmod_ball(alloc, fault)?;
            Ok(outcome)
        }
        (Err(fault), _) => {
            let outcome = divmod_ball(alloc, fault)?;
            Ok(outcome)
        }
    }
}
