// functor/3 (ISO/IEC 13211-1, 8.5.1).
ghost use Rattle.std.specs.Prelude.{◌≡◌, ◌∷◌, ◌≤◌, [], List as list, pos, IfOk};
ghost use Rattle.term_core.specs.Tree.{Tree, integer};
ghost use Rattle.builtin_table.specs.Primitives.{functor as functor_of, functor_made, functor_ball as functor_ball_of, made, made_within, offer};
ghost use Rattle.tree_results.specs.Outcomes.{outcome_of};

use builtin_table::{domain_error, instantiation_error, representation_error, type_error};
use std::alloc::Global;
use term_core::{List, Memory, Node, Term};
use tree_results::{Outcome, ball, is_compound, is_either_variable, new_variables, one, unifies};

/// What functor(T, N, A) gives; `Memory` also where no number is left for a variable.
pub fn functor(
    alloc: Global,
    term: &Term,
    name: &Term,
    arity: &Term,
    next: u64,
) -> Result<Outcome, Memory>
    ensures { IfOk result (λ o. outcome_of (term.now ∷ name.now ∷ arity.now ∷ []) o
        ≡ functor_of term.now name.now arity.now next) }
{
    match term.symbol() {
        Node::Var(_) => {
            let outcome = functor_of_variable(alloc, name, arity, next)?;
            Ok(outcome)
        }
        Node::Comp(symbol, count) => {
            let symbol = Term::atom(alloc, symbol.as_str())?;
            let outcome = name_and_arity(alloc, symbol, *count)?;
            Ok(outcome)
        }
        Node::Int(_) | Node::Atom(_) => {
            let outcome = name_and_arity(alloc, term.copied(alloc)?, 0)?;
            Ok(outcome)
        }
    }
}

// One result, in which the name and the arity are these.
fn name_and_arity(alloc: Global, symbol: Term, count: u32) -> Result<Outcome, Memory>
    ensures { IfOk result (λ o. (t n a : Tree) → outcome_of (t ∷ n ∷ a ∷ []) o
        ≡ offer ((n, symbol) ∷ (a, integer (pos count)) ∷ []) 0) }
{
    let mut pairs = List::new(alloc);
    pairs.push((1, symbol))?;
    pairs.push((2, Term::int(alloc, i128::from(count))?))?;
    Ok(one(pairs, 0))
}

fn functor_ball(alloc: Global, formal: Term) -> Result<Outcome, Memory>
    ensures { IfOk result (λ o. (ts : list Tree) → outcome_of ts o ≡ functor_ball_of formal) }
{
    ball(alloc, "functor", 3, formal)
}

// functor(T, N, A) of a variable T.
fn functor_of_variable(
    alloc: Global,
    name: &Term,
    arity: &Term,
    next: u64,
) -> Result<Outcome, Memory>
    ensures { IfOk result (λ o. (t : Tree) → outcome_of (t ∷ name.now ∷ arity.now ∷ []) o
        ≡ functor_made t name.now arity.now next) }
{
    if is_either_variable(name, arity) {
        let outcome = functor_ball(alloc, instantiation_error(alloc)?)?;
        return Ok(outcome);
    }
    if is_compound(name) {
        let formal = type_error(alloc, "atomic", name.copied(alloc)?)?;
        let outcome = functor_ball(alloc, formal)?;
        return Ok(outcome);
    }
    match arity.symbol() {
        Node::Int(count) => {
            let outcome = functor_of_count(alloc, name, *count, next)?;
            Ok(outcome)
        }
        Node::Var(_) | Node::Atom(_) | Node::Comp(_, _) => {
            let formal = type_error(alloc, "integer", arity.copied(alloc)?)?;
            let outcome = functor_ball(alloc, formal)?;
            Ok(outcome)
        }
    }
}

// With so many arguments, where a term can have them.
fn functor_of_count(alloc: Global, name: &Term, count: i128, next: u64) -> Result<Outcome, Memory>
    ensures { IfOk result (λ o. (t a : Tree) → outcome_of (t ∷ name.now ∷ a ∷ []) o
        ≡ made_within t name.now count next) }
{
    if count < 0 {
        let formal = domain_error(alloc, "not_less_than_zero", Term::int(alloc, count)?)?;
        let outcome = functor_ball(alloc, formal)?;
        return Ok(outcome);
    }
    if count > 1024 {
        let formal = representation_error(alloc, "max_arity")?;
        let outcome = functor_ball(alloc, formal)?;
        return Ok(outcome);
    }
    let outcome = functor_of_arity(alloc, name, count as u32, next)?;
    Ok(outcome)
}

fn functor_of_arity(alloc: Global, name: &Term, count: u32, next: u64) -> Result<Outcome, Memory>
    requires { count ≤ 1024 }
    ensures { IfOk result (λ o. (t a : Tree) → outcome_of (t ∷ name.now ∷ a ∷ []) o
        ≡ made t name.now count next) }
{
    if count == 0 {
        let outcome = unifies(alloc, 0, name.copied(alloc)?)?;
        return Ok(outcome);
    }
    match name.symbol() {
        Node::Atom(symbol) => {
            let arguments = new_variables(alloc, next, count)?;
            let compound = Term::comp(alloc, symbol.as_str(), &arguments)?;
            let mut pairs = List::new(alloc);
            pairs.push((0, compound))?;
            Ok(one(pairs, u64::from(count)))
        }
        Node::Var(_) | Node::Int(_) | Node::Comp(_, _) => {
            let formal = type_error(alloc, "atom", name.copied(alloc)?)?;
            let outcome = functor_ball(alloc, formal)?;
            Ok(outcome)
        }
    }
}
