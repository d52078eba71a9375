// (=..)/2 (ISO/IEC 13211-1, 8.5.3).
ghost use Rattle.std.specs.Prelude.{◌≡◌, ◌≤◌, ◌∷◌, [], List as list, length, IfOk};
ghost use Rattle.term_core.specs.Tree.{Tree, atom};
ghost use Rattle.builtin_table.specs.Primitives.{univ as univ_of, univ_ball as univ_ball_of, univ_made, univ_elements, univ_alone as univ_alone_of, univ_compound as univ_compound_of};
ghost use Rattle.builtin_table.specs.Lists.{elements, rest as rest_of};
ghost use Rattle.tree_results.specs.Outcomes.{outcome_of};

use builtin_table::{domain_error, instantiation_error, representation_error, type_error};
use std::alloc::Global;
use term_core::{Memory, Node, Term};
use tree_results::{
    Outcome, ball, is_compound, is_empty, is_variable, list_of, list_parts, unifies,
};

/// What T =.. L gives.
pub fn univ(alloc: Global, term: &Term, list: &Term) -> Result<Outcome, Memory>
    ensures { IfOk result (λ o. outcome_of (term.now ∷ list.now ∷ []) o ≡ univ_of term.now list.now) }
{
    match term.symbol() {
        Node::Var(_) => {
            let outcome = univ_of_variable(alloc, list)?;
            Ok(outcome)
        }
        Node::Comp(name, _) => {
            let mut parts = term.arguments(alloc)?;
            parts.insert(0, Term::atom(alloc, name.as_str())?)?;
            let outcome = unifies(alloc, 1, list_of(alloc, &parts)?)?;
            Ok(outcome)
        }
        Node::Int(_) | Node::Atom(_) => {
            let parts = vec![in alloc; term.copied(alloc)?]?;
            let outcome = unifies(alloc, 1, list_of(alloc, &parts)?)?;
            Ok(outcome)
        }
    }
}

fn univ_ball(alloc: Global, formal: Term) -> Result<Outcome, Memory>
    ensures { IfOk result (λ o. (ts : list Tree) → outcome_of ts o ≡ univ_ball_of formal) }
{
    ball(alloc, "=..", 2, formal)
}

// T =.. L of a variable T.
fn univ_of_variable(alloc: Global, list: &Term) -> Result<Outcome, Memory>
    ensures { IfOk result (λ o. (t : Tree) → outcome_of (t ∷ list.now ∷ []) o
        ≡ univ_made t list.now (elements list.now) (rest_of list.now)) }
{
    let (parts, rest) = list_parts(alloc, list)?;
    if is_variable(&rest) {
        let outcome = univ_ball(alloc, instantiation_error(alloc)?)?;
        return Ok(outcome);
    }
    if !is_empty(&rest) {
        let formal = type_error(alloc, "list", list.copied(alloc)?)?;
        let outcome = univ_ball(alloc, formal)?;
        return Ok(outcome);
    }
    let outcome = univ_of_elements(alloc, &parts)?;
    Ok(outcome)
}

fn univ_of_elements(alloc: Global, parts: &[Term]) -> Result<Outcome, Memory>
    ensures { IfOk result (λ o. (t l : Tree) → outcome_of (t ∷ l ∷ []) o ≡ univ_elements t parts.now) }
{
    if parts.is_empty() {
        let formal = domain_error(alloc, "non_empty_list", Term::atom(alloc, "[]")?)?;
        let outcome = univ_ball(alloc, formal)?;
        return Ok(outcome);
    }
    if parts.len() == 1 {
        let outcome = univ_alone(alloc, &parts[0])?;
        return Ok(outcome);
    }
    let outcome = univ_compound(alloc, &parts[0], &parts[1..])?;
    Ok(outcome)
}

// T is this term alone.
fn univ_alone(alloc: Global, alone: &Term) -> Result<Outcome, Memory>
    ensures { IfOk result (λ o. (t l : Tree) → outcome_of (t ∷ l ∷ []) o ≡ univ_alone_of t alone.now) }
{
    if is_variable(alone) {
        let outcome = univ_ball(alloc, instantiation_error(alloc)?)?;
        return Ok(outcome);
    }
    if is_compound(alone) {
        let formal = type_error(alloc, "atomic", alone.copied(alloc)?)?;
        let outcome = univ_ball(alloc, formal)?;
        return Ok(outcome);
    }
    let outcome = unifies(alloc, 0, alone.copied(alloc)?)?;
    Ok(outcome)
}

// T has this name and these arguments, one or more.
fn univ_compound(alloc: Global, name: &Term, arguments: &[Term]) -> Result<Outcome, Memory>
    requires { 1 ≤ length arguments.now }
    ensures { IfOk result (λ o. (t l : Tree) → outcome_of (t ∷ l ∷ []) o
        ≡ univ_compound_of t name.now arguments.now) }
{
    match name.symbol() {
        Node::Var(_) => {
            let outcome = univ_ball(alloc, instantiation_error(alloc)?)?;
            Ok(outcome)
        }
        Node::Atom(symbol) => {
            let outcome = univ_atom(alloc, symbol.as_str(), arguments)?;
            Ok(outcome)
        }
        Node::Int(_) | Node::Comp(_, _) => {
            let formal = type_error(alloc, "atom", name.copied(alloc)?)?;
            let outcome = univ_ball(alloc, formal)?;
            Ok(outcome)
        }
    }
}

fn univ_atom(alloc: Global, name: &str, arguments: &[Term]) -> Result<Outcome, Memory>
    requires { 1 ≤ length arguments.now }
    ensures { IfOk result (λ o. (t l : Tree) → outcome_of (t ∷ l ∷ []) o
        ≡ univ_compound_of t (atom name.now) arguments.now) }
{
    if arguments.len() > 1024 {
        let formal = representation_error(alloc, "max_arity")?;
        let outcome = univ_ball(alloc, formal)?;
        return Ok(outcome);
    }
    let compound = Term::comp(alloc, name, arguments)?;
    let outcome = unifies(alloc, 0, compound)?;
    Ok(outcome)
}
