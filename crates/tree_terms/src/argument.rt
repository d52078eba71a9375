// arg/3 (ISO/IEC 13211-1, 8.5.2).
ghost use Rattle.std.specs.Prelude.{◌≡◌, [], ◌∷◌, List as list, false, IfOk};
ghost use Rattle.term_core.specs.Tree.{Tree, integer};
ghost use Rattle.builtin_table.specs.Primitives.{is_variable, arg as arg_of, arg_ball as arg_ball_of, argument as argument_of};
ghost use Rattle.tree_results.specs.Outcomes.{outcome_of};

use builtin_table::{domain_error, instantiation_error, type_error};
use std::alloc::Global;
use term_core::{Memory, Node, Term};
use tree_results::{Outcome, ball, fails, is_compound, is_either_variable, unifies};

/// What arg(N, T, A) gives, whatever A is.
pub fn arg(alloc: Global, place: &Term, term: &Term) -> Result<Outcome, Memory>
    ensures { IfOk result (λ o. (a : Tree) →
        outcome_of (place.now ∷ term.now ∷ a ∷ []) o ≡ arg_of place.now term.now a) }
{
    if is_either_variable(place, term) {
        let outcome = arg_ball(alloc, instantiation_error(alloc)?)?;
        return Ok(outcome);
    }
    match place.symbol() {
        Node::Int(at) => {
            let outcome = argument_at(alloc, *at, term)?;
            Ok(outcome)
        }
        Node::Var(_) | Node::Atom(_) | Node::Comp(_, _) => {
            let formal = type_error(alloc, "integer", place.copied(alloc)?)?;
            let outcome = arg_ball(alloc, formal)?;
            Ok(outcome)
        }
    }
}

fn arg_ball(alloc: Global, formal: Term) -> Result<Outcome, Memory>
    ensures { IfOk result (λ o. (ts : list Tree) → outcome_of ts o ≡ arg_ball_of formal) }
{
    ball(alloc, "arg", 3, formal)
}

// The argument of this place of a term that is no variable.
fn argument_at(alloc: Global, at: i128, term: &Term) -> Result<Outcome, Memory>
    requires { is_variable term.now ≡ false }
    ensures { IfOk result (λ o. (n a : Tree) →
        outcome_of (n ∷ term.now ∷ a ∷ []) o ≡ arg_of (integer at) term.now a) }
{
    if !is_compound(term) {
        let formal = type_error(alloc, "compound", term.copied(alloc)?)?;
        let outcome = arg_ball(alloc, formal)?;
        return Ok(outcome);
    }
    let arguments = term.arguments(alloc)?;
    let outcome = argument_among(alloc, at, &arguments)?;
    Ok(outcome)
}

// The argument of this place, counted from 1.
fn argument_among(alloc: Global, at: i128, arguments: &[Term]) -> Result<Outcome, Memory>
    ensures { IfOk result (λ o. (n t a : Tree) →
        outcome_of (n ∷ t ∷ a ∷ []) o ≡ argument_of at arguments.now a) }
{
    if at < 0 {
        let formal = domain_error(alloc, "not_less_than_zero", Term::int(alloc, at)?)?;
        let outcome = arg_ball(alloc, formal)?;
        return Ok(outcome);
    }
    if at == 0 || at > arguments.len() as i128 {
        return Ok(fails());
    }
    let found = arguments[at as usize - 1].copied(alloc)?;
    let outcome = unifies(alloc, 2, found)?;
    Ok(outcome)
}
