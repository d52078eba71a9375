// Arguments taken out of a compound.
ghost use Rattle.std.specs.Prelude.{◌≡◌, ◌≤◌, [], ◌∷◌, length, vec_len, IfOk};
ghost use Rattle.term_core.specs.Parts.{arguments_of};

use std::alloc::Global;
use term_core::{Memory, Term};

// The first of these terms, and the others.
fn split_first(terms: Vec<Term>) -> (Term, Vec<Term>)
    requires { 1 ≤ vec_len terms }
    ensures { terms.items ≡ result.0 ∷ result.1.items }
{
    let mut terms = terms;
    let first = terms.remove(0);
    (first, terms)
}

// A compound's first argument, and the others.
pub(crate) fn first_and_others(alloc: Global, term: &Term) -> Result<(Term, Vec<Term>), Memory>
    requires { 1 ≤ length (arguments_of term.now) }
    ensures { IfOk result (λ p. arguments_of term.now ≡ p.0 ∷ p.1.items) }
{
    Ok(split_first(term.arguments(alloc)?))
}

// A compound's only argument.
pub(crate) fn one_argument(alloc: Global, term: &Term) -> Result<Term, Memory>
    requires { length (arguments_of term.now) ≡ 1 }
    ensures { IfOk result (λ a. arguments_of term.now ≡ a ∷ []) }
{
    let (first, _) = first_and_others(alloc, term)?;
    Ok(first)
}

// A compound's two arguments.
pub(crate) fn two_arguments(alloc: Global, term: &Term) -> Result<(Term, Term), Memory>
    requires { length (arguments_of term.now) ≡ 2 }
    ensures { IfOk result (λ p. arguments_of term.now ≡ p.0 ∷ p.1 ∷ []) }
{
    let (first, others) = first_and_others(alloc, term)?;
    let (second, _) = split_first(others);
    Ok((first, second))
}

// A compound's three arguments.
pub(crate) fn three_arguments(alloc: Global, term: &Term) -> Result<(Term, Term, Term), Memory>
    requires { length (arguments_of term.now) ≡ 3 }
    ensures { IfOk result (λ p. arguments_of term.now ≡ p.0 ∷ p.1 ∷ p.2 ∷ []) }
{
    let (first, others) = first_and_others(alloc, term)?;
    let (second, others) = split_first(others);
    let (third, _) = split_first(others);
    Ok((first, second, third))
}
