// What a primitive gives, made.
ghost use Rattle.std.specs.Prelude.{◌≡◌, [], ◌∷◌, List as list, IfOk};
ghost use Rattle.term_core.specs.Tree.{Tree};
ghost use Rattle.builtin_table.specs.Outcomes.{Unknown, tested as tested_of, fails as fails_of, ball as ball_of};
ghost use Rattle.tree_results.specs.Outcomes.{outcome_of};
ghost use Rattle.tree_results.specs.Placed.{results_for, equal_at};

use builtin_table::{error, indicator};
use std::alloc::Global;
use term_core::{List, Memory, Name, Pi, Term};

/// One result of a primitive: what has to be unified for it.
#[derive(Debug, Drop)]
pub struct Offer {
    /// Pairs of an argument's place, from 0, and the term that the argument is unified with, from the left
    /// and all together.
    pub pairs: List<(u32, Term)>,
    /// How many new variables the terms have, which are numbered from the next variable of the call.
    pub fresh: u64,
}

/// What a primitive that has one result at most gives.
#[derive(Debug, Drop)]
pub enum Outcome {
    /// Its result; `None` where it fails.
    Result(Option<Offer>),
    /// An error, `error(E, Name/Arity)` with the primitive's indicator.
    Ball(Term),
    /// No primitive has this name and so many arguments.
    Unknown,
}

/// One result, in which the arguments of these places are these terms.
#[tactic(auto, unfolding(crate::specs::Outcomes::outcome_of))]
pub fn one(pairs: List<(u32, Term)>, fresh: u64) -> Outcome
    ensures { (ts : list Tree) → outcome_of ts result ≡ results_for ts (record { pairs = pairs; fresh = fresh } ∷ []) }
{
    Outcome::Result(Some(Offer { pairs, fresh }))
}

/// One result, in which the argument of this place is this term.
pub fn unifies(alloc: Global, place: u32, term: Term) -> Result<Outcome, Memory>
    ensures { IfOk result (λ o. (ts : list Tree) → outcome_of ts o ≡ results_for ts (equal_at place term ∷ [])) }
{
    let mut pairs = List::new(alloc);
    pairs.push((place, term))?;
    Ok(one(pairs, 0))
}

/// No result.
#[tactic(auto, unfolding(crate::specs::Outcomes::outcome_of))]
pub fn fails() -> Outcome
    ensures { (ts : list Tree) → outcome_of ts result ≡ fails_of }
{
    Outcome::Result(None)
}

/// There is no such primitive.
#[tactic(auto, unfolding(crate::specs::Outcomes::outcome_of))]
pub fn unknown() -> Outcome
    ensures { (ts : list Tree) → outcome_of ts result ≡ Unknown }
{
    Outcome::Unknown
}

/// A test that is passed or fails.
pub fn tested(alloc: Global, holds: bool) -> Outcome
    ensures { (ts : list Tree) → outcome_of ts result ≡ tested_of holds }
{
    if holds {
        one(List::new(alloc), 0)
    } else {
        fails()
    }
}

/// The error of a primitive of this name and so many arguments.
#[tactic(auto, unfolding(crate::specs::Outcomes::outcome_of))]
pub fn ball(alloc: Global, name: &str, arity: u32, formal: Term) -> Result<Outcome, Memory>
    ensures { IfOk result (λ o. (ts : list Tree) → outcome_of ts o ≡ ball_of name.now arity formal) }
{
    let pi = Pi {
        name: Name::new(alloc, name)?,
        arity,
    };
    let context = indicator(alloc, &pi)?;
    Ok(Outcome::Ball(error(alloc, formal, context)?))
}
