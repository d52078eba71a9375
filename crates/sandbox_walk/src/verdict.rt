ghost use Rattle.std.specs.Prelude.{◌≡◌, IfOk, OnOk, IfErr, None};
ghost use Rattle.sandbox_walk.specs.Keeping.{KeepsSandbox};
ghost use Rattle.sandbox_walk.specs.Passes.{PassesOver};
ghost use Rattle.sandbox_walk.specs.Sound.{StaysInside};
ghost use Rattle.sandbox_walk.specs.Verdict.{VerdictOver, RefusesOver};

use crate::kinds::table_of;
use crate::reach::reached;
use crate::refusal::{first_closed, has_unbound, least_outside};
use crate::texts::all_shown;
use crate::unsafe_goal::Unsafe;
use program::Program;
use std::alloc::Global;
use std::sync::Arc;
use term_core::{Memory, Term};

/// A goal that may be asked of a program: no predicate outside is reached, and a body stands at each goal position.
#[derive(Drop)]
pub struct Passed {
    /// The program.
    pub program: Arc<Program>,
    /// The goal.
    pub goal: Term,
    pub ghost passes: { PassesOver program.value goal },
}

/// Whether the goal may be asked of the program, by the built-in predicates of the program's application. The first of these
/// that fits is answered:
/// - `Sandboxed`: a predicate outside is reached; the least one by its name, in bytes, and then by its number of arguments;
/// - `Uninstantiated`: a variable stands at a goal position;
/// - `NotCallable`: a term at a goal position can't be a body. It is the first such term: by the literal that holds it, the goal
///   itself before all literals, and then from left to right in the goal and in the clauses, in the program's order.
///
/// Literals stand in the goal and in the clauses of each reached predicate that the client defines or that isn't built in.
/// They are found by opening `,`, `;`, `->` and each goal position that the table of built-in predicates declares; a closure is
/// extended by as many fresh variables as it lacks arguments, and a leading `V^` is taken off where that is declared.
///
/// Over a program that keeps to the sandbox no run of a goal that passes ends outside, for every limit of steps and all replies,
/// and each primitive that it takes has a row of the class `Control`, `Safe` or `Meta` in the table of the program's application.
pub fn check(alloc: Global, p: &Arc<Program>, goal: &Term) -> Result<Passed, Unsafe>
    ensures passed { OnOk result (VerdictOver p.now.value goal.now None) }
    ensures sound { OnOk result (KeepsSandbox p.now.value → StaysInside p.now.value goal.now) }
    ensures program { IfOk result (λ q. q.program.value ≡ p.now.value) }
    ensures goal { IfOk result (λ q. q.goal ≡ goal.now) }
    ensures refused { IfErr result (RefusesOver p.now.value goal.now) }
{
    let table = table_of(alloc, p)?;
    let reached = reached(alloc, &table, p, goal)?;
    let shown = all_shown(alloc, &table, p, goal, &reached)?;
    if let Some(pi) = least_outside(&table, &shown) {
        return Err(Unsafe::Sandboxed(pi.copied(alloc)?));
    }
    if has_unbound(&shown) {
        return Err(Unsafe::Uninstantiated);
    }
    if let Some(term) = first_closed(&shown) {
        return Err(Unsafe::NotCallable(term.copied(alloc)?));
    }
    Ok(keep(alloc, p, goal)?)
}

fn keep(alloc: Global, p: &Arc<Program>, goal: &Term) -> Result<Passed, Memory>
    requires { PassesOver p.now.value goal.now }
    ensures program { IfOk result (λ q. q.program.value ≡ p.now.value) }
    ensures goal { IfOk result (λ q. q.goal ≡ goal.now) }
{
    Ok(Passed {
        program: p.clone()?,
        goal: goal.copied(alloc)?,
    })
}
