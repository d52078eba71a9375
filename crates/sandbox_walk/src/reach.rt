// Which predicates a goal reaches.
ghost use Rattle.std.specs.Prelude.{◌≡◌, [], ◌∷◌, ◌++◌, map, IfOk};
ghost use Rattle.term_core.specs.Tree.{Tree};
ghost use Rattle.sandbox_walk.specs.declared.reach.Walk.{Walk as Walking};
ghost use Rattle.sandbox_walk.specs.declared.found.Found.TheVariants.{Literal};
ghost use Rattle.std.specs.List.{flat_map, list_any};
ghost use Rattle.program.specs.Kept.{clause_of};
ghost use Rattle.sandbox_walk.specs.Verdict.{TellsReach, enters as enters_predicate, in_clause};
ghost use Rattle.sandbox_walk.specs.Seen.{has as has_predicate, IsWalking, HasMet};

use crate::found::{Found, Kind};
use crate::seen::{Seen, add, has};
use crate::shown::shown;
use builtin_table::Table;
use program::{Clause, Program};
use std::alloc::Global;
use std::collections::BTreeMap;
use term_core::{Memory, Pi, Term};

// The predicates that were seen, and those of them whose clauses are still to be read.
#[derive(Drop)]
pub(crate) struct Walk {
    pub(crate) seen: Seen,
    pub(crate) waiting: Vec<Pi>,
}

pub(crate) fn reached(
    alloc: Global,
    table: &Table,
    program: &Program,
    goal: &Term,
) -> Result<Seen, Memory>
    ensures { IfOk result (λ s. TellsReach table.now program.now.clauses goal.now (has_predicate s)) }
{
    let mut walk = begin(alloc, table, program, goal)?;
    for _ in 0..u64::MAX {
        let Some(pi) = walk.waiting.pop() else {
            return Ok(walk.seen);
        };
        enter(alloc, table, program, &pi, &mut walk)?;
    }
    Err(Memory)
}

// Takes in the literals of a predicate that waited.
fn enter(
    alloc: Global,
    table: &Table,
    program: &Program,
    pi: &Pi,
    walk: &mut Walk,
) -> Result<(), Memory>
    ensures { IfOk result (λ _. (g : Tree) (before : Walking) →
        before.waiting.items ≡ walk.old.waiting.items ++ pi.now ∷ [] → before.seen ≡ walk.old.seen →
        IsWalking table.now program.now.clauses g before → IsWalking table.now program.now.clauses g walk.new) }
{
    if !enters(table, program, pi) {
        return Ok(());
    }
    let found = in_clauses(alloc, table, program.clauses(pi))?;
    meet(alloc, &found, walk)?;
    Ok(())
}

// Begins with the goal's own literals.
fn begin(alloc: Global, table: &Table, program: &Program, goal: &Term) -> Result<Walk, Memory>
    ensures { IfOk result (λ w. IsWalking table.now program.now.clauses goal.now w) }
{
    let _ = program;
    let found = shown(alloc, table, goal, Kind::Adds(0))?;
    let mut walk = Walk {
        seen: BTreeMap::new(alloc),
        waiting: Vec::new(alloc),
    };
    meet(alloc, &found, &mut walk)?;
    Ok(walk)
}

// Whether the clauses of a predicate are read.
pub(crate) fn enters(table: &Table, program: &Program, pi: &Pi) -> bool
    ensures { result ≡ enters_predicate table.now program.now.clauses pi.now }
{
    has_own(program.clauses(pi)) || table.row(pi).is_none()
}

fn has_own(clauses: &[Clause]) -> bool
    ensures { result ≡ list_any (λ c. c.own) (map clause_of clauses.now) }
{
    for clause in clauses {
        if clause.own {
            return true;
        }
    }
    false
}

// What these clauses show.
pub(crate) fn in_clauses(
    alloc: Global,
    table: &Table,
    clauses: &[Clause],
) -> Result<Vec<Found>, Memory>
    ensures { IfOk result (λ v. v.items ≡ flat_map (in_clause table.now) (map clause_of clauses.now)) }
{
    let mut all = Vec::new(alloc);
    for clause in clauses {
        let mut found = shown(alloc, table, &clause.body, Kind::Part)?;
        all.append(&mut found)?;
    }
    Ok(all)
}

// Takes in the literals of what was found: those that are new wait.
fn meet(alloc: Global, found: &[Found], walk: &mut Walk) -> Result<(), Memory>
    ensures { IfOk result (λ _. HasMet found.now walk.old walk.new) }
{
    for item in found {
        see(alloc, item, walk)?;
    }
    Ok(())
}

fn see(alloc: Global, item: &Found, walk: &mut Walk) -> Result<(), Memory>
    ensures { IfOk result (λ _. HasMet (item.now ∷ []) walk.old walk.new) }
{
    match item {
        Found::Place(_, _) => Ok(()),
        Found::Literal(pi) => see_literal(alloc, pi, walk),
    }
}

fn see_literal(alloc: Global, pi: &Pi, walk: &mut Walk) -> Result<(), Memory>
    ensures { IfOk result (λ _. HasMet (Literal pi.now ∷ []) walk.old walk.new) }
{
    if has(&walk.seen, pi) {
        return Ok(());
    }
    add(alloc, &mut walk.seen, pi)?;
    walk.waiting.push(pi.copied(alloc)?)?;
    Ok(())
}
