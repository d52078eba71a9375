// All that is read of a goal and a program.
ghost use Rattle.std.specs.Prelude.{◌≡◌, [], ◌++◌, if◌then◌else◌, IfOk};
ghost use Rattle.program.specs.Kept.{clause_of};
ghost use Rattle.program.specs.Clauses.{indicator_of};
ghost use Rattle.sandbox_walk.specs.Verdict.{all_shown as all_shown_of, in_clause, reads as reads_clause};
ghost use Rattle.sandbox_walk.specs.Seen.{has as has_predicate};

use crate::found::{Found, Kind};
use crate::reach::enters;
use crate::seen::{Seen, has};
use crate::shown::shown;
use builtin_table::Table;
use program::{Clause, Program};
use std::alloc::Global;
use term_core::{Memory, Node, Pi, Term};

// The goal, and then the clauses that are read in the program's order.
pub(crate) fn all_shown(
    alloc: Global,
    table: &Table,
    program: &Program,
    goal: &Term,
    reached: &Seen,
) -> Result<Vec<Found>, Memory>
    ensures { IfOk result (λ v. v.items ≡ all_shown_of table.now program.now.clauses goal.now (has_predicate reached.now)) }
{
    let mut all = shown(alloc, table, goal, Kind::Adds(0))?;
    let clauses = program.in_order(alloc)?;
    for clause in &clauses {
        read(alloc, table, program, reached, clause, &mut all)?;
    }
    Ok(all)
}

// Puts what a clause shows at the end, where it is read.
fn read(
    alloc: Global,
    table: &Table,
    program: &Program,
    reached: &Seen,
    clause: &Clause,
    all: &mut Vec<Found>,
) -> Result<(), Memory>
    ensures { IfOk result (λ _.
        let c = clause_of clause.now in
        all.new.items ≡ all.old.items ++ (if reads_clause table.now program.now.clauses (has_predicate reached.now) c then in_clause table.now c else [])) }
{
    if reads(alloc, table, program, reached, clause)? {
        let mut found = shown(alloc, table, &clause.body, Kind::Part)?;
        all.append(&mut found)?;
    }
    Ok(())
}

// Whether the clause is of a reached predicate whose clauses are read.
fn reads(
    alloc: Global,
    table: &Table,
    program: &Program,
    reached: &Seen,
    clause: &Clause,
) -> Result<bool, Memory>
    ensures { IfOk result (λ b. b ≡ reads_clause table.now program.now.clauses (has_predicate reached.now) (clause_of clause.now)) }
{
    let Some(pi) = indicator(alloc, &clause.head)? else {
        return Ok(false);
    };
    Ok(has(reached, &pi) && enters(table, program, &pi))
}

// The predicate that a head is of.
fn indicator(alloc: Global, head: &Term) -> Result<Option<Pi>, Memory>
    ensures { IfOk result (λ pi. pi ≡ indicator_of head.now) }
{
    match head.symbol() {
        Node::Var(_) | Node::Int(_) => Ok(None),
        Node::Atom(name) => Ok(Some(Pi {
            name: name.copied(alloc)?,
            arity: 0,
        })),
        Node::Comp(name, count) => Ok(Some(Pi {
            name: name.copied(alloc)?,
            arity: *count,
        })),
    }
}
