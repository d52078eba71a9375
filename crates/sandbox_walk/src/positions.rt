// The goal positions of a predicate's clauses.
ghost use Rattle.std.specs.Prelude.{◌≡◌, IfOk};
ghost use Rattle.std.specs.List.{list_all};
ghost use Rattle.builtin_table.specs.Table.{rows_of_app};
ghost use Rattle.sandbox_walk.specs.Passes.{opens as is_open};
ghost use Rattle.sandbox_walk.specs.Verdict.{in_predicate};

use crate::found::{Found, Stands};
use crate::kinds::table_of;
use crate::reach::in_clauses;
use program::Program;
use std::alloc::Global;
use term_core::{Memory, Pi};

/// Whether a body stands at each goal position that the clauses of a predicate show, by the built-in predicates of the
/// program's application. A goal that reaches a predicate for which this is false, and whose clauses are read, may not be asked.
pub fn goals_are_bodies(alloc: Global, p: &Program, pi: &Pi) -> Result<bool, Memory>
    ensures { IfOk result (λ b. b ≡ list_all is_open (in_predicate (rows_of_app p.now.app) p.now.clauses pi.now)) }
{
    let table = table_of(alloc, p)?;
    let found = in_clauses(alloc, &table, p.clauses(pi))?;
    Ok(all_open(&found))
}

fn all_open(found: &[Found]) -> bool
    ensures { result ≡ list_all is_open found.now }
{
    for item in found {
        if !opens(item) {
            return false;
        }
    }
    true
}

fn opens(item: &Found) -> bool
    ensures { result ≡ is_open item.now }
{
    !matches!(item, Found::Place(_, Stands::Unbound | Stands::Shut(_)))
}
