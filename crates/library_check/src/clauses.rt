// Whether each clause keeps to the sandbox.
ghost use Rattle.std.specs.Prelude.{◌≡◌, map, IfOk};
ghost use Rattle.std.specs.List.{list_all};
ghost use Rattle.program.specs.Kept.{clause_of};
ghost use Rattle.program.specs.Source.{begins_with_dollar as begins_with_dollar_name};
ghost use Rattle.sandbox_walk.specs.Keeping.{clause_keeps as clause_keeps_of};
ghost use Rattle.library_check.specs.Tables.{AreOfApp};

use crate::handing::{Given, hands_on};
use crate::indicators::indicator;
use crate::metas::run_metas;
use crate::tables::{is_reserved, runs_goals};
use builtin_table::Table;
use program::Clause;
use std::alloc::Global;
use term_core::Memory;

pub(crate) fn clauses_keep(
    alloc: Global,
    table: &Table,
    clauses: &[&Clause],
) -> Result<bool, Memory>
    requires { AreOfApp table.now }
    ensures { IfOk result (λ b. b ≡ list_all (clause_keeps_of table.now) (map (λ c. clause_of c.now) clauses.now)) }
{
    for clause in clauses {
        if !clause_keeps(alloc, table, clause)? {
            return Ok(false);
        }
    }
    Ok(true)
}

// Whether a clause is of no reserved predicate, and is of none whose name begins with `$` where it is the client's, or hands
// on the goals that it was given where it is one of the library's that runs goals.
pub(crate) fn clause_keeps(alloc: Global, table: &Table, clause: &Clause) -> Result<bool, Memory>
    requires { AreOfApp table.now }
    ensures { IfOk result (λ b. b ≡ clause_keeps_of table.now (clause_of clause.now)) }
{
    let Some(pi) = indicator(alloc, &clause.head)? else {
        return Ok(true);
    };
    if is_reserved(table, &pi) {
        return Ok(false);
    }
    if clause.own {
        return Ok(!begins_with_dollar(pi.name.as_str()));
    }
    if !runs_goals(table, &pi) {
        return Ok(true);
    }
    let given = Given {
        arguments: clause.head.arguments(alloc)?,
        metas: run_metas(alloc, table, &pi)?,
    };
    hands_on(alloc, table, &given, &clause.body)
}

fn begins_with_dollar(name: &str) -> bool
    ensures { result ≡ begins_with_dollar_name name.now }
{
    matches!(name.as_bytes().first(), Some(b'$'))
}
