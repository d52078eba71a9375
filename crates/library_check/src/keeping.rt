ghost use Rattle.std.specs.Prelude.{◌≡◌, IfOk};
ghost use Rattle.sandbox_walk.specs.Keeping.{keeps_sandbox as keeps_sandbox_of};
ghost use Rattle.builtin_table.specs.Table.{rows_of_app};

use crate::clauses::clauses_keep;
use crate::predicates::{are_closed, are_there};
use crate::tables::{HELPERS, LIBRARY};
use program::Program;
use sandbox_walk::table_of;
use std::alloc::Global;
use term_core::Memory;

/// Whether a program keeps to the sandbox, by the built-in predicates of its application:
/// - no clause is of a reserved predicate, and none of the client's is of one whose name begins with `$`;
/// - the library's predicates that run goals hand on the goals that they were given and no others, and call nothing beside
///   control, `=/2`, `call/2` to `call/5` and the library's own helpers;
/// - a goal that reaches one of these helpers itself doesn't pass [`check`](sandbox_walk::check);
/// - each predicate of the library in the table of built-in predicates has clauses.
///
/// Where it does, no goal that passes [`check`](sandbox_walk::check) ends outside. `Err` is want of memory.
pub fn keeps_sandbox(alloc: Global, program: &Program) -> Result<bool, Memory>
    ensures { IfOk result (λ b. b ≡ keeps_sandbox_of (rows_of_app program.now.app) program.now.clauses) }
{
    let table = table_of(alloc, program)?;
    let clauses = program.in_order(alloc)?;
    if !clauses_keep(alloc, &table, &clauses)? {
        return Ok(false);
    }
    if !are_closed(alloc, program, &HELPERS)? {
        return Ok(false);
    }
    are_there(alloc, program, &LIBRARY)
}
