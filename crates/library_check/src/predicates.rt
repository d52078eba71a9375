// What is asked of the predicates of a program.
ghost use Rattle.std.specs.Prelude.{◌≡◌, IfOk};
ghost use Rattle.std.specs.List.{list_all};
ghost use Rattle.builtin_table.specs.Table.{indicators, rows_of_app};
ghost use Rattle.sandbox_walk.specs.Keeping.{is_closed as is_closed_in, is_there as is_there_in};
ghost use Rattle.library_check.specs.Tables.{indicators_in, rows_in};

use program::Program;
use sandbox_walk::goals_are_bodies;
use std::alloc::Global;
use term_core::{Memory, Name, Pi};

// Whether a goal that reaches one of these predicates doesn't pass.
pub(crate) fn are_closed(
    alloc: Global,
    program: &Program,
    rows: &[(&str, u32, [i8; 8])],
) -> Result<bool, Memory>
    ensures { IfOk result (λ b. b ≡ list_all (is_closed_in (rows_of_app program.now.app) program.now.clauses) (indicators (rows_in rows.now))) }
{
    for (name, arity, _) in rows {
        let pi = Pi {
            name: Name::new(alloc, name)?,
            arity: *arity,
        };
        if !is_closed(alloc, program, &pi)? {
            return Ok(false);
        }
    }
    Ok(true)
}

// Whether some goal position that the predicate's clauses show holds no body.
fn is_closed(alloc: Global, program: &Program, pi: &Pi) -> Result<bool, Memory>
    ensures { IfOk result (λ b. b ≡ is_closed_in (rows_of_app program.now.app) program.now.clauses pi.now) }
{
    let open = goals_are_bodies(alloc, program, pi)?;
    Ok(!open)
}

// Whether the program has clauses of each of these predicates.
pub(crate) fn are_there(
    alloc: Global,
    program: &Program,
    names: &[(&str, u32)],
) -> Result<bool, Memory>
    ensures { IfOk result (λ b. b ≡ list_all (is_there_in program.now.clauses) (indicators_in names.now)) }
{
    for (name, arity) in names {
        let pi = Pi {
            name: Name::new(alloc, name)?,
            arity: *arity,
        };
        if !is_there(program, &pi) {
            return Ok(false);
        }
    }
    Ok(true)
}

fn is_there(program: &Program, pi: &Pi) -> bool
    ensures { result ≡ is_there_in program.now.clauses pi.now }
{
    !program.clauses(pi).is_empty()
}
