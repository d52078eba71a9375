// The goal positions of a literal.
ghost use Rattle.std.specs.Prelude.{◌≡◌, ◌&&◌, ◌==◌, false, map, IfOk};
ghost use Rattle.program.specs.Bodies.{is_connective};
ghost use Rattle.sandbox_walk.specs.Shown.{declared_kind};
ghost use Rattle.sandbox_walk.specs.Keeping.{run_kinds};

use crate::tables::helper;
use builtin_table::Table;
use std::alloc::Global;
use term_core::{Memory, Pi};

// Where the arguments of a literal are run, as the table declares it, and of the helpers as they do. The parts of `,`, `;` and
// `->` are no goal positions.
pub(crate) fn run_metas(alloc: Global, table: &Table, pi: &Pi) -> Result<Vec<i8>, Memory>
    ensures { IfOk result (λ v.
        (is_connective pi.now.name && pi.now.arity == 2) ≡ false → map declared_kind v.items ≡ run_kinds table.now pi.now) }
{
    match helper(pi) {
        Some(metas) => copied(alloc, &metas),
        None => match table.row(pi) {
            None => Ok(Vec::new(alloc)),
            Some(row) => copied(alloc, &row.metas),
        },
    }
}

fn copied(alloc: Global, metas: &[i8]) -> Result<Vec<i8>, Memory>
    ensures { IfOk result (λ v. v.items ≡ metas.now) }
{
    Ok(metas.to_vec(alloc)?)
}
