// How the arguments of a literal are read.
ghost use Rattle.std.specs.Prelude.{◌≡◌, map, IfOk};
ghost use Rattle.builtin_table.specs.Table.{rows_of_app};
ghost use Rattle.sandbox_walk.specs.Shown.{declared_kind as declared, kinds_in as kinds_of};

use crate::found::Kind;
use builtin_table::Table;
use program::{Program, is_connective};
use std::alloc::Global;
use term_core::{Memory, Pi};

/// The table of built-in predicates of the program's application. `Err` is want of memory.
pub fn table_of(alloc: Global, program: &Program) -> Result<Table, Memory>
    ensures { IfOk result (λ t. t ≡ rows_of_app program.now.app) }
{
    let table = Table::of(alloc, program.app())?;
    Ok(table)
}

// From the first argument on; the arguments behind these are no goals.
#[tactic(auto, unfolding(crate::specs::Shown::kinds_in))]
pub(crate) fn kinds_in(alloc: Global, table: &Table, pi: &Pi) -> Result<Vec<Kind>, Memory>
    ensures { IfOk result (λ v. v.items ≡ kinds_of table.now pi.now) }
{
    if is_connective(&pi.name) && pi.arity == 2 {
        return Ok(vec![in alloc; Kind::Part, Kind::Part]?);
    }
    match table.row(pi) {
        None => Ok(Vec::new(alloc)),
        Some(row) => declared_kinds(alloc, &row.metas),
    }
}

fn declared_kinds(alloc: Global, metas: &[i8]) -> Result<Vec<Kind>, Memory>
    ensures { IfOk result (λ v. v.items ≡ map declared metas.now) }
{
    let mut kinds = Vec::new(alloc);
    for meta in metas {
        kinds.push(declared_kind(*meta))?;
    }
    Ok(kinds)
}

// A goal position as a row of the table declares it.
fn declared_kind(meta: i8) -> Kind
    ensures { result ≡ declared meta }
{
    if meta < 0 {
        Kind::Plain
    } else if meta == 8 {
        Kind::Behind
    } else {
        Kind::Adds(meta as u32)
    }
}
