ghost use Rattle.std.specs.Prelude.{◌≡◌, map, IfOk};
ghost use Rattle.builtin_table.specs.Table.{standard, plus_and_divmod, rows_of_app, row_of, rows_of, reserved_of, silenced as silenced_row};

use crate::classes::class_in_school;
use crate::row::{Class, Row};
use crate::standard::{PLUS_AND_DIVMOD, STANDARD};
use std::alloc::Global;
use std::marker::Model;
use term_core::{App, Memory, Name, Pi};

/// A table of built-in predicates, which contracts see as the list of its rows, each with its indicator.
#[derive(Debug, Drop)]
pub struct Table {
    rows: Vec<(Pi, Row)>,
    reserved: Vec<Pi>,
}

impl Model for Table {
    ghost use Rattle.std.specs.Prelude.{◌≡◌, List};
    ghost use Rattle.term_core.specs.declared.pi.Pi.{Pi};
    ghost use Rattle.builtin_table.specs.declared.row.Row.{Row};
    ghost use Rattle.builtin_table.specs.Table.{reserved_of};

    ghost Value = { List (Pi × Row) };

    ghost view = { λ t. t.rows.items };

    ghost invariant = { λ t. t.reserved.items ≡ reserved_of t.rows.items };
}

impl Table {
    /// The built-in predicates of an application.
    pub fn of(alloc: Global, app: App) -> Result<Table, Memory>
        ensures { IfOk result (λ t. t ≡ rows_of_app app) }
    {
        let rows = rows_for(alloc, app)?;
        let reserved = reserved_in(alloc, &rows)?;
        Ok(Table { rows, reserved })
    }

    /// The built-in predicates of `App::Sandbox`.
    pub fn standard(alloc: Global) -> Result<Table, Memory>
        ensures { IfOk result (λ t. t ≡ standard) }
    {
        let rows = standard_rows(alloc)?;
        let reserved = reserved_in(alloc, &rows)?;
        Ok(Table { rows, reserved })
    }

    /// The row of a predicate; none where it isn't built in.
    pub fn row(&self, pi: &Pi) -> Option<Row>
        ensures { result ≡ row_of pi.now self.now }
    {
        find(&self.rows, pi)
    }

    /// The predicates that a program may not define: those of all rows but the library's, in the table's order.
    pub fn reserved(&self) -> &[Pi]
        ensures { result.now ≡ reserved_of self.now }
    {
        &self.reserved
    }
}

// The rows of an application.
fn rows_for(alloc: Global, app: App) -> Result<Vec<(Pi, Row)>, Memory>
    ensures { IfOk result (λ v. v.items ≡ rows_of_app app) }
{
    let mut rows = standard_rows(alloc)?;
    match app {
        App::Sandbox => Ok(rows),
        App::School => {
            let rows = silenced(alloc, rows)?;
            Ok(rows)
        }
        App::Numbers => {
            let mut others = rows_of_numbers(alloc)?;
            rows.append(&mut others)?;
            Ok(rows)
        }
    }
}

#[tactic(auto, unfolding(crate::specs::Table::standard))]
fn standard_rows(alloc: Global) -> Result<Vec<(Pi, Row)>, Memory>
    ensures { IfOk result (λ v. v.items ≡ standard) }
{
    let rows = copied(alloc, &STANDARD)?;
    Ok(rows)
}

fn rows_of_numbers(alloc: Global) -> Result<Vec<(Pi, Row)>, Memory>
    ensures { IfOk result (λ v. v.items ≡ plus_and_divmod) }
{
    let rows = copied(alloc, &PLUS_AND_DIVMOD)?;
    Ok(rows)
}

// The rows where no program talks with its client.
fn silenced(alloc: Global, rows: Vec<(Pi, Row)>) -> Result<Vec<(Pi, Row)>, Memory>
    ensures { IfOk result (λ v. v.items ≡ map silenced_row rows.items) }
{
    let mut silent = Vec::new(alloc);
    for (pi, row) in rows {
        let class = class_in_school(&pi, row.class);
        let metas = row.metas;
        silent.push((pi, Row { class, metas }))?;
    }
    Ok(silent)
}

// The rows with their indicators as such.
fn copied(alloc: Global, rows: &[(&str, u32, Class, [i8; 8])]) -> Result<Vec<(Pi, Row)>, Memory>
    ensures { IfOk result (λ v. v.items ≡ rows_of rows.now) }
{
    let mut copies = Vec::new(alloc);
    for (name, arity, class, metas) in rows {
        let name = Name::new(alloc, name)?;
        let row = Row {
            class: *class,
            metas: *metas,
        };
        copies.push((
            Pi {
                name,
                arity: *arity,
            },
            row,
        ))?;
    }
    Ok(copies)
}

// The predicates that a program may not define.
fn reserved_in(alloc: Global, rows: &[(Pi, Row)]) -> Result<Vec<Pi>, Memory>
    ensures { IfOk result (λ v. v.items ≡ reserved_of rows.now) }
{
    let mut reserved = Vec::new(alloc);
    for (pi, row) in rows {
        if row.class != Class::Library {
            reserved.push(pi.copied(alloc)?)?;
        }
    }
    Ok(reserved)
}

// The row of the first entry with this indicator.
fn find(rows: &[(Pi, Row)], pi: &Pi) -> Option<Row>
    ensures { result ≡ row_of pi.now rows.now }
{
    for (other, row) in rows {
        if other == pi {
            return Some(*row);
        }
    }
    None
}
