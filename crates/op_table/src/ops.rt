ghost use Rattle.std.specs.Prelude.{◌≡◌, ◌++◌, ◌∷◌, [], bytes_eq, ◌≤◌, vec_len, vec_capacity, IfOk, IfErr, OnOk, OnErr};
ghost use Rattle.op_table.specs.Table.{row, rows_of, iso_prefix, iso_infix, asked, is_reserved, without, with_row, with_op};

use crate::iso::{INFIX, PREFIX};
use crate::op::{Op, OpFault, OpKind, kind_named};
use std::alloc::Global;
use std::marker::Model;
use term_core::{Memory, Name};

type Row = (Name, Op);

/// A table of operators, which contracts see as two lists of rows of a name and its operator.
///
/// A name can be both a prefix and an infix operator.
#[derive(Debug, Drop)]
pub struct Ops {
    before: Vec<Row>,
    between: Vec<Row>,
    alloc: Global,
}

impl Model for Ops {
    ghost use Rattle.op_table.specs.Table.{Table};

    ghost Value = { Table };

    ghost view = { λ o. record { before = o.before.items; between = o.between.items } };
}

impl Ops {
    /// The table of ISO 13211-1, 6.3.4.4.
    #[tactic(auto, unfolding(crate::specs::Table::iso_prefix, crate::specs::Table::iso_infix))]
    pub fn iso(alloc: Global) -> Result<Ops, Memory>
        ensures { IfOk result (λ t. t ≡ record { before = iso_prefix; between = iso_infix }) }
    {
        Ok(Ops {
            before: copied(alloc, &PREFIX)?,
            between: copied(alloc, &INFIX)?,
            alloc,
        })
    }

    /// The operator of this name that stands before its operand.
    pub fn prefix(&self, name: &str) -> Option<Op>
        ensures { result ≡ row name.now self.now.before }
    {
        find(&self.before, name)
    }

    /// The operator of this name that stands between its operands.
    pub fn infix(&self, name: &str) -> Option<Op>
        ensures { result ≡ row name.now self.now.between }
    {
        find(&self.between, name)
    }

    /// Makes `name` an operator as `op/3` does, in the place of the one that it was; priority 0 removes it.
    ///
    /// Refuses, in this order, a priority that isn't 0 to 1200 (`BadPriority`), a `kind` that isn't `xfx`, `xfy`,
    /// `yfx`, `fx` or `fy` (`BadKind`), and the names `,` `|` `[]` `{}` (`Clash`). After a refusal, and after want of
    /// memory (`Memory`), the table is as before.
    pub fn add(&mut self, p: i128, kind: &str, name: &str) -> Result<(), OpFault>
        ensures refused { IfErr (asked p kind.now name.now) (λ fault. result ≡ Err fault) }
        ensures accepted { OnOk (asked p kind.now name.now) (IfErr result (λ e. e ≡ OpFault.Memory)) }
        ensures added { OnOk result (IfOk (asked p kind.now name.now) (λ o. self.new ≡ with_op name.now o self.old)) }
        ensures unchanged { OnErr result (self.new ≡ self.old) }
    {
        let op = asked(p, kind, name)?;
        let alloc = self.alloc;
        if op.kind.is_prefix() {
            put(alloc, &mut self.before, name, op)?;
        } else {
            put(alloc, &mut self.between, name, op)?;
        }
        Ok(())
    }
}

// The operator that `op/3` asks for.
fn asked(p: i128, kind: &str, name: &str) -> Result<Op, OpFault>
    ensures { result ≡ asked p kind.now name.now }
{
    if !(0..=1200).contains(&p) {
        return Err(OpFault::BadPriority);
    }
    let kind = kind_named(kind).ok_or(OpFault::BadKind)?;
    if is_reserved(name) {
        return Err(OpFault::Clash);
    }
    Ok(Op {
        priority: p as u32,
        kind,
    })
}

// Whether no operator may have this name.
fn is_reserved(name: &str) -> bool
    ensures { result ≡ is_reserved name.now }
{
    matches!(name, "," | "|" | "[]" | "{}")
}

// The rows with their names as names.
fn copied(alloc: Global, rows: &[(&str, u32, OpKind)]) -> Result<Vec<Row>, Memory>
    ensures { IfOk result (λ v. v.items ≡ rows_of rows.now) }
{
    let mut copies = Vec::new(alloc);
    for (name, priority, kind) in rows {
        let op = Op {
            priority: *priority,
            kind: *kind,
        };
        copies.push((Name::new(alloc, name)?, op))?;
    }
    Ok(copies)
}

// The operator of the first row with this name.
fn find(rows: &[Row], name: &str) -> Option<Op>
    ensures { result ≡ row name.now rows.now }
{
    for row in rows {
        if is_named(row, name) {
            return Some(row.1);
        }
    }
    None
}

// Puts an operator in the place of the name's.
fn put(alloc: Global, rows: &mut Vec<Row>, name: &str, op: Op) -> Result<(), Memory>
    ensures put { OnOk result (rows.new.items ≡ with_row name.now op rows.old.items) }
    ensures unchanged { OnErr result (rows.new.items ≡ rows.old.items) }
{
    if op.priority == 0 {
        remove(rows, name);
        return Ok(());
    }
    let row = (Name::new(alloc, name)?, op);
    rows.reserve(1)?;
    remove(rows, name);
    rows.push(row)?;
    Ok(())
}

// Removes the rows of a name.
fn remove(rows: &mut Vec<Row>, name: &str)
    ensures removed { rows.new.items ≡ without name.now rows.old.items }
    ensures capacity { vec_capacity rows.new ≡ vec_capacity rows.old }
    ensures bound { vec_len rows.new ≤ vec_len rows.old }
{
    rows.retain(|row| !is_named(row, name));
}

// Whether the row is this name's.
fn is_named(row: &Row, name: &str) -> bool
    ensures { result ≡ bytes_eq row.now.0 name.now }
{
    row.0.as_str() == name
}
