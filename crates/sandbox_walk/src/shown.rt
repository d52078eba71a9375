// What a text shows: its literals and goal positions, from left to right.
ghost use Rattle.std.specs.Prelude.{◌≡◌, ◌++◌, ◌∷◌, ◌≤◌, length, List, reverse, drop, OnOk, IfOk, None as none};
ghost use Rattle.term_core.specs.Flat.{build};
ghost use Rattle.term_core.specs.Preorder.{AreTermNodes};
ghost use Rattle.sandbox_walk.specs.declared.found.Found.{Found as Finding};
ghost use Rattle.sandbox_walk.specs.declared.shown.Task.{Task as Asked};
ghost use Rattle.sandbox_walk.specs.Shown.{kinds_in as kinds_of, shown as shown_of, fresh_one};
ghost use Rattle.sandbox_walk.specs.Pending.{bodies_at as bodies_at_nodes, HasNode, IsReading};

use crate::bodies::bodies_at;
use crate::found::{Found, Kind};
use crate::open::{fresh, open};
use builtin_table::Table;
use std::alloc::Global;
use term_core::{Memory, Node, Pi, Term};

// What is read next.
#[derive(Debug, Drop)]
pub(crate) enum Task {
    // the next term of the text, as an argument of the literal
    Argument(Option<Pi>, Kind),
    // a fresh variable, as an argument of the literal
    Fresh(Option<Pi>, Kind),
}

// What a node shows before its arguments, and how these are read.
#[derive(Debug, Drop)]
pub(crate) struct Opened {
    pub(crate) found: Vec<Found>,
    pub(crate) tasks: Vec<Task>,
}

// How far a text is read.
#[derive(Drop)]
pub(crate) struct Reading {
    pub(crate) found: Vec<Found>,
    // the next one last
    pub(crate) tasks: Vec<Task>,
    // the node that is next
    pub(crate) at: usize,
}

// What a term shows that no literal holds.
pub(crate) fn shown(
    alloc: Global,
    table: &Table,
    term: &Term,
    kind: Kind,
) -> Result<Vec<Found>, Memory>
    ensures { IfOk result (λ v. v.items ≡ shown_of (kinds_of table.now) none term.now kind) }
{
    let nodes = term.nodes();
    let bodies = bodies_at(alloc, nodes)?;
    let mut reading = Reading {
        found: Vec::new(alloc),
        tasks: vec![in alloc; Task::Argument(None, kind)]?,
        at: 0,
    };
    for _ in 0..u64::MAX {
        let Some(task) = reading.tasks.pop() else {
            return Ok(reading.found);
        };
        take(alloc, table, nodes, &bodies, &task, &mut reading)?;
    }
    Err(Memory)
}

// Reads one node, or a fresh variable.
fn take(
    alloc: Global,
    table: &Table,
    nodes: &[Node],
    bodies: &[bool],
    task: &Task,
    reading: &mut Reading,
) -> Result<(), Memory>
    requires terms { AreTermNodes nodes.now }
    requires bodies { bodies.now ≡ bodies_at_nodes nodes.now }
    requires node { HasNode task.now (build (drop reading.old.at nodes.now)) }
    ensures { IfOk result (λ _. (whole : List Finding) (ts : List Asked) → ts ≡ task.now ∷ reverse reading.old.tasks.items →
        IsReading (kinds_of table.now) whole reading.old.found.items ts (build (drop reading.old.at nodes.now)) →
        IsReading (kinds_of table.now) whole reading.new.found.items (reverse reading.new.tasks.items) (build (drop reading.new.at nodes.now))) }
{
    match task {
        Task::Fresh(holder, kind) => {
            let mut found = fresh(alloc, holder, *kind)?;
            reading.found.append(&mut found)?;
        }
        Task::Argument(holder, kind) => {
            let at = reading.at;
            let rest = nodes_from(nodes, at);
            let marks = bodies_from(bodies, at);
            let opened = open(alloc, table, holder, *kind, rest, marks)?;
            put(opened, reading)?;
            reading.at = at + 1;
        }
    }
    Ok(())
}

fn nodes_from(nodes: &[Node], at: usize) -> &[Node]
    requires { at ≤ length nodes.now }
    ensures { result.now ≡ drop at nodes.now }
{
    &nodes[at..]
}

fn bodies_from(bodies: &[bool], at: usize) -> &[bool]
    requires { at ≤ length bodies.now }
    ensures { result.now ≡ drop at bodies.now }
{
    &bodies[at..]
}

// Takes in what a node shows; its arguments are next.
fn put(opened: Opened, reading: &mut Reading) -> Result<(), Memory>
    ensures found { OnOk result (reading.new.found.items ≡ reading.old.found.items ++ opened.found.items) }
    ensures tasks { OnOk result (reading.new.tasks.items ≡ reading.old.tasks.items ++ reverse opened.tasks.items) }
    ensures at { reading.new.at ≡ reading.old.at }
{
    let mut opened = opened;
    reading.found.append(&mut opened.found)?;
    opened.tasks.reverse();
    reading.tasks.append(&mut opened.tasks)?;
    Ok(())
}
