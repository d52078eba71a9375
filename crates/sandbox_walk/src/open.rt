// One step into a text: what a node shows, and how the terms behind it are read.
ghost use Rattle.std.specs.Prelude.{◌≡◌, ◌+◌, ◌<◌, ◌^◌, [], ◌∷◌, ◌++◌, drop, length, get_or, nat_lt, IfOk};
ghost use Rattle.term_core.specs.Preorder.{AreTermNodes};
ghost use Rattle.sandbox_walk.specs.declared.shown.Task.TheVariants.{Argument, Fresh};
ghost use Rattle.sandbox_walk.specs.declared.found.Kind.TheVariants.{Plain as NoGoal, Behind};
ghost use Rattle.sandbox_walk.specs.declared.found.Stands.TheVariants.{Shut};
ghost use Rattle.term_core.specs.Flat.{parse};
ghost use Rattle.sandbox_walk.specs.declared.found.Found.TheVariants.{Literal, Place};
ghost use Rattle.sandbox_walk.specs.Shown.{kinds_in as kinds_of, indicator as indicator_of, called_variable as called_variable_found, fresh_one};
ghost use Rattle.sandbox_walk.specs.Pending.{tasks_of, skipped as skipped_tasks, literal_tasks, first_node, found_by, tasks_by, part_found, part_tasks, goal_found, goal_tasks, is_hat_symbol, skipped_node};

use crate::bodies::extends_to_body;
use crate::found::{Found, Kind, Stands};
use crate::kinds::kinds_in;
use crate::shown::{Opened, Task};
use builtin_table::Table;
use std::alloc::Global;
use term_core::{Memory, Name, Node, Pi, Term};

const MAX_ARITY: u64 = 1024;

// What the first of these terms shows before its arguments.
pub(crate) fn open(
    alloc: Global,
    table: &Table,
    holder: &Option<Pi>,
    kind: Kind,
    nodes: &[Node],
    bodies: &[bool],
) -> Result<Opened, Memory>
    requires some { 0 < length nodes.now }
    requires terms { AreTermNodes nodes.now }
    ensures found { IfOk result (λ o. o.found.items ≡ found_by holder.now kind nodes.now bodies.now) }
    ensures tasks { IfOk result (λ o. o.tasks.items ≡ tasks_by (kinds_of table.now) kind holder.now nodes.now bodies.now) }
{
    match kind {
        Kind::Plain => skip(alloc, first(nodes)),
        Kind::Part => part(alloc, table, first(nodes)),
        Kind::Adds(count) => goal(alloc, table, holder, count, nodes, bodies),
        Kind::Behind => behind(alloc, table, holder, nodes, bodies),
    }
}

fn first(nodes: &[Node]) -> &Node
    requires { 0 < length nodes.now }
    ensures { result.now ≡ first_node nodes.now }
{
    &nodes[0]
}

// No goal.
fn skip(alloc: Global, node: &Node) -> Result<Opened, Memory>
    ensures found { IfOk result (λ o. o.found.items ≡ []) }
    ensures tasks { IfOk result (λ o. o.tasks.items ≡ skipped_node node.now) }
{
    match node {
        Node::Comp(_, count) => unopened(alloc, *count, Vec::new(alloc)),
        Node::Var(_) | Node::Int(_) | Node::Atom(_) => Ok(nothing(alloc)),
    }
}

fn nothing(alloc: Global) -> Opened
    ensures found { result.found.items ≡ [] }
    ensures tasks { result.tasks.items ≡ [] }
{
    Opened {
        found: Vec::new(alloc),
        tasks: Vec::new(alloc),
    }
}

// What was found, where the arguments aren't looked at.
#[tactic(auto, using(crate::proofs::Reading::tasks_more))]
fn unopened(alloc: Global, count: u32, found: Vec<Found>) -> Result<Opened, Memory>
    ensures found { IfOk result (λ o. o.found.items ≡ found.items) }
    ensures tasks { IfOk result (λ o. o.tasks.items ≡ skipped_tasks count) }
{
    let mut tasks = Vec::new(alloc);
    for _ in 0..count {
        tasks.push(Task::Argument(None, Kind::Plain))?;
    }
    Ok(Opened { found, tasks })
}

// A part of a body.
fn part(alloc: Global, table: &Table, node: &Node) -> Result<Opened, Memory>
    ensures found { IfOk result (λ o. o.found.items ≡ part_found node.now) }
    ensures tasks { IfOk result (λ o. o.tasks.items ≡ part_tasks (kinds_of table.now) node.now) }
{
    match node {
        Node::Int(_) => Ok(nothing(alloc)),
        Node::Var(_) => unopened(alloc, 0, called_variable(alloc)?),
        Node::Atom(name) => literal(alloc, table, name, 0, 0, Vec::new(alloc)),
        Node::Comp(name, count) => literal(alloc, table, name, *count, 0, Vec::new(alloc)),
    }
}

// A goal to which so many arguments are added.
fn goal(
    alloc: Global,
    table: &Table,
    holder: &Option<Pi>,
    added: u32,
    nodes: &[Node],
    bodies: &[bool],
) -> Result<Opened, Memory>
    requires some { 0 < length nodes.now }
    requires terms { AreTermNodes nodes.now }
    ensures found { IfOk result (λ o. o.found.items ≡ goal_found holder.now added nodes.now bodies.now) }
    ensures tasks { IfOk result (λ o. o.tasks.items ≡ goal_tasks (kinds_of table.now) added nodes.now bodies.now) }
{
    match first(nodes) {
        Node::Var(_) => unopened(alloc, 0, placed(alloc, holder, Stands::Unbound)?),
        Node::Int(_) => unopened(alloc, 0, shut(alloc, holder, nodes)?),
        Node::Atom(name) => {
            let found = placed(alloc, holder, Stands::Opens)?;
            literal(alloc, table, name, 0, added, found)
        }
        Node::Comp(name, count) => {
            if is_too_many(*count, added) {
                return unopened(alloc, *count, placed(alloc, holder, Stands::Opens)?);
            }
            if !extends_to_body(name, *count, added, bodies) {
                return unopened(alloc, *count, shut(alloc, holder, nodes)?);
            }
            let found = placed(alloc, holder, Stands::Opens)?;
            literal(alloc, table, name, *count, added, found)
        }
    }
}

// More arguments than a term has.
fn is_too_many(count: u32, added: u32) -> bool
    ensures { result ≡ nat_lt 1024 (count + added) }
{
    u64::from(count) + u64::from(added) > MAX_ARITY
}

// A goal that may stand behind `^`.
fn behind(
    alloc: Global,
    table: &Table,
    holder: &Option<Pi>,
    nodes: &[Node],
    bodies: &[bool],
) -> Result<Opened, Memory>
    requires some { 0 < length nodes.now }
    requires terms { AreTermNodes nodes.now }
    ensures found { IfOk result (λ o. o.found.items ≡ found_by holder.now Behind nodes.now bodies.now) }
    ensures tasks { IfOk result (λ o. o.tasks.items ≡ tasks_by (kinds_of table.now) Behind holder.now nodes.now bodies.now) }
{
    if !is_hat(first(nodes)) {
        return goal(alloc, table, holder, 0, nodes, bodies);
    }
    let kinds = vec![in alloc; Kind::Plain, Kind::Behind]?;
    Ok(Opened {
        found: Vec::new(alloc),
        tasks: arguments(alloc, holder, 2, &kinds)?,
    })
}

fn is_hat(symbol: &Node) -> bool
    ensures { result ≡ is_hat_symbol symbol.now }
{
    match symbol {
        Node::Comp(name, count) => name.as_str() == "^" && *count == 2,
        Node::Var(_) | Node::Int(_) | Node::Atom(_) => false,
    }
}

// A fresh variable as an argument of the literal.
pub(crate) fn fresh(alloc: Global, holder: &Option<Pi>, kind: Kind) -> Result<Vec<Found>, Memory>
    ensures { IfOk result (λ v. v.items ≡ fresh_one holder.now kind) }
{
    match kind {
        Kind::Plain => Ok(Vec::new(alloc)),
        Kind::Part => called_variable(alloc),
        Kind::Adds(_) | Kind::Behind => placed(alloc, holder, Stands::Unbound),
    }
}

// A variable as a part of a body.
fn called_variable(alloc: Global) -> Result<Vec<Found>, Memory>
    ensures { IfOk result (λ v. v.items ≡ called_variable_found) }
{
    let call = indicator(alloc, &Name::new(alloc, "call")?, 1)?;
    let place = Found::Place(Some(call.copied(alloc)?), Stands::Unbound);
    Ok(vec![in alloc; Found::Literal(call), place]?)
}

// A goal position at which the first of these terms stands, which is no body.
fn shut(alloc: Global, holder: &Option<Pi>, nodes: &[Node]) -> Result<Vec<Found>, Memory>
    requires some { 0 < length nodes.now }
    requires terms { AreTermNodes nodes.now }
    ensures { IfOk result (λ v. v.items ≡ Place holder.now (Shut (parse nodes.now)) ∷ []) }
{
    placed(alloc, holder, Stands::Shut(Term::first_of(alloc, nodes)?))
}

fn placed(alloc: Global, holder: &Option<Pi>, stands: Stands) -> Result<Vec<Found>, Memory>
    ensures { IfOk result (λ v. v.items ≡ Place holder.now stands ∷ []) }
{
    Ok(vec![in alloc; Found::Place(copied(alloc, holder)?, stands)]?)
}

// A literal of so many arguments and so many fresh variables, behind what was found.
fn literal(
    alloc: Global,
    table: &Table,
    name: &Name,
    count: u32,
    added: u32,
    found: Vec<Found>,
) -> Result<Opened, Memory>
    requires { count + added < 2 ^ 32 }
    ensures found { IfOk result (λ o. o.found.items ≡ found.items ++ Literal (indicator_of name.now (count + added)) ∷ []) }
    ensures tasks { IfOk result (λ o. o.tasks.items ≡ literal_tasks (kinds_of table.now) name.now count added) }
{
    let mut found = found;
    let pi = indicator(alloc, name, count + added)?;
    let kinds = kinds_in(alloc, table, &pi)?;
    found.push(Found::Literal(pi.copied(alloc)?))?;
    let holder = Some(pi);
    let mut tasks = arguments(alloc, &holder, count, &kinds)?;
    let mut fresh = variables(alloc, &holder, added, rest(&kinds, count))?;
    tasks.append(&mut fresh)?;
    Ok(Opened { found, tasks })
}

// So many arguments of the literal, each with how it is read.
#[tactic(auto, using(crate::proofs::Reading::tasks_more))]
fn arguments(
    alloc: Global,
    holder: &Option<Pi>,
    count: u32,
    kinds: &[Kind],
) -> Result<Vec<Task>, Memory>
    ensures { IfOk result (λ v. v.items ≡ tasks_of (Argument holder.now) count kinds.now) }
{
    let mut tasks = Vec::new(alloc);
    for i in 0..count {
        tasks.push(Task::Argument(copied(alloc, holder)?, kind_at(kinds, i)))?;
    }
    Ok(tasks)
}

// So many fresh variables.
#[tactic(auto, using(crate::proofs::Reading::tasks_more))]
fn variables(
    alloc: Global,
    holder: &Option<Pi>,
    count: u32,
    kinds: &[Kind],
) -> Result<Vec<Task>, Memory>
    ensures { IfOk result (λ v. v.items ≡ tasks_of (Fresh holder.now) count kinds.now) }
{
    let mut tasks = Vec::new(alloc);
    for i in 0..count {
        tasks.push(Task::Fresh(copied(alloc, holder)?, kind_at(kinds, i)))?;
    }
    Ok(tasks)
}

// Arguments behind those of the list are no goals.
fn kind_at(kinds: &[Kind], at: u32) -> Kind
    ensures { result ≡ get_or kinds.now at NoGoal }
{
    match kinds.get(at as usize) {
        Some(kind) => *kind,
        None => Kind::Plain,
    }
}

fn rest(kinds: &[Kind], count: u32) -> &[Kind]
    ensures { result.now ≡ drop count kinds.now }
{
    let from = (count as usize).min(kinds.len());
    &kinds[from..]
}

fn indicator(alloc: Global, name: &Name, arity: u32) -> Result<Pi, Memory>
    ensures { IfOk result (λ pi. pi ≡ indicator_of name.now arity) }
{
    Ok(Pi {
        name: name.copied(alloc)?,
        arity,
    })
}

fn copied(alloc: Global, holder: &Option<Pi>) -> Result<Option<Pi>, Memory>
    ensures { IfOk result (λ pi. pi ≡ holder.now) }
{
    match holder {
        None => Ok(None),
        Some(pi) => Ok(Some(pi.copied(alloc)?)),
    }
}
