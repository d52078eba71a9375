// An expression's parts from the left, with a list of what is still to be done.
ghost use Rattle.std.specs.Prelude.{◌≡◌, ◌∷◌, List, ℤ, Err, drop, reverse, IfOk, OnOk};
ghost use Rattle.std.specs.List.{All};
ghost use Rattle.builtin_table.specs.Arithmetic.{value_of, evaluated as evaluated_of, not_evaluable as not_evaluable_of};
ghost use Rattle.term_core.specs.Parts.{symbol_of};
ghost use Rattle.term_core.specs.declared.node.Node.TheVariants as Node;
ghost use Rattle.store.specs.Cells.{IsCell, tree_of};
ghost use Rattle.arith.specs.Machine.{value_result, part_result, IsTask, run, parted, top};

use crate::value::Value;
use builtin_table::{
    Binary, Fault, Unary, evaluation_error, indicator, instantiation_error, type_error,
};
use std::alloc::Global;
use store::{Cell, Seen, Store};
use term_core::{Memory, Name, Pi, Term};

/// How many functors and arguments of an expression are visited, a shared one each time: a greater
/// expression is refused for want of memory.
pub const MAX_VISITED: u32 = 1 << 22;

// What is to be done with the values so far.
#[derive(Clone, Copy, Debug, Drop)]
enum Task {
    // To find this cell's value.
    Find(Cell),
    // To apply a functor to the last value, or to the last two.
    One(Unary),
    Two(Binary),
}

/// The value of a cell's term as an expression, or the first fault from the left.
///
/// A variable is `instantiation_error`; an atom, and a functor that isn't evaluable, is
/// `type_error(evaluable, Name/Arity)`; the faults of the functors are `evaluation_error`s.
pub fn eval(alloc: Global, store: &Store, c: Cell) -> Result<Value, Memory>
    requires { IsCell store.now c }
    ensures { IfOk result (λ v. value_result v ≡ value_of (tree_of store.now c)) }
{
    let mut tasks = vec![in alloc; Task::Find(c)]?;
    let mut values = Vec::new(alloc);
    for _i in 0..MAX_VISITED {
        let Some(task) = tasks.pop() else {
            return Ok(Value::Int(values.pop().unwrap_or(0)));
        };
        if let Some(ball) = work(alloc, store, &mut tasks, &mut values, task)? {
            return Ok(Value::Ball(ball));
        }
    }
    Err(Memory)
}

// Does one task; `Some` is what is wrong with the whole expression.
fn work(
    alloc: Global,
    store: &Store,
    tasks: &mut Vec<Task>,
    values: &mut Vec<i128>,
    task: Task,
) -> Result<Option<Term>, Memory>
    requires task { IsTask store.now task }
    requires tasks { All (IsTask store.now) tasks.old.items }
    ensures tasks { OnOk result (All (IsTask store.now) tasks.new.items) }
    ensures run { IfOk result (λ ball. parted ball
        (run store.now (reverse tasks.new.items) (reverse values.new.items))
        (run store.now (task ∷ reverse tasks.old.items) (reverse values.old.items))) }
{
    match task {
        Task::Find(cell) => find(alloc, store, tasks, values, cell),
        Task::One(function) => {
            let x = take_last(values);
            push(alloc, values, function.value(x))
        }
        Task::Two(function) => {
            let y = take_last(values);
            let x = take_last(values);
            push(alloc, values, function.value(x, y))
        }
    }
}

// Takes the last value; there is one wherever a functor is to be applied.
fn take_last(values: &mut Vec<i128>) -> i128
    ensures value { result ≡ top (reverse values.old.items) }
    ensures rest { reverse values.new.items ≡ drop 1 (reverse values.old.items) }
{
    values.pop().unwrap_or(0)
}

// Puts a functor's value at the end, or tells its fault.
fn push(
    alloc: Global,
    values: &mut Vec<i128>,
    found: Result<i128, Fault>,
) -> Result<Option<Term>, Memory>
    ensures { IfOk result (λ ball. part_result ball values.old.items values.new.items (evaluated_of found)) }
{
    match found {
        Ok(value) => {
            values.push(value)?;
            Ok(None)
        }
        Err(fault) => Ok(Some(evaluation_error(alloc, fault.name())?)),
    }
}

// Puts a cell's value at the end, or plans what is to be done for it.
fn find(
    alloc: Global,
    store: &Store,
    tasks: &mut Vec<Task>,
    values: &mut Vec<i128>,
    cell: Cell,
) -> Result<Option<Term>, Memory>
    requires cell { IsCell store.now cell }
    requires tasks { All (IsTask store.now) tasks.old.items }
    ensures tasks { OnOk result (All (IsTask store.now) tasks.new.items) }
    ensures run { IfOk result (λ ball. parted ball
        (run store.now (reverse tasks.new.items) (reverse values.new.items))
        (run store.now (Task.Find cell ∷ reverse tasks.old.items) (reverse values.old.items))) }
{
    match store.look(cell) {
        Seen::Var(_) => Ok(Some(instantiation_error(alloc)?)),
        Seen::Int(value) => {
            values.push(value)?;
            Ok(None)
        }
        Seen::Atom(name) => Ok(Some(not_evaluable(alloc, name, 0)?)),
        Seen::Comp(name, count) => {
            if count == 1 {
                return find_one(alloc, store, tasks, name, cell);
            }
            if count == 2 {
                return find_two(alloc, store, tasks, name, cell);
            }
            Ok(Some(not_evaluable(alloc, name, count)?))
        }
    }
}

// Plans a functor of one argument.
fn find_one(
    alloc: Global,
    store: &Store,
    tasks: &mut Vec<Task>,
    name: &Name,
    cell: Cell,
) -> Result<Option<Term>, Memory>
    requires cell { IsCell store.now cell }
    requires symbol { symbol_of (tree_of store.now cell) ≡ Node.Comp name.now 1 }
    requires tasks { All (IsTask store.now) tasks.old.items }
    ensures tasks { OnOk result (All (IsTask store.now) tasks.new.items) }
    ensures run { (vs : List ℤ) → IfOk result (λ ball. parted ball
        (run store.now (reverse tasks.new.items) vs)
        (run store.now (Task.Find cell ∷ reverse tasks.old.items) vs)) }
{
    match Unary::named(name.as_str()) {
        Some(function) => {
            tasks.push(Task::One(function))?;
            tasks.push(Task::Find(store.arg(cell, 0)))?;
            Ok(None)
        }
        None => Ok(Some(not_evaluable(alloc, name, 1)?)),
    }
}

// Plans a functor of two arguments.
fn find_two(
    alloc: Global,
    store: &Store,
    tasks: &mut Vec<Task>,
    name: &Name,
    cell: Cell,
) -> Result<Option<Term>, Memory>
    requires cell { IsCell store.now cell }
    requires symbol { symbol_of (tree_of store.now cell) ≡ Node.Comp name.now 2 }
    requires tasks { All (IsTask store.now) tasks.old.items }
    ensures tasks { OnOk result (All (IsTask store.now) tasks.new.items) }
    ensures run { (vs : List ℤ) → IfOk result (λ ball. parted ball
        (run store.now (reverse tasks.new.items) vs)
        (run store.now (Task.Find cell ∷ reverse tasks.old.items) vs)) }
{
    match Binary::named(name.as_str()) {
        Some(function) => {
            tasks.push(Task::Two(function))?;
            tasks.push(Task::Find(store.arg(cell, 1)))?;
            tasks.push(Task::Find(store.arg(cell, 0)))?;
            Ok(None)
        }
        None => Ok(Some(not_evaluable(alloc, name, 2)?)),
    }
}

// What is wrong where no evaluable functor has this name and so many arguments.
fn not_evaluable(alloc: Global, name: &Name, count: u32) -> Result<Term, Memory>
    ensures { IfOk result (λ e. Err e ≡ not_evaluable_of name.now count) }
{
    let pi = Pi {
        name: name.copied(alloc)?,
        arity: count,
    };
    let culprit = indicator(alloc, &pi)?;
    let formal = type_error(alloc, "evaluable", culprit)?;
    Ok(formal)
}
