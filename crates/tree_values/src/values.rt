// The values of expressions.
ghost use Rattle.std.specs.Prelude.{◌≡◌, ◌<◌, ◌^◌, [], ◌∷◌, IfOk, OnOk, length, reverse};
ghost use Rattle.builtin_table.specs.Arithmetic.{value_of, applied, unary_applied, binary_applied, evaluated as evaluated_of, not_evaluable as not_evaluable_of};
ghost use Rattle.tree_values.specs.Values.{with_node};

use builtin_table::{
    Binary, Fault, Unary, evaluation_error, indicator, instantiation_error, type_error,
};
use std::alloc::Global;
use term_core::{Memory, Name, Node, Pi, Term};

// An integer, or what is wrong.
pub(crate) type Value = Result<i128, Term>;

// The value of a term as an expression. Each tree's value stands behind those of the trees after it.
pub(crate) fn evaluate(alloc: Global, term: &Term) -> Result<Value, Memory>
    ensures { IfOk result (λ v. v ≡ value_of term.now) }
{
    let nodes = term.nodes();
    let mut values: Vec<Value> = Vec::new(alloc);
    for i in 0..nodes.len() {
        take_node(alloc, &mut values, &nodes[nodes.len() - 1 - i])?;
    }
    Ok(values.pop().unwrap_or(Ok(0)))
}

// Takes a node into the values of the trees after it.
fn take_node(alloc: Global, values: &mut Vec<Value>, node: &Node) -> Result<(), Memory>
    ensures { OnOk result (values.new.items ≡ with_node node.now values.old.items) }
{
    match node {
        Node::Var(_) => values.push(Err(instantiation_error(alloc)?))?,
        Node::Int(value) => values.push(Ok(*value))?,
        Node::Atom(name) => values.push(not_evaluable(alloc, name, 0)?)?,
        Node::Comp(name, count) => {
            let kept = values.len().saturating_sub(*count as usize);
            let value = apply(alloc, name, &values[kept..])?;
            values.truncate(kept);
            values.push(value)?;
        }
    }
    Ok(())
}

// The value of a functor of these values, of which the first is last.
fn apply(alloc: Global, name: &Name, args: &[Value]) -> Result<Value, Memory>
    requires { length args.now < 2 ^ 32 }
    ensures { IfOk result (λ v. v ≡ applied name.now (reverse args.now)) }
{
    if args.len() == 1 {
        apply_to_one(alloc, name, &args[0])
    } else if args.len() == 2 {
        apply_to_two(alloc, name, &args[1], &args[0])
    } else {
        let value = not_evaluable(alloc, name, args.len() as u32)?;
        Ok(value)
    }
}

#[tactic(auto, unfolding(builtin_table::specs::Arithmetic::applied))]
fn apply_to_one(alloc: Global, name: &Name, x: &Value) -> Result<Value, Memory>
    ensures { IfOk result (λ v. v ≡ applied name.now (x.now ∷ [])) }
{
    match Unary::named(name.as_str()) {
        Some(function) => apply_unary(alloc, function, x),
        None => not_evaluable(alloc, name, 1),
    }
}

#[tactic(auto, unfolding(builtin_table::specs::Arithmetic::applied))]
fn apply_to_two(alloc: Global, name: &Name, x: &Value, y: &Value) -> Result<Value, Memory>
    ensures { IfOk result (λ v. v ≡ applied name.now (x.now ∷ y.now ∷ [])) }
{
    match Binary::named(name.as_str()) {
        Some(function) => apply_binary(alloc, function, x, y),
        None => not_evaluable(alloc, name, 2),
    }
}

fn apply_unary(alloc: Global, function: Unary, x: &Value) -> Result<Value, Memory>
    ensures { IfOk result (λ v. v ≡ unary_applied function x.now) }
{
    match x {
        Ok(x) => evaluated(alloc, function.value(*x)),
        Err(fault) => Ok(Err(fault.copied(alloc)?)),
    }
}

// Of two faults the first argument's goes first.
pub(crate) fn apply_binary(
    alloc: Global,
    function: Binary,
    x: &Value,
    y: &Value,
) -> Result<Value, Memory>
    ensures { IfOk result (λ v. v ≡ binary_applied function x.now y.now) }
{
    match (x, y) {
        (Ok(x), Ok(y)) => evaluated(alloc, function.value(*x, *y)),
        (Ok(_), Err(fault)) => Ok(Err(fault.copied(alloc)?)),
        (Err(fault), _) => Ok(Err(fault.copied(alloc)?)),
    }
}

// The fault of a functor as what is wrong.
fn evaluated(alloc: Global, found: Result<i128, Fault>) -> Result<Value, Memory>
    ensures { IfOk result (λ v. v ≡ evaluated_of found) }
{
    match found {
        Ok(value) => Ok(Ok(value)),
        Err(fault) => Ok(Err(evaluation_error(alloc, fault.name())?)),
    }
}

// What is wrong where no evaluable functor has this name and so many arguments.
fn not_evaluable(alloc: Global, name: &Name, count: u32) -> Result<Value, Memory>
    ensures { IfOk result (λ v. v ≡ not_evaluable_of name.now count) }
{
    let pi = Pi {
        name: name.copied(alloc)?,
        arity: count,
    };
    let culprit = indicator(alloc, &pi)?;
    Ok(Err(type_error(alloc, "evaluable", culprit)?))
}
