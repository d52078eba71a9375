// Terms made ready to run as goals, as `call` and its like take them.
ghost use Rattle.std.specs.Prelude.{◌≡◌, ◌≤◌, vec_len, IfOk};
ghost use Rattle.term_core.specs.Tree.{Tree};
ghost use Rattle.builtin_table.specs.Errors.{instantiation_error as instantiation_error_tree};
ghost use Rattle.solve_model.specs.Goals.{control_error as control_error_of, not_callable as not_callable_tree, not_list as not_list_tree, ready as ready_tree, ready_compound as ready_compound_tree, unbound_goal as unbound_goal_tree, unknown_predicate as unknown_predicate_of, with_arguments as with_arguments_tree};
ghost use Rattle.solve_model.specs.Rows.{ready_as};

use builtin_table::{
    error, existence_error, instantiation_error, representation_error, type_error,
};
use program::is_body;
use std::alloc::Global;
use term_core::{Memory, Node, Pi, Term};

// What comes of making a term ready to run as a goal: it runs, or this ball is thrown.
#[derive(Drop)]
pub(crate) enum Ready {
    Runs(Term),
    Throws(Term),
}

// A variable and a term that is no body throw.
pub(crate) fn make_ready(alloc: Global, goal: Term) -> Result<Ready, Memory>
    ensures { IfOk result (λ r. ready_as r ≡ ready_tree goal) }
{
    if let Node::Var(_) = goal.symbol() {
        return Ok(Ready::Throws(unbound_goal(alloc)?));
    }
    if is_body(alloc, &goal)? {
        Ok(Ready::Runs(goal))
    } else {
        Ok(Ready::Throws(not_callable(alloc, goal)?))
    }
}

// A goal with these arguments added behind its own, as call/1 to call/8 take it.
pub(crate) fn with_arguments(alloc: Global, goal: Term, added: Vec<Term>) -> Result<Ready, Memory>
    ensures { IfOk result (λ r. ready_as r ≡ with_arguments_tree goal added.items) }
{
    if added.is_empty() {
        let ready = make_ready(alloc, goal)?;
        return Ok(ready);
    }
    match goal.symbol() {
        Node::Var(_) => Ok(Ready::Throws(unbound_goal(alloc)?)),
        Node::Int(_) => Ok(Ready::Throws(not_callable(alloc, goal.copied(alloc)?)?)),
        Node::Atom(name) => {
            let ready = ready_compound(alloc, name.as_str(), added)?;
            Ok(ready)
        }
        Node::Comp(name, _) => {
            let mut added = added;
            let mut arguments = goal.arguments(alloc)?;
            arguments.append(&mut added)?;
            let ready = ready_compound(alloc, name.as_str(), arguments)?;
            Ok(ready)
        }
    }
}

// The compound of this name and these arguments, made ready; it may have too many.
fn ready_compound(alloc: Global, name: &str, arguments: Vec<Term>) -> Result<Ready, Memory>
    requires { 1 ≤ vec_len arguments }
    ensures { IfOk result (λ r. ready_as r ≡ ready_compound_tree name.now arguments.items) }
{
    if arguments.len() > 1024 {
        let formal = representation_error(alloc, "max_arity")?;
        return Ok(Ready::Throws(control_error(alloc, formal)?));
    }
    let goal = Term::comp(alloc, name, &arguments)?;
    let ready = make_ready(alloc, goal)?;
    Ok(ready)
}

// An error of control, which has no context.
fn control_error(alloc: Global, formal: Term) -> Result<Term, Memory>
    ensures { IfOk result (λ t. t ≡ control_error_of formal) }
{
    error(alloc, formal, Term::atom(alloc, "none")?)
}

// The error of a variable in the place of a goal or of a ball.
pub(crate) fn unbound_goal(alloc: Global) -> Result<Term, Memory>
    ensures { IfOk result (λ t. t ≡ unbound_goal_tree) }
{
    control_error(alloc, instantiation_error(alloc)?)
}

// The error of a term that is no goal.
fn not_callable(alloc: Global, culprit: Term) -> Result<Term, Memory>
    ensures { IfOk result (λ t. t ≡ not_callable_tree culprit) }
{
    control_error(alloc, type_error(alloc, "callable", culprit)?)
}

// The error of a list argument that is neither a variable nor a list.
pub(crate) fn not_list(alloc: Global, culprit: Term) -> Result<Term, Memory>
    ensures { IfOk result (λ t. t ≡ not_list_tree culprit) }
{
    control_error(alloc, type_error(alloc, "list", culprit)?)
}

// The error of a goal whose predicate is unknown.
pub(crate) fn unknown_predicate(alloc: Global, pi: &Pi) -> Result<Term, Memory>
    ensures { IfOk result (λ t. t ≡ unknown_predicate_of pi.now) }
{
    control_error(alloc, existence_error(alloc, pi)?)
}
