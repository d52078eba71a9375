// Whether the body of a clause hands on the goals that the clause was given.
ghost use Rattle.std.specs.Prelude.{◌≡◌, map, IfOk};
ghost use Rattle.sandbox_walk.specs.Keeping.{has_goal as has_goal_of, is_goal as is_goal_of, hands_argument as hands_argument_of, hands_arguments as hands_arguments_of, hands_on as hands_on_of};
ghost use Rattle.library_check.specs.Bodies.{is_given as is_given_by, left_hands_on};
ghost use Rattle.sandbox_walk.specs.Shown.{declared_kind};

use crate::indicators::{has_parts, indicator};
use crate::metas::run_metas;
use crate::tables::is_known;
use builtin_table::Table;
use std::alloc::Global;
use term_core::{Memory, Node, Term};

// The arguments of a clause's head, and where these are run.
#[derive(Debug, Drop)]
pub(crate) struct Given {
    pub(crate) arguments: Vec<Term>,
    pub(crate) metas: Vec<i8>,
}

// Whether the body calls known predicates alone, and hands them nothing as a goal but what the clause was given as one.
pub(crate) fn hands_on(
    alloc: Global,
    table: &Table,
    given: &Given,
    body: &Term,
) -> Result<bool, Memory>
    ensures { IfOk result (λ b. b ≡ hands_on_of table.now (is_given_by given.now) body.now) }
{
    let mut bodies = vec![in alloc; body.copied(alloc)?]?;
    for _ in 0..u64::MAX {
        let Some(body) = bodies.pop() else {
            return Ok(true);
        };
        let Some(mut more) = bodies_left(alloc, table, given, &body)? else {
            return Ok(false);
        };
        bodies.append(&mut more)?;
    }
    Err(Memory)
}

// The bodies that a body is made of; nothing where its literal doesn't hand on.
fn bodies_left(
    alloc: Global,
    table: &Table,
    given: &Given,
    body: &Term,
) -> Result<Option<Vec<Term>>, Memory>
    ensures { IfOk result (λ o. left_hands_on table.now given.now o ≡ hands_on_of table.now (is_given_by given.now) body.now) }
{
    let Some(pi) = indicator(alloc, body)? else {
        return Ok(None);
    };
    if !is_known(&pi) {
        return Ok(None);
    }
    let args = body.arguments(alloc)?;
    if has_parts(&pi) {
        return Ok(Some(args));
    }
    let metas = run_metas(alloc, table, &pi)?;
    if !hands_arguments(given, &args, &metas) {
        return Ok(None);
    }
    Ok(Some(Vec::new(alloc)))
}

fn hands_arguments(given: &Given, args: &[Term], metas: &[i8]) -> bool
    ensures { result ≡ hands_arguments_of (is_given_by given.now) args.now (map declared_kind metas.now) }
{
    for i in 0..args.len().min(metas.len()) {
        if !hands_argument(given, &args[i], metas[i]) {
            return false;
        }
    }
    true
}

// Whether the argument is no goal, or a variable that the clause was given as a goal of the same kind.
fn hands_argument(given: &Given, argument: &Term, meta: i8) -> bool
    ensures { result ≡ hands_argument_of (is_given_by given.now) argument.now (declared_kind meta) }
{
    if meta < 0 {
        return true;
    }
    match argument.symbol() {
        Node::Var(number) => {
            meta != 8 && has_goal(&given.arguments, &given.metas, *number, meta as u32)
        }
        Node::Int(_) | Node::Atom(_) | Node::Comp(_, _) => false,
    }
}

// Whether the variable is one of the arguments, as a goal to which so many arguments are added.
fn has_goal(args: &[Term], metas: &[i8], number: u64, added: u32) -> bool
    ensures { result ≡ has_goal_of args.now (map declared_kind metas.now) number added }
{
    for i in 0..args.len().min(metas.len()) {
        if is_goal(&args[i], metas[i], number, added) {
            return true;
        }
    }
    false
}

fn is_goal(argument: &Term, meta: i8, number: u64, added: u32) -> bool
    ensures { result ≡ is_goal_of argument.now (declared_kind meta) number added }
{
    match argument.symbol() {
        Node::Var(variable) => {
            *variable == number && meta >= 0 && meta != 8 && meta as u32 == added
        }
        Node::Int(_) | Node::Atom(_) | Node::Comp(_, _) => false,
    }
}
