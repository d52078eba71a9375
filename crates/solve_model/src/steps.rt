// The steps of a search: what is left after an item, and after the end of a run.
ghost use Rattle.std.specs.Prelude.{◌≡◌, ℕ, List, IfOk};
ghost use Rattle.term_core.specs.Tree.{Tree};
ghost use Rattle.solve_model.specs.Goals.{row_of, settled};
ghost use Rattle.solve_model.specs.Run.{World, Used, at_catch, at_condition, goal_step as goal_step_run, item_step as item_step_run};
ghost use Rattle.solve_model.specs.Search.{place_of, items_of, item_of, end_of, recovers, run_of, runs, runs_branch, at_frame, Leaves};
ghost use Rattle.solve_model.specs.Trace.{world_of};

use crate::calls::{call, choose, take_result};
use crate::catches::{call_with, catch, recover, throw_term};
use crate::collecting::{find_all, gathered_step, group_all};
use crate::control::{branch_on, cut, differ, either, test};
use crate::goals::{Row, row_in};
use crate::items::with_goal;
use crate::search::{Branch, Catcher, Context, End, Frame, Goal, Item, Now, Stack};
use crate::talk::{input, output};
use prims_tree::Arrangement;
use program::Program;
use std::alloc::Global;
use term_core::Memory;

// One goal, by its row of the table of steps.
fn goal_step(
    alloc: Global,
    program: &Program,
    goal: Goal,
    rest: Branch,
    more: bool,
    stack: &mut Stack,
) -> Result<Now, Memory>
    ensures { IfOk result (λ n. (ts : List Tree) (limit : ℕ) (u : Used) →
        let w = world_of program.now ts limit in
        Leaves w stack.old stack.new n u (goal_step_run w (runs w) (settled w.outside goal.term (row_of goal.term)) goal.scope.level goal.scope.more (items_of rest.items.items) (place_of rest.place) more u)) }
{
    let Goal { term, scope } = goal;
    stack.work.spend(&term)?;
    match row_in(alloc, program, &term)? {
        Row::Succeeds => Ok(Now::Runs(rest, more)),
        Row::Fails => Ok(Now::Ends(End::Failed)),
        Row::Cuts => {
            let now = cut(scope, rest, stack)?;
            Ok(now)
        }
        Row::Both(first, second) => {
            let rest = with_goal(rest, second, scope)?;
            let branch = with_goal(rest, first, scope)?;
            Ok(Now::Runs(branch, more))
        }
        Row::Either(first, second) => {
            let now = either(alloc, first, second, Context { scope, rest, more }, stack)?;
            Ok(now)
        }
        Row::IfElse(condition, then, otherwise) => {
            let context = Context { scope, rest, more };
            let now = branch_on(alloc, condition, then, otherwise, context, stack)?;
            Ok(now)
        }
        Row::Test(condition, then, otherwise) => {
            let context = Context { scope, rest, more };
            let now = test(alloc, &condition, then, otherwise, context, stack)?;
            Ok(now)
        }
        Row::Differ(first, second) => {
            let now = differ(alloc, first, second, Context { scope, rest, more }, stack)?;
            Ok(now)
        }
        Row::Call(goal, added) => {
            let now = call_with(alloc, &goal, &added, rest, more, stack)?;
            Ok(now)
        }
        Row::Catch(goal, catching, recovery) => {
            let now = catch(alloc, &goal, catching, recovery, rest, more, stack)?;
            Ok(now)
        }
        Row::Throw(ball) => {
            let now = throw_term(alloc, &ball, &rest, stack)?;
            Ok(now)
        }
        Row::Output(told) => {
            let now = output(alloc, &told, rest, more, stack)?;
            Ok(now)
        }
        Row::Input(prompt, term) => {
            let now = input(alloc, &prompt, term, rest, more, stack)?;
            Ok(now)
        }
        Row::FindAll(template, goal, list) => {
            let now = find_all(alloc, template, &goal, list, rest, more, stack)?;
            Ok(now)
        }
        Row::BagOf(template, goal, list) => {
            let kind = Arrangement::AsFound;
            let now = group_all(alloc, kind, template, &goal, list, rest, more, stack)?;
            Ok(now)
        }
        Row::SetOf(template, goal, list) => {
            let kind = Arrangement::Sorted;
            let now = group_all(alloc, kind, template, &goal, list, rest, more, stack)?;
            Ok(now)
        }
        Row::Predicate => {
            let now = call(alloc, program, term, rest, more, stack)?;
            Ok(now)
        }
    }
}

// The first item, before the rest.
pub(crate) fn item_step(
    alloc: Global,
    program: &Program,
    item: Item,
    rest: Branch,
    more: bool,
    stack: &mut Stack,
) -> Result<Now, Memory>
    ensures { IfOk result (λ n. (ts : List Tree) (limit : ℕ) (u : Used) →
        let w = world_of program.now ts limit in
        Leaves w stack.old stack.new n u (item_step_run w (runs w) (item_of item) (items_of rest.items.items) (place_of rest.place) more u)) }
{
    match item {
        Item::Goal(goal) => {
            let now = goal_step(alloc, program, goal, rest, more, stack)?;
            Ok(now)
        }
        Item::Commit(scope) => {
            let now = cut(scope, rest, stack)?;
            Ok(now)
        }
        Item::ExitCatch(_level) => Ok(Now::Runs(rest, more)),
    }
}

// The end of a condition.
fn condition_step(branch: Branch, more: bool, end: End) -> Now
    ensures { (w : World) (u : Used) → run_of w result u ≡ at_condition branch.place.level (runs_branch w branch more) (end_of end) u }
{
    let level = branch.place.level;
    match end {
        End::Failed => Now::Runs(branch, more),
        End::Cut(to) => {
            if to > 0 && to - 1 == level {
                Now::Runs(branch, more)
            } else if to == level {
                Now::Ends(End::Failed)
            } else {
                Now::Ends(End::Cut(to))
            }
        }
        End::Thrown(ball, to) => Now::Ends(End::Thrown(ball, to)),
        End::Spent => Now::Ends(End::Spent),
        End::Waits => Now::Ends(End::Waits),
        End::Outside(pi) => Now::Ends(End::Outside(pi)),
    }
}

// The end of a goal under a catch.
fn catch_step(alloc: Global, catcher: Catcher, end: End, stack: &mut Stack) -> Result<Now, Memory>
    ensures { IfOk result (λ n. (w : World) (u : Used) → Leaves w stack.old stack.new n u (at_catch catcher.place.level (recovers w catcher) (end_of end) u)) }
{
    let level = catcher.place.level;
    match end {
        End::Cut(to) if to == level => Ok(Now::Ends(End::Failed)),
        End::Thrown(ball, to) if to == level => {
            let now = recover(alloc, catcher, ball, stack)?;
            Ok(now)
        }
        end => Ok(Now::Ends(end)),
    }
}

// What a frame does at an end.
pub(crate) fn frame_step(
    alloc: Global,
    program: &Program,
    frame: Frame,
    end: End,
    stack: &mut Stack,
) -> Result<Now, Memory>
    ensures { IfOk result (λ n. (ts : List Tree) (limit : ℕ) (u : Used) →
        let w = world_of program.now ts limit in
        Leaves w stack.old stack.new n u (at_frame w frame (end_of end) u)) }
{
    match (frame, end) {
        (Frame::Clauses(choice), End::Failed) => {
            let now = choose(alloc, program, choice, stack)?;
            Ok(now)
        }
        (Frame::Results(found, results), End::Failed) => {
            let now = take_result(alloc, found, results, stack)?;
            Ok(now)
        }
        (Frame::Other(branch, more), End::Failed) => Ok(Now::Runs(branch, more)),
        (Frame::Cut(level), End::Cut(to)) if to == level => Ok(Now::Ends(End::Failed)),
        (Frame::CutTo(level), End::Failed) => Ok(Now::Ends(End::Cut(level))),
        (Frame::CutTo(level), End::Cut(to)) => Ok(Now::Ends(End::Cut(level.min(to)))),
        (Frame::Condition(branch, more), end) => Ok(condition_step(branch, more, end)),
        (Frame::Catch(catcher), end) => {
            let now = catch_step(alloc, catcher, end, stack)?;
            Ok(now)
        }
        (Frame::Collect(collector), end) => {
            let now = gathered_step(alloc, collector, end, stack)?;
            Ok(now)
        }
        (_, end) => Ok(Now::Ends(end)),
    }
}
