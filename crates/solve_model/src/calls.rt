// Calls: of predicates by their clauses, of primitives, and of goals as by `call`.
ghost use Rattle.std.specs.Prelude.{◌≡◌, ℕ, ◌∷◌, List, IfOk};
ghost use Rattle.term_core.specs.Tree.{Tree};
ghost use Rattle.term_core.specs.Parts.{arguments_of};
ghost use Rattle.term_core.specs.Substitution.{apply};
ghost use Rattle.builtin_table.specs.Outside.{outside_in};
ghost use Rattle.builtin_table.specs.Taken.{primitive_in};
ghost use Rattle.program.specs.Clauses.{clauses_of};
ghost use Rattle.program.specs.Kept.{clause_of};
ghost use Rattle.solve_model.specs.Run.{World, Used, body_branch as body_branch_of, called as called_run, if_ready, in_order, locally as locally_run, offered, performed, throws as throws_run, undefined as undefined_run};
ghost use Rattle.prims_tree.specs.Outcomes.{outcome_of};
ghost use Rattle.solve_model.specs.Goals.{indicator_of};
ghost use Rattle.solve_model.specs.Rows.{ready_as};
ghost use Rattle.solve_model.specs.Search.{place_of, items_of, branch_of, chosen, runs, run_of, taken_results, Leaves};
ghost use Rattle.solve_model.specs.Trace.{world_of};

use crate::bindings::Bindings;
use crate::frames::push;
use crate::goals::indicator;
use crate::items::{catcher, copied_items, deeper, put_first, with_goal};
use crate::matching::next_match;
use crate::ready::{Ready, unknown_predicate};
use crate::results::{Found, Results, next_result};
use crate::search::{Branch, Choice, End, Frame, Goal, Item, Now, Place, Scope, Stack};
use builtin_table::{reaches_outside, takes};
use prims_tree::{Offers, Outcome};
use program::{Clause, Program};
use std::alloc::Global;
use term_core::{App, Memory, Pi, Term};

// A ball is thrown before these items: a copy of it.
pub(crate) fn throw(alloc: Global, ball: &Term, items: &[Item]) -> Result<Now, Memory>
    ensures { IfOk result (λ n. (w : World) (u : Used) → run_of w n u ≡ throws_run ball.now (items_of items.now) u) }
{
    let ball = ball.numbered(alloc)?;
    Ok(Now::Ends(End::Thrown(ball, catcher(items))))
}

// Runs a goal as by `call`: a cut in it stops here.
pub(crate) fn locally(
    goal: Term,
    rest: Branch,
    more: bool,
    stack: &mut Stack,
) -> Result<Now, Memory>
    ensures { IfOk result (λ n. (w : World) (u : Used) →
        Leaves w stack.old stack.new n u (locally_run (runs w) goal (items_of rest.items.items) (place_of rest.place) more u)) }
{
    let level = rest.place.level;
    let Branch { items, place } = with_goal(rest, goal, Scope { level, more })?;
    push(stack, Frame::Cut(level))?;
    let place = deeper(place, 1)?;
    Ok(Now::Runs(Branch { items, place }, more))
}

// Runs a goal as by `call` where it is ready, or throws.
pub(crate) fn call_ready(
    alloc: Global,
    ready: Ready,
    rest: Branch,
    more: bool,
    stack: &mut Stack,
) -> Result<Now, Memory>
    ensures { IfOk result (λ n. (w : World) (u : Used) →
        Leaves w stack.old stack.new n u (if_ready (ready_as ready) (items_of rest.items.items) u (λ g. locally_run (runs w) g (items_of rest.items.items) (place_of rest.place) more u))) }
{
    match ready {
        Ready::Throws(ball) => {
            let now = throw(alloc, &ball, &rest.items)?;
            Ok(now)
        }
        Ready::Runs(goal) => {
            let now = locally(goal, rest, more, stack)?;
            Ok(now)
        }
    }
}

// The clause's body before the items, under the substitution that its head gave.
fn body_branch(
    alloc: Global,
    clause: &Clause,
    items: Vec<Item>,
    place: &Place,
    more: bool,
    subst: Bindings,
) -> Result<Branch, Memory>
    ensures { IfOk result (λ b. branch_of b ≡ body_branch_of (clause_of clause.now) (items_of items.items) (place_of place.now) more subst) }
{
    if place.next > u64::MAX - clause.vars || place.level == u64::MAX {
        return Err(Memory);
    }
    let body = Goal {
        term: clause.body.rename(alloc, place.next)?,
        scope: Scope {
            level: place.level,
            more,
        },
    };
    let mut items = items;
    put_first(&mut items, Item::Goal(body))?;
    let place = Place {
        subst,
        next: place.next + clause.vars,
        level: place.level + 1,
    };
    Ok(Branch { items, place })
}

// Runs the first of a goal's alternatives. The others are left to the stack, from the next one that unifies on.
pub(crate) fn choose(
    alloc: Global,
    program: &Program,
    choice: Choice,
    stack: &mut Stack,
) -> Result<Now, Memory>
    ensures { IfOk result (λ n. (ts : List Tree) (limit : ℕ) (u : Used) →
        let w = world_of program.now ts limit in
        Leaves w stack.old stack.new n u (chosen w choice u)) }
{
    let clauses = program.clauses(&choice.pi);
    let Some(first) = next_match(alloc, clauses, &choice.goal, &choice.place, choice.from)? else {
        return Ok(Now::Ends(End::Failed));
    };
    match next_match(alloc, clauses, &choice.goal, &choice.place, first.at + 1)? {
        None => {
            let Choice {
                items,
                place,
                more,
                ..
            } = choice;
            stack.work.spend_step(&place.subst, &first.subst, false)?;
            let branch = body_branch(alloc, first.clause, items, &place, more, first.subst)?;
            Ok(Now::Runs(branch, more))
        }
        Some(second) => {
            stack
                .work
                .spend_step(&choice.place.subst, &first.subst, true)?;
            let items = copied_items(alloc, &choice.items, &mut stack.work)?;
            let branch = body_branch(
                alloc,
                first.clause,
                items,
                &choice.place,
                choice.more,
                first.subst,
            )?;
            let others = Choice {
                from: second.at,
                ..choice
            };
            push(stack, Frame::Clauses(others))?;
            Ok(Now::Runs(branch, true))
        }
    }
}

// Runs a result of a primitive. Those that are left, from the next one that unifies on, are left to the stack.
pub(crate) fn take_result(
    alloc: Global,
    found: Found,
    results: Results,
    stack: &mut Stack,
) -> Result<Now, Memory>
    ensures { IfOk result (λ n. (w : World) (u : Used) → Leaves w stack.old stack.new n u (taken_results w found results u)) }
{
    let Results {
        mut offers,
        items,
        place,
        more,
    } = results;
    match next_result(alloc, &mut offers, &place)? {
        None => {
            stack.work.spend_step(&place.subst, &found.subst, false)?;
            let branch = found_branch(found, items, place.level);
            Ok(Now::Runs(branch, more))
        }
        Some(next) => {
            stack.work.spend_step(&place.subst, &found.subst, true)?;
            let copies = copied_items(alloc, &items, &mut stack.work)?;
            let branch = found_branch(found, copies, place.level);
            let others = Results {
                offers,
                items,
                place,
                more,
            };
            push(stack, Frame::Results(next, others))?;
            Ok(Now::Runs(branch, true))
        }
    }
}

// What is left to do after a primitive, under the substitution of its result.
fn found_branch(found: Found, items: Vec<Item>, level: u64) -> Branch
    ensures items { result.items.items ≡ items.items }
    ensures place { result.place ≡ record { subst = found.subst; next = found.next; level = level } }
{
    let Found { subst, next } = found;
    Branch {
        items,
        place: Place { subst, next, level },
    }
}

// Results are alternatives.
pub(crate) fn take_results(
    alloc: Global,
    offers: Offers,
    rest: Branch,
    more: bool,
    stack: &mut Stack,
) -> Result<Now, Memory>
    ensures { IfOk result (λ n. (w : World) (u : Used) →
        Leaves w stack.old stack.new n u (in_order (runs w) (offered offers (items_of rest.items.items) (place_of rest.place)) more u)) }
{
    let Branch { items, place } = rest;
    let mut offers = offers;
    match next_result(alloc, &mut offers, &place)? {
        None => Ok(Now::Ends(End::Failed)),
        Some(found) => {
            let results = Results {
                offers,
                items,
                place,
                more,
            };
            let now = take_result(alloc, found, results, stack)?;
            Ok(now)
        }
    }
}

// A predicate that has no clause and is no primitive: it reaches outside, or it is unknown.
fn undefined(alloc: Global, outside: bool, pi: &Pi, items: &[Item]) -> Result<Now, Memory>
    ensures { IfOk result (λ n. (w : World) (u : Used) → run_of w n u ≡ undefined_run outside pi.now (items_of items.now) u) }
{
    if outside {
        return Ok(Now::Ends(End::Outside(pi.copied(alloc)?)));
    }
    let now = throw(alloc, &unknown_predicate(alloc, pi)?, items)?;
    Ok(now)
}

// What the primitive of an application gives for these arguments.
#[tactic(auto, unfolding(builtin_table::specs::Taken::primitive_in))]
fn primitive(
    alloc: Global,
    app: App,
    pi: &Pi,
    arguments: &[Term],
    next: u64,
) -> Result<Outcome, Memory>
    ensures { IfOk result (λ o. outcome_of o ≡ primitive_in app pi.now arguments.now next) }
{
    if takes(app, pi) {
        let outcome = prims_tree::call(alloc, pi.name.as_str(), arguments, next)?;
        Ok(outcome)
    } else {
        Ok(Outcome::Unknown)
    }
}

// A goal that no clause is for: a primitive, or an undefined predicate.
fn perform(
    alloc: Global,
    app: App,
    pi: &Pi,
    goal: &Term,
    rest: Branch,
    more: bool,
    stack: &mut Stack,
) -> Result<Now, Memory>
    ensures { IfOk result (λ n. (w : World) (u : Used) →
        Leaves w stack.old stack.new n u (performed (runs w) (primitive_in app pi.now (arguments_of (apply rest.place.subst goal.now)) rest.place.next) (outside_in app pi.now) pi.now (items_of rest.items.items) (place_of rest.place) more u)) }
{
    let goal = goal.apply(alloc, rest.place.subst.subst())?;
    stack.work.spend(&goal)?;
    let arguments = goal.arguments(alloc)?;
    match primitive(alloc, app, pi, &arguments, rest.place.next)? {
        Outcome::Offers(offers) => {
            let now = take_results(alloc, offers, rest, more, stack)?;
            Ok(now)
        }
        Outcome::Ball(ball) => {
            let now = throw(alloc, &ball, &rest.items)?;
            Ok(now)
        }
        Outcome::Unknown => {
            let now = undefined(alloc, reaches_outside(app, pi), pi, &rest.items)?;
            Ok(now)
        }
    }
}

// A call of a predicate: its clauses are the alternatives, and a cut stops here. One that has no clause is a primitive or unknown.
pub(crate) fn call(
    alloc: Global,
    program: &Program,
    goal: Term,
    rest: Branch,
    more: bool,
    stack: &mut Stack,
) -> Result<Now, Memory>
    ensures { IfOk result (λ n. (ts : List Tree) (limit : ℕ) (u : Used) →
        let w = world_of program.now ts limit in
        Leaves w stack.old stack.new n u (called_run w (runs w) (clauses_of (indicator_of goal) program.now.clauses) (indicator_of goal) goal (items_of rest.items.items) (place_of rest.place) more u)) }
{
    let pi = indicator(alloc, &goal)?;
    if program.clauses(&pi).is_empty() {
        let now = perform(alloc, program.app(), &pi, &goal, rest, more, stack)?;
        return Ok(now);
    }
    let Branch { items, place } = rest;
    push(stack, Frame::Cut(place.level))?;
    let choice = Choice {
        pi,
        goal,
        items,
        place,
        more,
        from: 0,
    };
    let now = choose(alloc, program, choice, stack)?;
    Ok(now)
}
