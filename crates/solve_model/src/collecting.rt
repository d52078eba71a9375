// findall/3, bagof/3 and setof/3: a goal is run alone, and its solutions are gathered.
ghost use Rattle.std.specs.Prelude.{◌≡◌, Bool, IfOk, OnOk, IfSome, IfNone};
ghost use Rattle.term_core.specs.Substitution.{apply};
ghost use Rattle.builtin_table.specs.Solutions.{may_be_list as may_be_list_tree, witness as witness_of, witnessed as witnessed_tree};
ghost use Rattle.solve_model.specs.Collecting.{grouping, offers_by};
ghost use Rattle.solve_model.specs.Run.{World, Used, Ran, Answered, Failed, all_grouped, alone, collected, found_all, marked};
ghost use Rattle.solve_model.specs.Dropping.{IsInnermost, NoneCollect};
ghost use Rattle.solve_model.specs.Search.{at_frame, end_of, gathered_by, items_of, place_of, resumed, runs, traced_after, used_of, Leaves};

use crate::answers::TraceMark;
use crate::bindings::Bindings;
use crate::calls::{take_results, throw};
use crate::frames::push;
use crate::items::catcher;
use crate::ready::{Ready, make_ready, not_list};
use crate::search::{Branch, End, Frame, Goal, Item, Now, Place, Scope, Search, Stack};
use crate::solutions::{Collection, offers, witness};
use crate::work::Work;
use prims_tree::{Arrangement, may_be_list};
use std::alloc::Global;
use term_core::{Memory, Term};

// A run whose solutions are gathered: what is shown of each and what becomes of them, the copies so far and the next variable after them, what is left to do and where, and whether an alternative is left beside it.
#[derive(Drop)]
pub(crate) struct Collector {
    pub(crate) template: Term,
    pub(crate) collection: Collection,
    pub(crate) copies: Vec<Term>,
    pub(crate) next: u64,
    pub(crate) rest: Branch,
    pub(crate) more: bool,
}

// findall/3: the list is tested first.
pub(crate) fn find_all(
    alloc: Global,
    template: Term,
    goal: &Term,
    list: Term,
    rest: Branch,
    more: bool,
    stack: &mut Stack,
) -> Result<Now, Memory>
    ensures { IfOk result (λ n. (w : World) (u : Used) →
        Leaves w stack.old stack.new n u (found_all (runs w) (may_be_list_tree (apply rest.place.subst list)) template goal.now list (items_of rest.items.items) (place_of rest.place) more u)) }
{
    let applied = list.apply(alloc, rest.place.subst.subst())?;
    stack.work.spend(&applied)?;
    if !may_be_list(alloc, &applied)? {
        let now = throw(alloc, &not_list(alloc, applied)?, &rest.items)?;
        return Ok(now);
    }
    let goal = goal.apply(alloc, rest.place.subst.subst())?;
    stack.work.spend(&goal)?;
    let now = collect(
        alloc,
        goal,
        template,
        Collection::All(list),
        rest,
        more,
        stack,
    )?;
    Ok(now)
}

// bagof/3 and setof/3: the free variables and the results are gathered together.
pub(crate) fn group_all(
    alloc: Global,
    arrangement: Arrangement,
    template: Term,
    goal: &Term,
    list: Term,
    rest: Branch,
    more: bool,
    stack: &mut Stack,
) -> Result<Now, Memory>
    ensures { IfOk result (λ n. (w : World) (u : Used) →
        let g = apply rest.place.subst goal.now in
        Leaves w stack.old stack.new n u (all_grouped (runs w) (grouping arrangement) template g (witness_of (apply rest.place.subst template) g) list (items_of rest.items.items) (place_of rest.place) more u)) }
{
    let goal = goal.apply(alloc, rest.place.subst.subst())?;
    stack.work.spend(&goal)?;
    let applied = template.apply(alloc, rest.place.subst.subst())?;
    stack.work.spend(&applied)?;
    let (free, goal) = witness(alloc, &applied, &goal)?;
    let template = witnessed(alloc, free.copied(alloc)?, template)?;
    let collection = Collection::Groups(arrangement, free, list);
    let now = collect(alloc, goal, template, collection, rest, more, stack)?;
    Ok(now)
}

// W-T, of which copies are gathered.
fn witnessed(alloc: Global, free: Term, template: Term) -> Result<Term, Memory>
    ensures { IfOk result (λ t. t ≡ witnessed_tree free template) }
{
    Term::comp(alloc, "-", &vec![in alloc; free, template]?)
}

// Gathers the solutions of a goal, which is made ready first.
fn collect(
    alloc: Global,
    goal: Term,
    template: Term,
    collection: Collection,
    rest: Branch,
    more: bool,
    stack: &mut Stack,
) -> Result<Now, Memory>
    ensures { IfOk result (λ n. (w : World) (u : Used) →
        Leaves w stack.old stack.new n u (collected (runs w) goal template (offers_by collection) (items_of rest.items.items) (place_of rest.place) more u)) }
{
    match make_ready(alloc, goal)? {
        Ready::Throws(ball) => {
            let now = throw(alloc, &ball, &rest.items)?;
            Ok(now)
        }
        Ready::Runs(goal) => {
            let collector = Collector {
                template,
                collection,
                copies: Vec::new(alloc),
                next: rest.place.next,
                rest,
                more,
            };
            let now = run_alone(alloc, goal, collector, stack)?;
            Ok(now)
        }
    }
}

// Runs a goal alone, with levels of its own, for a collector.
fn run_alone(
    alloc: Global,
    goal: Term,
    collector: Collector,
    stack: &mut Stack,
) -> Result<Now, Memory>
    ensures { IfOk result (λ n. (w : World) (u : Used) →
        Leaves w stack.old stack.new n u (gathered_by w collector (alone (runs w) goal (place_of collector.rest.place) u))) }
{
    let place = Place {
        subst: collector.rest.place.subst.shared()?,
        next: collector.rest.place.next,
        level: 2,
    };
    let scope = Scope {
        level: 1,
        more: false,
    };
    let items = vec![in alloc; Item::Goal(Goal { term: goal, scope })]?;
    push(stack, Frame::Collect(collector))?;
    push(stack, Frame::Cut(1))?;
    Ok(Now::Runs(Branch { items, place }, false))
}

// ---- answers

// The place of the innermost collector among the frames.
fn innermost(frames: &[Frame]) -> Option<usize>
    ensures some { IfSome result (λ i. IsInnermost i frames.now) }
    ensures none { IfNone result (NoneCollect frames.now) }
{
    for i in 0..frames.len() {
        let at = frames.len() - 1 - i;
        if let Frame::Collect(_) = &frames[at] {
            return Some(at);
        }
    }
    None
}

// An answer: the innermost collector takes it, or else the trace shows it.
pub(crate) fn answer(
    alloc: Global,
    template: &Term,
    subst: &Bindings,
    more: bool,
    search: &mut Search,
) -> Result<(), Memory>
    ensures steps { OnOk result (search.new.steps ≡ search.old.steps) }
    ensures replies { OnOk result (search.new.replies ≡ search.old.replies) }
    ensures answer { OnOk result ((w : World) (r : Ran) →
        traced_after template.now search.new.marks (resumed w search.new.stack.frames.items r) ≡ traced_after template.now search.old.marks (resumed w search.old.stack.frames.items (marked (Answered subst.now more) (used_of search.old.steps search.old.replies) r))) }
{
    match innermost(&search.stack.frames) {
        Some(at) => {
            gather(alloc, subst, at, &mut search.stack)?;
            Ok(())
        }
        None => {
            let term = template.apply(alloc, subst.subst())?;
            search
                .marks
                .push((search.steps, TraceMark::Answer { term, more }))?;
            Ok(())
        }
    }
}

// The collector at this place, the innermost, takes an answer.
fn gather(alloc: Global, subst: &Bindings, at: usize, stack: &mut Stack) -> Result<(), Memory>
    requires { IsInnermost at stack.old.frames.items }
    ensures { OnOk result ((w : World) (more : Bool) (u : Used) (r : Ran) →
        resumed w stack.new.frames.items r ≡ resumed w stack.old.frames.items (marked (Answered subst.now more) u r)) }
{
    if let Frame::Collect(collector) = &mut stack.frames[at] {
        take_copy(alloc, subst, collector, &mut stack.work)?;
    }
    Ok(())
}

// One more copy of the template, which takes the next variables.
fn take_copy(
    alloc: Global,
    subst: &Bindings,
    collector: &mut Collector,
    work: &mut Work,
) -> Result<(), Memory>
    ensures { OnOk result ((w : World) (more : Bool) (u : Used) (r : Ran) →
        gathered_by w collector.new r ≡ gathered_by w collector.old (marked (Answered subst.now more) u r)) }
{
    let solution = collector
        .template
        .apply(alloc, subst.subst())?
        .numbered(alloc)?;
    work.spend(&solution)?;
    let fresh = solution.first_free()?;
    if collector.next > u64::MAX - fresh {
        return Err(Memory);
    }
    collector
        .copies
        .push(solution.rename(alloc, collector.next)?)?;
    collector.next += fresh;
    Ok(())
}

// ---- the end

// The end of a run whose solutions are gathered.
pub(crate) fn gathered_step(
    alloc: Global,
    collector: Collector,
    end: End,
    stack: &mut Stack,
) -> Result<Now, Memory>
    ensures { IfOk result (λ n. (w : World) (u : Used) → Leaves w stack.old stack.new n u (at_frame w (Frame.Collect collector) (end_of end) u)) }
{
    match end {
        End::Failed => {
            let now = try_offers(alloc, collector, stack)?;
            Ok(now)
        }
        End::Thrown(ball, level) => {
            let level = if level == 0 {
                catcher(&collector.rest.items)
            } else {
                level
            };
            Ok(Now::Ends(End::Thrown(ball, level)))
        }
        end => Ok(Now::Ends(end)),
    }
}

// What the copies offer is tried in order.
fn try_offers(alloc: Global, collector: Collector, stack: &mut Stack) -> Result<Now, Memory>
    ensures { IfOk result (λ n. (w : World) (u : Used) → Leaves w stack.old stack.new n u (at_frame w (Frame.Collect collector) Failed u)) }
{
    let Collector {
        template: _,
        collection,
        copies,
        next,
        rest,
        more,
    } = collector;
    let offers = offers(alloc, collection, &copies, &mut stack.work)?;
    let Branch { items, place } = rest;
    let Place {
        subst,
        next: _,
        level,
    } = place;
    let place = Place { subst, next, level };
    let now = take_results(alloc, offers, Branch { items, place }, more, stack)?;
    Ok(now)
}
