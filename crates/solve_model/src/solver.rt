ghost use Rattle.std.specs.Prelude.{◌≡◌, List as list, IfOk};
ghost use Rattle.term_core.specs.Tree.{Tree};
ghost use Rattle.solve_model.specs.Run.{ends, query, start as start_of};
ghost use Rattle.solve_model.specs.Search.{end_of, place_of, traced_after, used_of, whole};
ghost use Rattle.solve_model.specs.Trace.{world_of, traced};

use crate::answers::{Trace, TraceEnd};
use crate::bindings::Bindings;
use crate::collecting::answer;
use crate::ready::{Ready, make_ready};
use crate::search::{Branch, End, Frame, Goal, Item, Now, Place, Scope, Search, Stack};
use crate::steps::{frame_step, item_step};
use crate::talk::{ask, tell};
use crate::work::Work;
use program::Program;
use std::alloc::Global;
use term_core::{List, Memory, Subst, Term};

/// What a query gives by depth-first resolution (ISO 13211-1, 7.7): its goal is run as by `call/1` over the program's clauses and the primitives of its application, with these replies to its prompts, for at most `n` steps.
///
/// The answers show the template; variables of goal and template with one number are one.
/// Besides what the terms' own calls refuse, `Memory` comes where the query would write more than `MAX_WORK` nodes.
pub fn trace(
    alloc: Global,
    p: &Program,
    goal: &Term,
    template: &Term,
    replies: &[Term],
    n: u64,
) -> Result<Trace, Memory>
    ensures { IfOk result (λ t. t ≡ traced template.now (query (world_of p.now replies.now n) goal.now template.now)) }
{
    let mut stack = Stack {
        frames: Vec::new(alloc),
        work: Work::new(),
    };
    let now = match make_ready(alloc, goal.copied(alloc)?)? {
        Ready::Throws(ball) => Now::Ends(End::Thrown(ball.numbered(alloc)?, 0)),
        Ready::Runs(term) => {
            let items = vec![in alloc;
                Item::Goal(Goal {
                    term,
                    scope: Scope {
                        level: 1,
                        more: false
                    }
                }),
            ]?;
            let place = start(alloc, goal, template)?;
            stack.frames.push(Frame::Cut(1))?;
            Now::Runs(Branch { items, place }, false)
        }
    };
    let search = Search {
        marks: List::new(alloc),
        steps: 0,
        replies: 0,
        stack,
    };
    let trace = run(alloc, p, template, replies, n, now, search)?;
    Ok(trace)
}

fn start(alloc: Global, goal: &Term, template: &Term) -> Result<Place, Memory>
    ensures { IfOk result (λ p. place_of p ≡ start_of goal.now template.now) }
{
    Ok(Place {
        subst: Bindings::new(alloc, Subst::new(alloc))?,
        next: goal.first_free()?.max(template.first_free()?),
        level: 2,
    })
}

// Runs what is left to its end.
fn run(
    alloc: Global,
    program: &Program,
    template: &Term,
    replies: &[Term],
    limit: u64,
    now: Now,
    search: Search,
) -> Result<Trace, Memory>
    ensures { IfOk result (λ t. t ≡ whole (world_of program.now replies.now limit) template.now now search) }
{
    let mut now = now;
    let mut search = search;
    for _ in 0..u64::MAX {
        now = match now {
            Now::Runs(branch, more) => {
                take(alloc, program, template, limit, branch, more, &mut search)?
            }
            Now::Tells(term, branch, more) => tell(term, branch, more, &mut search)?,
            Now::Asks(question) => ask(alloc, replies, question, &mut search)?,
            Now::Ends(end) => match search.stack.frames.pop() {
                None => return Ok(finished(search, end)),
                Some(frame) => frame_step(alloc, program, frame, end, &mut search.stack)?,
            },
        };
    }
    Err(Memory)
}

// An answer, or one item, where a step is left.
fn take(
    alloc: Global,
    program: &Program,
    template: &Term,
    limit: u64,
    branch: Branch,
    more: bool,
    search: &mut Search,
) -> Result<Now, Memory>
    ensures { IfOk result (λ n. (ts : list Tree) →
        let w = world_of program.now ts limit in
        whole w template.now n search.new ≡ whole w template.now (Now.Runs branch more) search.old) }
{
    let Branch { mut items, place } = branch;
    let Some(item) = items.pop() else {
        answer(alloc, template, &place.subst, more, search)?;
        return Ok(Now::Ends(End::Failed));
    };
    if search.steps >= limit {
        return Ok(Now::Ends(End::Spent));
    }
    search.steps += 1;
    let now = item_step(
        alloc,
        program,
        item,
        Branch { items, place },
        more,
        &mut search.stack,
    )?;
    Ok(now)
}

// The trace of a search that is over.
fn finished(search: Search, end: End) -> Trace
    ensures { (template : Tree) → result ≡ traced_after template search.marks (ends (end_of end) (used_of search.steps search.replies)) }
{
    let Search {
        marks,
        steps,
        replies,
        stack: _,
    } = search;
    let end = match end {
        End::Failed | End::Cut(_) => TraceEnd::Failed,
        End::Thrown(ball, _) => TraceEnd::Thrown(ball),
        End::Spent => TraceEnd::Spent,
        End::Waits => TraceEnd::Waits,
        End::Outside(pi) => TraceEnd::Outside(pi),
    };
    Trace {
        marks,
        steps,
        replies_used: replies as u64,
        end,
    }
}
