// What a query tells its client, and what it asks.
ghost use Rattle.std.specs.Prelude.{◌≡◌, ℕ, ◌+◌, [], ◌∷◌, length, option_map, IfOk, IfSome};
ghost use Rattle.term_core.specs.Tree.{Tree};
ghost use Rattle.term_core.specs.Substitution.{apply};
ghost use Rattle.term_core.specs.Unifier.{mgu};
ghost use Rattle.term_core.specs.Variables.{variables};
ghost use Rattle.builtin_table.specs.Primitives.{copy};
ghost use Rattle.program.specs.Loaded.{Loaded};
ghost use Rattle.solve_model.specs.Run.{World, Used, Told, in_order, marked, offered, prompted, reply_offer};
ghost use Rattle.solve_model.specs.Search.{items_of, place_of, runs, whole, Leaves};
ghost use Rattle.solve_model.specs.Trace.{world_of};

use crate::answers::TraceMark;
use crate::results::Found;
use crate::search::{Branch, End, Now, Place, Search, Stack};
use std::alloc::Global;
use term_core::{Memory, Term};

// A prompt, the term that the reply is unified with, what is left to do then, and whether an alternative is left beside it.
#[derive(Drop)]
pub(crate) struct Question {
    pub(crate) prompt: Term,
    pub(crate) term: Term,
    pub(crate) rest: Branch,
    pub(crate) more: bool,
}

// pengine_output/1.
pub(crate) fn output(
    alloc: Global,
    term: &Term,
    rest: Branch,
    more: bool,
    stack: &mut Stack,
) -> Result<Now, Memory>
    ensures { IfOk result (λ n. (w : World) (u : Used) →
        Leaves w stack.old stack.new n u (marked (Told (apply rest.place.subst term.now)) u (runs w (items_of rest.items.items) (place_of rest.place) more u))) }
{
    let told = term.apply(alloc, rest.place.subst.subst())?;
    stack.work.spend(&told)?;
    Ok(Now::Tells(told, rest, more))
}

// pengine_input/2.
pub(crate) fn input(
    alloc: Global,
    prompt: &Term,
    term: Term,
    rest: Branch,
    more: bool,
    stack: &mut Stack,
) -> Result<Now, Memory>
    ensures { IfOk result (λ n. (w : World) (u : Used) →
        Leaves w stack.old stack.new n u (prompted w.replies (runs w) (apply rest.place.subst prompt.now) term (items_of rest.items.items) (place_of rest.place) more u)) }
{
    let prompt = prompt.apply(alloc, rest.place.subst.subst())?;
    stack.work.spend(&prompt)?;
    Ok(Now::Asks(Question {
        prompt,
        term,
        rest,
        more,
    }))
}

// Puts a term out.
pub(crate) fn tell(
    term: Term,
    branch: Branch,
    more: bool,
    search: &mut Search,
) -> Result<Now, Memory>
    ensures { IfOk result (λ n. (w : World) (template : Tree) → whole w template n search.new ≡ whole w template (Now.Tells term branch more) search.old) }
{
    search.marks.push((search.steps, TraceMark::Output(term)))?;
    Ok(Now::Runs(branch, more))
}

// Asks the question, and goes on with the next reply, or waits where none is left.
pub(crate) fn ask(
    alloc: Global,
    replies: &[Term],
    question: Question,
    search: &mut Search,
) -> Result<Now, Memory>
    ensures { IfOk result (λ n. (loaded : Loaded) (limit : ℕ) (template : Tree) →
        let w = world_of loaded replies.now limit in
        whole w template n search.new ≡ whole w template (Now.Asks question) search.old) }
{
    let Question {
        prompt,
        term,
        rest,
        more,
    } = question;
    search
        .marks
        .push((search.steps, TraceMark::Prompt(prompt)))?;
    let Some(reply) = replies.get(search.replies) else {
        return Ok(Now::Ends(End::Waits));
    };
    search.replies += 1;
    let now = take_reply(alloc, reply, term, rest, more, &mut search.stack)?;
    Ok(now)
}

// A copy of the reply, with new variables, is unified with the term.
fn take_reply(
    alloc: Global,
    reply: &Term,
    term: Term,
    rest: Branch,
    more: bool,
    stack: &mut Stack,
) -> Result<Now, Memory>
    ensures { IfOk result (λ n. (w : World) (u : Used) →
        Leaves w stack.old stack.new n u (in_order (runs w) (offered (reply_offer reply.now term rest.place.next ∷ []) (items_of rest.items.items) (place_of rest.place)) more u)) }
{
    stack.work.spend(reply)?;
    let Branch { items, place } = rest;
    let Some(found) = unified_reply(alloc, reply, term, &place)? else {
        return Ok(Now::Ends(End::Failed))
    };
    stack.work.spend_step(&place.subst, &found.subst, false)?;
    let Found { subst, next } = found;
    let place = Place {
        subst,
        next,
        level: place.level,
    };
    Ok(Now::Runs(Branch { items, place }, more))
}

// The unifier of a term and a copy of the reply, whose variables are new; and the next variable.
fn unified_reply(
    alloc: Global,
    reply: &Term,
    term: Term,
    place: &Place,
) -> Result<Option<Found>, Memory>
    ensures subst { IfOk result (λ r. option_map (λ f. f.subst) r ≡ mgu ((term, copy place.now.next reply.now) ∷ []) place.now.subst) }
    ensures next { IfOk result (λ r. IfSome r (λ f. f.next ≡ place.now.next + length (variables reply.now))) }
{
    let fresh = reply.variables(alloc)?.len() as u64;
    if place.next > u64::MAX - fresh {
        return Err(Memory);
    }
    let reply = reply.numbered(alloc)?.rename(alloc, place.next)?;
    let pairs = vec![in alloc; (term, reply)]?;
    let Some(subst) = place.subst.unified(alloc, &pairs)? else {
        return Ok(None)
    };
    Ok(Some(Found {
        subst,
        next: place.next + fresh,
    }))
}
