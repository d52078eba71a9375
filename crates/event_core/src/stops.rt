// The stops of a query, read from its trace.
ghost use Rattle.std.specs.Prelude.{◌≡◌, ◌<◌, ◌≤◌, ◌&&◌, ℕ, min, nat_lt, All, None, List as list, true, false, [], ◌∷◌, ◌++◌, IfOk, OnOk, if◌then◌else◌};
ghost use Rattle.solve_model.specs.Run.{query};
ghost use Rattle.solve_model.specs.Trace.{traced as traced_run, world_of};
ghost use Rattle.event_core.specs.declared.stop.Stop.TheVariants as stop;
ghost use Rattle.event_core.specs.Texts.{quoted};
ghost use Rattle.event_core.specs.Fits.{fits};
ghost use Rattle.event_core.specs.Stops.{is_followed, mark_stop, at_end, end_stop, stops_of, resource_error, stop_fits, cut_at, trace_stops, is_spent};
ghost use Rattle.event_core.specs.Names.{answer_term};
ghost use Rattle.event_core.specs.Parts.{replies};
ghost use Rattle.event_core.specs.Reaching.{IsBegun};
ghost use Rattle.event_core.specs.Standing.{stops_for};

use crate::names::answer_term;
use crate::request::{Ask, Request};
use crate::settings::Settings;
use crate::stop::Stop;
use crate::text::fits;
use program::Program;
use solve_model::{Trace, TraceEnd, TraceMark, trace};
use std::alloc::Global;
use std::collections::VecDeque;
use term_core::{List, Memory, Term};

// Whether something may follow.
fn goes_on(mark: &TraceMark) -> bool
    ensures { result ≡ is_followed mark.now }
{
    match mark {
        TraceMark::Answer { more, .. } => *more,
        TraceMark::Output(_) | TraceMark::Prompt(_) => true,
    }
}

fn stop_of_mark(alloc: Global, mark: TraceMark) -> Result<Stop, Memory>
    ensures { IfOk result (λ s. s ≡ mark_stop mark) }
{
    match mark {
        TraceMark::Answer { term, more } => Ok(Stop::Found(term.numbered(alloc)?, more)),
        TraceMark::Output(term) => Ok(Stop::Output(term.numbered(alloc)?)),
        TraceMark::Prompt(term) => Ok(Stop::Prompt(term.numbered(alloc)?)),
    }
}

fn stop_of_end(alloc: Global, end: TraceEnd) -> Result<Option<Stop>, Memory>
    ensures { IfOk result (λ s. s ≡ end_stop end) }
{
    match end {
        TraceEnd::Failed => Ok(Some(Stop::NoMore)),
        TraceEnd::Thrown(ball) => Ok(Some(Stop::Ball(ball.numbered(alloc)?))),
        TraceEnd::Waits => Ok(None),
        TraceEnd::Spent => Ok(Some(Stop::Limit)),
        TraceEnd::Outside(indicator) => Ok(Some(Stop::Outside(indicator))),
    }
}

// Whether the term of a stop fits an event, if it has one.
fn tells_what_fits(alloc: Global, told: &Stop) -> Result<bool, Memory>
    ensures { IfOk result (λ b. b ≡ stop_fits (fits quoted) told.now) }
{
    match told {
        Stop::Found(term, _) => fits(alloc, term),
        Stop::Output(term) | Stop::Prompt(term) | Stop::Ball(term) => fits(alloc, term),
        Stop::NoMore | Stop::Limit | Stop::Outside(_) => Ok(true),
    }
}

// The ball in place of a term that doesn't fit an event.
fn too_large(alloc: Global) -> Result<Stop, Memory>
    ensures { IfOk result (λ s. s ≡ stop.Ball resource_error) }
{
    let text = [Term::atom(alloc, "text")?];
    Ok(Stop::Ball(Term::comp(alloc, "resource_error", &text)?))
}

// Puts a stop behind the others, or the ball in its place; answers whether it fits.
fn add(
    alloc: Global,
    stops: &mut VecDeque<(u64, Stop)>,
    step: u64,
    told: Stop,
) -> Result<bool, Memory>
    ensures fits { IfOk result (λ b. b ≡ stop_fits (fits quoted) told) }
    ensures stops { IfOk result (λ b. stops.new.items ≡ stops.old.items ++ (step, (if b then told else stop.Ball resource_error)) ∷ []) }
{
    let fits = tells_what_fits(alloc, &told)?;
    let told = if fits { told } else { too_large(alloc)? };
    stops.push_back((step, told))?;
    Ok(fits)
}

// Puts the stop of a mark behind the others; answers whether another may follow.
fn add_mark(
    alloc: Global,
    stops: &mut VecDeque<(u64, Stop)>,
    step: u64,
    mark: TraceMark,
) -> Result<bool, Memory>
    ensures followed { IfOk result (λ b. b ≡ true → (ms : list (ℕ × TraceMark)) (end : list (ℕ × Stop)) → stops.new.items ++ cut_at (fits quoted) (stops_of ms end) ≡ stops.old.items ++ cut_at (fits quoted) (stops_of ((step, mark) ∷ ms) end)) }
    ensures last { IfOk result (λ b. b ≡ false → (ms : list (ℕ × TraceMark)) (end : list (ℕ × Stop)) → stops.new.items ≡ stops.old.items ++ cut_at (fits quoted) (stops_of ((step, mark) ∷ ms) end)) }
{
    let more = goes_on(&mark);
    let told = stop_of_mark(alloc, mark)?;
    let fits = add(alloc, stops, step, told)?;
    Ok(fits && more)
}

// Puts the stop of an end, where there is one, behind the others.
fn add_end(
    alloc: Global,
    stops: &mut VecDeque<(u64, Stop)>,
    step: u64,
    end: Option<Stop>,
) -> Result<(), Memory>
    ensures { OnOk result (stops.new.items ≡ stops.old.items ++ cut_at (fits quoted) (at_end step end)) }
{
    if let Some(told) = end {
        add(alloc, stops, step, told)?;
    }
    Ok(())
}

// Puts the stops of the marks behind the others; answers whether another may follow.
fn add_marks(
    alloc: Global,
    stops: &mut VecDeque<(u64, Stop)>,
    marks: List<(u64, TraceMark)>,
) -> Result<bool, Memory>
    ensures followed { IfOk result (λ b. b ≡ true → (end : list (ℕ × Stop)) → stops.new.items ++ cut_at (fits quoted) end ≡ stops.old.items ++ cut_at (fits quoted) (stops_of marks end)) }
    ensures last { IfOk result (λ b. b ≡ false → (end : list (ℕ × Stop)) → stops.new.items ≡ stops.old.items ++ cut_at (fits quoted) (stops_of marks end)) }
{
    for (step, mark) in marks.into_vec() {
        if !add_mark(alloc, stops, step, mark)? {
            return Ok(false);
        }
    }
    Ok(true)
}

// The stops of a trace, each with its step. Where the trace is cut off, the stop at its end is left out.
fn read_trace(alloc: Global, trace: Trace, is_cut: bool) -> Result<VecDeque<(u64, Stop)>, Memory>
    ensures { IfOk result (λ v. v.items ≡ cut_at (fits quoted) (stops_of trace.marks (at_end trace.steps (if is_cut then None else end_stop trace.end)))) }
{
    let Trace {
        marks,
        steps,
        end,
        ..
    } = trace;
    let end = if is_cut {
        None
    } else {
        stop_of_end(alloc, end)?
    };
    let mut stops = VecDeque::new(alloc);
    if add_marks(alloc, &mut stops, marks)? {
        add_end(alloc, &mut stops, steps, end)?;
    }
    Ok(stops)
}

// Puts the reply that a request brings, if it brings one, behind the others.
fn add_reply(alloc: Global, found: &mut Vec<Term>, request: &Request) -> Result<(), Memory>
    ensures { OnOk result (found.new.items ≡ found.old.items ++ replies (request.now ∷ [])) }
{
    if let Request::Respond(term) = request {
        found.push(term.copied(alloc)?)?;
    }
    Ok(())
}

// The replies that these requests bring.
fn replies_of(alloc: Global, requests: &[Request]) -> Result<Vec<Term>, Memory>
    ensures { IfOk result (λ v. v.items ≡ replies requests.now) }
{
    let mut found = Vec::new(alloc);
    for request in requests {
        add_reply(alloc, &mut found, request)?;
    }
    Ok(found)
}

// The trace of a query for so many steps, with the replies of these requests.
fn traced(
    alloc: Global,
    program: &Program,
    settings: Settings,
    ask: &Ask,
    requests: &[Request],
    limit: u64,
) -> Result<Trace, Memory>
    ensures { IfOk result (λ t. t ≡ traced_run (answer_term settings.names ask.now) (query (world_of program.now (replies requests.now) limit) ask.now.goal (answer_term settings.names ask.now))) }
{
    let replies = replies_of(alloc, requests)?;
    let answer = answer_term(alloc, settings.names, ask)?;
    trace(
        alloc,
        program,
        &ask.goal,
        &answer,
        replies.as_slice(),
        limit,
    )
}

// Whether a query that ended so after these steps goes on where it has its limit.
fn is_cut_off(end: &TraceEnd, steps: u64, limit: u64) -> bool
    ensures { result ≡ (nat_lt steps limit && is_spent end.now) }
{
    steps < limit && matches!(end, TraceEnd::Spent)
}

// The stops of a query as far as a number of steps reaches, and whether the query goes on behind them.
#[derive(Debug, Drop)]
pub(crate) struct Within {
    pub(crate) stops: VecDeque<(u64, Stop)>,
    pub(crate) goes_on: bool,
}

// The stops of a query as far as this many steps reach, with the replies of these requests.
pub(crate) fn stops_within(
    alloc: Global,
    program: &Program,
    settings: Settings,
    ask: &Ask,
    requests: &[Request],
    steps: u64,
) -> Result<Within, Memory>
    ensures whole { IfOk result (λ w. w.goes_on ≡ false → w.stops.items ≡ stops_for program.now settings ask.now requests.now) }
    ensures fewer { IfOk result (λ w. w.goes_on ≡ true → steps < settings.limit) }
    ensures begun { IfOk result (λ w. w.goes_on ≡ true → IsBegun steps w.stops.items (stops_for program.now settings ask.now requests.now)) }
    ensures in_time { IfOk result (λ w. All (λ s. s.0 ≤ min steps settings.limit) w.stops.items) }
{
    let limit = steps.min(settings.limit);
    let trace = traced(alloc, program, settings, ask, requests, limit)?;
    let goes_on = is_cut_off(&trace.end, steps, settings.limit);
    if goes_on && trace.steps < steps {
        // No run is cut off before it has made its steps.
        return Err(Memory);
    }
    let stops = read_trace(alloc, trace, goes_on)?;
    Ok(Within { stops, goes_on })
}
