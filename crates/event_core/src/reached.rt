// The events of a query as far as a number of steps reaches.
ghost use Rattle.std.specs.Prelude.{◌≡◌, ◌<◌, ◌≤◌, min, ℕ, List as list, ◌++◌, false, length, All, None, [], IfOk, OnOk, MatchOption};
ghost use Rattle.solve_model.specs.Trace.{world_of};
ghost use Rattle.event_core.specs.declared.stop.Stop.{Stop as SpecStop};
ghost use Rattle.event_core.specs.Laws.{StaysInside, replying};
ghost use Rattle.event_core.specs.Names.{answer_term};
ghost use Rattle.event_core.specs.Reaching.{IsBegun, IsWhole, ReadsOn, rest_behind};
ghost use Rattle.event_core.specs.Readers.{ahead, listed, resumes, tells};
ghost use Rattle.event_core.specs.Standing.{chunk_of, spec_of};

use crate::event::Event;
use crate::names::names_told;
use crate::reader::Reader;
use crate::request::{Ask, Request};
use crate::rest::Rest;
use crate::settings::Settings;
use crate::stop::Stop;
use crate::stops::{Within, stops_within};
use program::Program;
use std::alloc::Global;
use std::collections::VecDeque;
use term_core::{List, Memory};

/// The first events of a query, as far as a number of steps reaches.
#[derive(Debug, Drop)]
pub struct Reached {
    /// Each event, with the steps that the query has made before it.
    pub events: List<(u64, Event)>,
    /// Where the query rests after these events; `None` where the steps are used up and the query goes on.
    pub rest: Option<Rest>,
}

// How many answers an event of a query holds.
fn first_chunk(settings: Settings, ask: &Ask) -> u32
    ensures { result ≡ chunk_of settings ask.now }
{
    if ask.chunk == 0 {
        settings.chunk
    } else {
        ask.chunk
    }
}

// Puts an event, where there is one, behind the others.
fn add(events: &mut List<(u64, Event)>, event: Option<(u64, Event)>) -> Result<(), Memory>
    ensures { OnOk result (events.new ≡ events.old ++ listed event) }
{
    if let Some(event) = event {
        events.push(event)?;
    }
    Ok(())
}

// Goes on with the requests as long as the reader rests and the next one fits, and leaves the others.
fn resume_on<'a>(
    alloc: Global,
    reader: &mut Reader,
    events: &mut List<(u64, Event)>,
    requests: &'a [Request],
) -> Result<&'a [Request], Memory>
    ensures brings { IfOk result (λ left. (qs : list (ℕ × SpecStop)) → tells events.old (ahead reader.old qs requests.now) ≡ tells events.new (ahead reader.new qs left.now)) }
    ensures rests { IfOk result (λ left. resumes reader.new.stand left.now ≡ false) }
    ensures names { IfOk result (λ left. reader.new.names ≡ reader.old.names) }
{
    let mut left = requests;
    while let Some((request, others)) = left.split_first() {
        if !reader.resumes(request) {
            return Ok(left);
        }
        add(events, reader.resume(alloc, request)?)?;
        left = others;
    }
    Ok(left)
}

// The events that these stops decide for these requests, each with its step, and where the query rests; none where it reads on.
fn read_stops(
    alloc: Global,
    reader: Reader,
    stops: VecDeque<(u64, Stop)>,
    requests: &[Request],
) -> Result<Reached, Memory>
    ensures { IfOk result (λ r. ReadsOn r.events r.rest reader.names (λ qs. ahead reader (stops.items ++ qs) requests.now)) }
{
    let mut reader = reader;
    let mut events = List::new(alloc);
    let mut left = resume_on(alloc, &mut reader, &mut events, requests)?;
    for (step, stop) in stops {
        if reader.rest().is_some() {
            break;
        }
        add(&mut events, reader.read(alloc, step, stop)?)?;
        left = resume_on(alloc, &mut reader, &mut events, left)?;
    }
    let rest = reader.rest();
    Ok(Reached { events, rest })
}

// Where a query rests whose stops end without a rest, unless it goes on behind them.
fn rest_behind(rest: Option<Rest>, goes_on: bool) -> Option<Rest>
    ensures { result ≡ rest_behind rest goes_on }
{
    match rest {
        Some(rest) => Some(rest),
        None if goes_on => None,
        None => Some(Rest::Prompting),
    }
}

/// The events of a query for these requests after its ask, as far as `steps` steps reach.
///
/// Where the query comes to a rest within that many steps, or within its limit, these are all its events and `rest` tells where it
/// rests. Otherwise `rest` is `None`: the steps are fewer than the limit, each further event comes after at least as many, and one
/// comes, unless a call reaches outside. Requests are read in order, as long as each fits at the rest before it.
pub fn reach(
    alloc: Global,
    program: &Program,
    settings: Settings,
    ask: &Ask,
    requests: &[Request],
    steps: u64,
) -> Result<Reached, Memory>
    ensures events { IfOk result (λ r.
        let part = (spec_of program.now settings).part ask.now requests.now in
        MatchOption r.rest ((steps < settings.limit) × IsBegun steps r.events part.events) (λ x. IsWhole part r.events x)) }
    ensures left { IfOk result (λ r.
        r.rest ≡ None → StaysInside (replying (world_of program.now [] settings.limit) requests.now) ask.now.goal (answer_term settings.names ask.now) →
        length r.events < length ((spec_of program.now settings).part ask.now requests.now).events) }
    ensures in_time { IfOk result (λ r. All (λ x. x.0 ≤ min steps settings.limit) r.events) }
{
    let names = names_told(alloc, settings.names, ask)?;
    let reader = Reader::new(alloc, first_chunk(settings, ask), names);
    let Within { stops, goes_on } = stops_within(alloc, program, settings, ask, requests, steps)?;
    let Reached { events, rest } = read_stops(alloc, reader, stops, requests)?;
    let rest = rest_behind(rest, goes_on);
    Ok(Reached { events, rest })
}
