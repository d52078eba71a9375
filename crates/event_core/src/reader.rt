// The events of a query, read from its stops one at a time.
ghost use Rattle.std.specs.Prelude.{◌≡◌, ℕ, List as list, Option as option, true, [], ◌∷◌, ◌++◌, None, Some, IfOk};
ghost use Rattle.event_core.specs.declared.reader.Stand.TheVariants.{Reading, Paused};
ghost use Rattle.event_core.specs.declared.event.Event.{Event as SpecEvent};
ghost use Rattle.event_core.specs.declared.event.Event.TheVariants as event;
ghost use Rattle.event_core.specs.declared.request.Request.{Request as SpecRequest};
ghost use Rattle.event_core.specs.declared.stop.Stop.{Stop as SpecStop};
ghost use Rattle.event_core.specs.Readers.{after_stop, after_fitting, answered, failed, listed, moves, rest_of, is_fitting, style_with, ahead, tells, HasGiven};

use crate::chunk::Chunk;
use crate::event::Event;
use crate::fit::{Fit, fit_of};
use crate::request::Request;
use crate::rest::Rest;
use crate::stop::Stop;
use std::alloc::Global;
use std::mem;
use term_core::{List, Memory, Name, Term};

// Where a reader stands.
#[derive(Debug, Drop)]
pub(crate) enum Stand {
    // It reads stops, and holds an open chunk.
    Reading(Chunk),
    // It rests until a `next`; a late stop, with its step, waits for it.
    Paused(Option<(u64, Stop)>),
    // It rests until a `respond`.
    Waiting,
    // The query has ended.
    Done,
}

// Where a reader stands after a stop, and the event that the stop brings, with its step.
#[derive(Debug, Drop)]
pub(crate) struct Moved {
    pub(crate) stand: Stand,
    pub(crate) event: Option<(u64, Event)>,
}

/// Reads the events of a query from its stops, one at a time; between two stops it keeps the open chunk, and between two
/// requests the late stop that waits behind a chunk.
#[derive(Debug, Drop)]
pub struct Reader {
    chunk: u32,
    names: Option<List<Name>>,
    stand: Stand,
}

// The same names again.
fn copies(alloc: Global, names: &[Name]) -> Result<List<Name>, Memory>
    ensures { IfOk result (λ ns. ns ≡ names.now) }
{
    let mut all = List::new(alloc);
    for name in names {
        all.push(name.copied(alloc)?)?;
    }
    Ok(all)
}

// The names again, if there are names.
fn names_again(alloc: Global, names: &Option<List<Name>>) -> Result<Option<List<Name>>, Memory>
    ensures { IfOk result (λ ns. ns ≡ names.now) }
{
    match names {
        Some(names) => Ok(Some(copies(alloc, names.as_slice())?)),
        None => Ok(None),
    }
}

// The event of these answers.
fn success(
    alloc: Global,
    names: &Option<List<Name>>,
    held: Chunk,
    more: bool,
) -> Result<Event, Memory>
    ensures { IfOk result (λ e. e ≡ event.Success held names.now more) }
{
    let names = names_again(alloc, names)?;
    let answers = held.into_answers();
    Ok(Event::Success {
        answers,
        names,
        more,
    })
}

fn moves(stand: Stand, step: u64, event: Event) -> Moved
    ensures { result ≡ moves stand (Some (step, event)) }
{
    Moved {
        stand,
        event: Some((step, event)),
    }
}

impl Reader {
    /// A reader before the first stop of a query, whose events hold `chunk` answers and these names.
    pub fn new(alloc: Global, chunk: u32, names: Option<List<Name>>) -> Reader
        ensures stands { result ≡ record { chunk = chunk; names = names; stand = Reading [] } }
        ensures given { HasGiven names chunk [] [] [] result }
    {
        Reader {
            chunk,
            names,
            stand: Stand::Reading(Chunk::new(alloc)),
        }
    }

    /// Where the query rests; `None` while stops are to be read.
    pub fn rest(&self) -> Option<Rest>
        ensures { result ≡ rest_of self.now.stand }
    {
        match &self.stand {
            Stand::Reading(_) => None,
            Stand::Paused(_) => Some(Rest::More),
            Stand::Waiting => Some(Rest::Prompting),
            Stand::Done => Some(Rest::Over),
        }
    }

    /// Whether the reader rests and the request fits so that the query goes on.
    pub fn resumes(&self, request: &Request) -> bool
        ensures { result ≡ is_fitting self.now.stand request.now }
    {
        match self.rest() {
            None => false,
            Some(rest) => matches!(fit_of(rest, request), Fit::GoesOn),
        }
    }

    // An answer joins the open chunk, which is closed where it is the last answer or the chunk is full.
    fn answer(&self, alloc: Global, step: u64, held: Chunk, more: bool) -> Result<Moved, Memory>
        ensures { IfOk result (λ m. m ≡ answered (style_with self.now.names) self.now.chunk step held more) }
    {
        if !more {
            let event = success(alloc, &self.names, held, false)?;
            return Ok(moves(Stand::Done, step, event));
        }
        if held.is_full(self.chunk) {
            let event = success(alloc, &self.names, held, true)?;
            return Ok(moves(Stand::Paused(None), step, event));
        }
        Ok(Moved {
            stand: Stand::Reading(held),
            event: None,
        })
    }

    // What comes of a query without a further answer.
    fn fail(&self, alloc: Global, step: u64, held: Chunk) -> Result<Moved, Memory>
        ensures { IfOk result (λ m. m ≡ failed (style_with self.now.names) step held) }
    {
        let event = if held.is_empty() {
            Event::Failure
        } else {
            success(alloc, &self.names, held, false)?
        };
        Ok(moves(Stand::Done, step, event))
    }

    // A late stop closes the chunk, and waits.
    fn wait(&self, alloc: Global, step: u64, stop: Stop, held: Chunk) -> Result<Moved, Memory>
        ensures { IfOk result (λ m. m ≡ moves (Paused (Some (step, stop))) (Some (step, event.Success held self.now.names true))) }
    {
        let event = success(alloc, &self.names, held, true)?;
        Ok(moves(Stand::Paused(Some((step, stop))), step, event))
    }

    // What a stop does to an open chunk.
    fn after_stop(&self, alloc: Global, step: u64, stop: Stop, held: Chunk) -> Result<Moved, Memory>
        ensures { IfOk result (λ m. m ≡ after_stop (style_with self.now.names) self.now.chunk step stop held) }
    {
        let is_open = !held.is_empty();
        match stop {
            Stop::Found(term, more) => {
                let held = held.with(alloc, term)?;
                self.answer(alloc, step, held, more)
            }
            Stop::Output(term) => Ok(moves(Stand::Reading(held), step, Event::Output(term))),
            Stop::NoMore => self.fail(alloc, step, held),
            Stop::Outside(_) => Ok(Moved {
                stand: Stand::Done,
                event: None,
            }),
            Stop::Prompt(term) if !is_open => {
                Ok(moves(Stand::Waiting, step, Event::Prompt(term)))
            }
            Stop::Ball(ball) if !is_open => Ok(moves(Stand::Done, step, Event::Error(ball))),
            Stop::Limit if !is_open => Ok(moves(Stand::Done, step, Event::Limit)),
            late => self.wait(alloc, step, late, held),
        }
    }

    // What a request that fits does.
    fn after_fitting(&self, alloc: Global, stand: Stand) -> Result<Moved, Memory>
        ensures { IfOk result (λ m. m ≡ after_fitting (style_with self.now.names) self.now.chunk stand) }
    {
        let held = Chunk::new(alloc);
        match stand {
            Stand::Paused(Some((step, stop))) => self.after_stop(alloc, step, stop, held),
            Stand::Paused(None) | Stand::Waiting | Stand::Reading(_) | Stand::Done => Ok(Moved {
                stand: Stand::Reading(held),
                event: None,
            }),
        }
    }

    /// Reads one stop more, and gives the event that it brings, if it brings one, with its step. After want of memory the
    /// reader has ended.
    pub fn read(
        &mut self,
        alloc: Global,
        step: u64,
        stop: Stop,
    ) -> Result<Option<(u64, Event)>, Memory>
        requires reads { rest_of self.old.stand ≡ None }
        ensures brings { IfOk result (λ e. (qs : list (ℕ × SpecStop)) (more : list SpecRequest) → ahead self.old ((step, stop) ∷ qs) more ≡ tells (listed e) (ahead self.new qs more)) }
        ensures given { IfOk result (λ e. (ns : option (list (list ℕ))) (c : ℕ) (ps : list (ℕ × SpecStop)) (rs : list SpecRequest) (es : list (ℕ × SpecEvent)) → HasGiven ns c ps rs es self.old → HasGiven ns c (ps ++ (step, stop) ∷ []) rs (es ++ listed e) self.new) }
        ensures names { self.new.names ≡ self.old.names }
    {
        let stand = mem::replace(&mut self.stand, Stand::Done);
        let Stand::Reading(held) = stand else {
            unreachable!()
        };
        let moved = self.after_stop(alloc, step, stop, held)?;
        self.stand = moved.stand;
        Ok(moved.event)
    }

    /// Goes on after a request that fits where the query rests, and gives the event of the late stop that waits, if one waits,
    /// with its step. After want of memory the reader has ended.
    pub fn resume(
        &mut self,
        alloc: Global,
        request: &Request,
    ) -> Result<Option<(u64, Event)>, Memory>
        requires fits { is_fitting self.old.stand request.now ≡ true }
        ensures brings { IfOk result (λ e. (qs : list (ℕ × SpecStop)) (more : list SpecRequest) → ahead self.old qs (request.now ∷ more) ≡ tells (listed e) (ahead self.new qs more)) }
        ensures given { IfOk result (λ e. (ns : option (list (list ℕ))) (c : ℕ) (ps : list (ℕ × SpecStop)) (rs : list SpecRequest) (es : list (ℕ × SpecEvent)) → HasGiven ns c ps rs es self.old → HasGiven ns c ps (rs ++ request.now ∷ []) (es ++ listed e) self.new) }
        ensures names { self.new.names ≡ self.old.names }
    {
        let stand = mem::replace(&mut self.stand, Stand::Done);
        self.chunk = request.chunk_after(self.chunk);
        let moved = self.after_fitting(alloc, stand)?;
        self.stand = moved.stand;
        Ok(moved.event)
    }
}
