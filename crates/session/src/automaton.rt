// A pengine as it is kept, entry by entry.
ghost use Rattle.std.specs.Prelude.{◌≡◌, ◌≢◌, min, take, drop, ◌+◌, ◌-◌, ◌<◌, ◌≤◌, ◌^◌, false, List as list, [], ◌∷◌, ◌++◌, map, length, Some, IfSome, IfNone, OnSome, IfOk, OnOk, OnErr, IsTrue, ◌↔◌};
ghost use Rattle.event_core.specs.declared.event.Event.{Event};
ghost use Rattle.event_core.specs.declared.rest.Rest.TheVariants as ending;
ghost use Rattle.circular_buffer.specs.Buffer.{buffer};
ghost use Rattle.session.specs.declared.state.State.TheVariants as at;
ghost use Rattle.session.specs.declared.answers.Given.TheVariants as given;
ghost use Rattle.event_core.specs.Full as asked;
ghost use Rattle.session.specs.TurnsKept.{Starts, Keeps};
ghost use Rattle.session.specs.Views as view;
ghost use Rattle.session.specs.After.{begins, fits, first_consumed, aborted_at, struck, settled, made, Sent, Pulled, Abort, Given as GivenBack};
ghost use Rattle.session.specs.Answers.{is_ended, takes, is_turn, last_of, gives};
ghost use Rattle.session.specs.Views.{spec_seen, turn_at, taken, IsSeen, Does, Enters, IsTurnOf};
ghost use Rattle.session.specs.Kept.{query_of, look_of, view_of, resting, rests, rests_now, is_busy, further_of, IsLetter, IsSound, IsBack, TakesBack, says, closed};

use crate::answers::Given;
use crate::letter::Letter;
use crate::node::Node;
use crate::query::Query;
use crate::ring::{move_first, put};
use crate::state::State;
use crate::took::Took;
use crate::turn::{Gone, Turn};
use circular_buffer::HeapCircularBuffer;
use event_core::{Event, Request, Rest, Settings, Waiting};
use program::Program;
use std::alloc::Global;
use std::collections::LinkedList;
use std::mem;
use std::sync::Arc;
use term_core::{List, Memory, Term};

// The events that may wait before the pengine stands still.
pub(crate) const MOST_WAITING: usize = 64;

// The requests that may wait.
pub(crate) const MOST_REQUESTS: usize = 64;

// All places of the queue: an abort at 64 events adds itself and the end of the pengine.
const PLACES: usize = 66;

// All requests that a pengine accepts.
const MOST_ACCEPTED: u64 = 1 << 62;

#[derive(Debug, Drop)]
pub(crate) struct Automaton {
    pub(crate) alloc: Global,
    pub(crate) program: Arc<Program>,
    pub(crate) settings: Settings,
    pub(crate) state: State,
    pub(crate) mailbox: HeapCircularBuffer<Letter>,
    // How many requests were accepted, at most 2^62.
    pub(crate) accepted: u64,
    // The number of the latest query, and the steps and events that it has made after its last kept turn.
    pub(crate) number: u64,
    pub(crate) steps: u64,
    pub(crate) events: u64,
    // How many events were pulled.
    pub(crate) pulled: u64,
    pub(crate) queue: HeapCircularBuffer<Event>,
}

impl Automaton {
    // A pengine that was just made.
    pub(crate) fn new(
        alloc: Global,
        program: Arc<Program>,
        settings: Settings,
    ) -> Result<Automaton, Memory>
        ensures sound { IfOk result IsSound }
        ensures program { IfOk result (λ a. a.program.value ≡ program.value) }
        ensures settings { IfOk result (λ a. a.settings ≡ settings) }
        ensures mailbox { IfOk result (λ a. a.mailbox.items ≡ []) }
        ensures seen { IfOk result (λ a. IsSeen (view_of a) made) }
    {
        let mailbox = HeapCircularBuffer::with_capacity(alloc, MOST_REQUESTS)?;
        let queue = HeapCircularBuffer::with_capacity(alloc, PLACES)?;
        Ok(Automaton {
            alloc,
            program,
            settings,
            state: State::Idle,
            mailbox,
            accepted: 0,
            number: 0,
            steps: 0,
            events: 0,
            pulled: 1,
            queue,
        })
    }

    // One event more waits.
    fn emit(&mut self, event: Event)
        requires { length self.old.queue.items < self.old.queue.capacity }
        ensures { self.new ≡ says event self.old }
    {
        put(&mut self.queue, event);
    }

    // A query ends, and the pengine too where it is to be destroyed.
    fn end(&mut self)
        requires { length self.old.queue.items < self.old.queue.capacity }
        ensures { self.new ≡ closed self.old.settings.destroys self.old }
    {
        if self.settings.destroys {
            self.mailbox.clear();
            self.emit(Event::Destroy);
            self.state = State::Ended;
        } else {
            self.state = State::Idle;
        }
    }

    // A query begins, unless the sandbox refuses its goal.
    fn begin(&mut self, query: Query, refusal: Option<Term>)
        requires sound { IsSound self.old }
        requires idle { self.old.state ≡ at.Idle }
        requires room { length self.old.queue.items < 64 }
        requires counted { self.old.number + length self.old.mailbox.items < self.old.accepted }
        requires fresh { query.requests ≡ [] }
        requires program { query.program.value ≡ self.old.program.value }
        ensures sound { IsSound self.new }
        ensures does { Does (begins (spec_seen (view_of self.old)) query.ask refusal) (view_of self.old) (view_of self.new) }
    {
        self.number += 1;
        self.steps = 0;
        self.events = 0;
        match refusal {
            None => self.state = State::Running(query),
            Some(term) => {
                self.emit(Event::Error(term));
                self.end();
            }
        }
    }

    // A request is consumed outside of a query.
    fn consume_idle(&mut self, letter: Letter)
        requires sound { IsSound self.old }
        requires idle { self.old.state ≡ at.Idle }
        requires room { length self.old.queue.items < 64 }
        requires counted { self.old.number + length self.old.mailbox.items < self.old.accepted }
        requires letter { IsLetter self.old.program.value self.old.settings letter }
        ensures sound { IsSound self.new }
        ensures does { Does (λ p. fits (spec_seen (view_of self.old)) p.state letter.node p) (view_of self.old) (view_of self.new) }
    {
        let Letter {
            node,
            program,
            refusal,
        } = letter;
        match node.into_request() {
            Request::Ask(ask) => {
                let requests = LinkedList::new(self.alloc);
                let query = Query {
                    program,
                    ask,
                    requests,
                };
                self.begin(query, refusal);
            }
            other => self.emit(Event::Protocol(other.kind())),
        }
    }

    // A request is consumed where a query rests.
    fn consume_resting(&mut self, query: Query, rest: Rest, letter: Letter)
        requires sound { IsSound self.old }
        requires idle { self.old.state ≡ at.Idle }
        requires rests { rest ≢ ending.Over }
        requires room { length self.old.queue.items < 64 }
        requires counted { self.old.number + length query.requests + length self.old.mailbox.items < self.old.accepted }
        requires program { query.program.value ≡ self.old.program.value }
        ensures sound { IsSound self.new }
        ensures does { Does (λ p. fits (spec_seen (view_of self.old)) p.state letter.node p) (record (view_of self.old) { look = resting rest (query_of query) }) (view_of self.new) }
    {
        if letter.node.goes_on(rest) {
            self.go_on(query, letter.node);
        } else if letter.node.stops(rest) {
            self.emit(Event::Stop);
            self.end();
        } else {
            self.emit(Event::Protocol(letter.node.kind()));
            self.rest(query, rest);
        }
    }

    // The query goes on after a request that fits.
    fn go_on(&mut self, query: Query, node: Node)
        requires { length query.requests < 2 ^ 62 }
        ensures { self.new ≡ record self.old { state = at.Running (record query { requests = query.requests ++ node ∷ [] }) } }
    {
        let Query {
            program,
            ask,
            mut requests,
        } = query;
        node.append_to(&mut requests);
        self.state = State::Running(Query {
            program,
            ask,
            requests,
        });
    }

    // The query rests.
    fn rest(&mut self, query: Query, rest: Rest)
        ensures { self.new ≡ record self.old { state = rests rest query } }
    {
        match rest {
            Rest::More => self.state = State::More(query),
            Rest::Prompting => self.state = State::Prompting(query),
            Rest::Over => self.state = State::Idle,
        }
    }

    // Whether requests are consumed where the pengine stands.
    fn consumes(&self) -> bool
        ensures { IsTrue result ↔ (IsTrue (rests_now self.now.state) × (length self.now.queue.items < 64)) }
    {
        let rests = matches!(
            self.state,
            State::Idle | State::More(_) | State::Prompting(_)
        );
        rests && self.queue.len() < MOST_WAITING
    }

    // A request is consumed.
    fn consume(&mut self, letter: Letter)
        requires sound { IsSound self.old }
        requires rests { IsTrue (rests_now self.old.state) }
        requires room { length self.old.queue.items < 64 }
        requires counted { self.old.number + further_of self.old.state + length self.old.mailbox.items < self.old.accepted }
        requires letter { IsLetter self.old.program.value self.old.settings letter }
        ensures sound { IsSound self.new }
        ensures does { Does (λ p. fits (spec_seen (view_of self.old)) p.state letter.node p) (view_of self.old) (view_of self.new) }
    {
        match mem::replace(&mut self.state, State::Idle) {
            State::More(query) => self.consume_resting(query, Rest::More, letter),
            State::Prompting(query) => self.consume_resting(query, Rest::Prompting, letter),
            State::Idle | State::Running(_) | State::Out { .. } | State::Ended => {
                self.consume_idle(letter);
            }
        }
    }

    // The first request that waits is consumed.
    fn consume_first(&mut self)
        requires sound { IsSound self.old }
        requires rests { IsTrue (rests_now self.old.state) }
        requires room { length self.old.queue.items < 64 }
        ensures sound { IsSound self.new }
        ensures does { Does (λ p. first_consumed (spec_seen (view_of self.old)) p.mailbox p) (view_of self.old) (view_of self.new) }
    {
        if let Some(letter) = self.mailbox.pop_front() {
            self.consume(letter);
        }
    }

    // Requests are consumed, as far as the pengine rests and there is room for their events.
    fn settle(&mut self)
        requires { IsSound self.old }
        ensures sound { IsSound self.new }
        ensures does { Does (λ p. settled (spec_seen (view_of self.old)) (length p.mailbox) p) (view_of self.old) (view_of self.new) }
    {
        for _ in 0..self.mailbox.len() {
            if !self.consumes() {
                return;
            }
            self.consume_first();
        }
    }

    // A request was accepted.
    pub(crate) fn send(&mut self, letter: Letter)
        requires sound { IsSound self.old }
        requires room { length self.old.mailbox.items < 64 }
        requires counted { self.old.accepted < 2 ^ 62 }
        requires letter { IsLetter self.old.program.value self.old.settings letter }
        ensures sound { IsSound self.new }
        ensures does { Enters (Sent letter.node) (view_of self.old) (view_of self.new) }
    {
        put(&mut self.mailbox, letter);
        self.accepted += 1;
        self.settle();
    }

    pub(crate) fn has_ended(&self) -> bool
        ensures { result ≡ is_ended (look_of self.now.state) }
    {
        matches!(self.state, State::Ended)
    }

    // Whether a query runs or rests.
    fn is_busy(&self) -> bool
        ensures { result ≡ is_busy self.now.state }
    {
        !matches!(self.state, State::Idle | State::Ended)
    }

    // The requests that wait are dropped, and the query is broken off.
    fn break_off(&mut self)
        requires { IsSound self.old }
        ensures sound { IsSound self.new }
        ensures does { Does (λ p. aborted_at (spec_seen (view_of self.old)) p.state (struck p)) (view_of self.old) (view_of self.new) }
    {
        self.mailbox.clear();
        if !self.is_busy() {
            return;
        }
        self.state = State::Idle;
        self.emit(Event::Abort);
        self.end();
    }

    // The query is broken off, and the requests that wait are dropped.
    pub(crate) fn abort(&mut self)
        requires { IsSound self.old }
        ensures sound { IsSound self.new }
        ensures does { Enters Abort (view_of self.old) (view_of self.new) }
    {
        self.break_off();
        self.settle();
    }

    // The next event is handed out, where one waits.
    pub(crate) fn pull(&mut self) -> Option<(u64, Event)>
        requires { IsSound self.old }
        ensures some { IfSome result (λ r. (r.0 ≡ self.old.pulled) × ((rest : list Event) × (self.old.queue.items ≡ r.1 ∷ rest))) }
        ensures none { IfNone result ((self.old.queue.items ≡ []) × (self.new ≡ self.old)) }
        ensures sound { IsSound self.new }
        ensures does { OnSome result (Enters (Pulled 1) (view_of self.old) (view_of self.new)) }
    {
        let event = self.queue.pop_front()?;
        let number = self.pulled;
        self.pulled = number.saturating_add(1);
        self.settle();
        Some((number, event))
    }

    // The events that wait are handed out together, at most so many; for want of memory the pengine is as before.
    pub(crate) fn pull_many(&mut self, max: usize) -> Result<Option<Waiting>, Memory>
        requires sound { IsSound self.old }
        requires some { 0 < max }
        requires most { max ≤ 64 }
        ensures sound { IsSound self.new }
        ensures some { IfOk result (λ o. IfSome o (λ w. (w.first ≡ self.old.pulled) × (w.events ≡ take max self.old.queue.items) × (self.old.queue.items ≢ []))) }
        ensures none { IfOk result (λ o. IfNone o ((self.old.queue.items ≡ []) × (self.new ≡ self.old))) }
        ensures does { IfOk result (λ o. OnSome o (Enters (Pulled (min max (length self.old.queue.items))) (view_of self.old) (view_of self.new))) }
        ensures refused { OnErr result (self.new ≡ self.old) }
    {
        let mut events = HeapCircularBuffer::with_capacity(self.alloc, max)?;
        if self.queue.is_empty() {
            return Ok(None);
        }
        let first = self.pulled;
        let many = max.min(self.queue.len());
        move_first(many, &mut self.queue, &mut events);
        self.pulled = first.saturating_add(many as u64);
        self.settle();
        Ok(Some(Waiting::new(first, events)))
    }

    // Accepts a request; for want of memory the pengine is as before.
    pub(crate) fn accept(&mut self, request: Request) -> Result<(), Memory>
        requires sound { IsSound self.old }
        requires room { length self.old.mailbox.items < 64 }
        ensures sound { IsSound self.new }
        ensures sent { OnOk result (Enters (Sent request) (view_of self.old) (view_of self.new)) }
        ensures refused { OnErr result (self.new ≡ self.old) }
    {
        if self.accepted >= MOST_ACCEPTED {
            return Err(Memory);
        }
        let letter = Letter::new(self.alloc, &self.program, request)?;
        self.send(letter);
        Ok(())
    }

    // The query is given to a turn, which may make as many events as there are places.
    fn hand_out(&mut self, query: Query) -> Turn
        requires room { length self.old.queue.items < 64 }
        requires program { query.program.value ≡ self.old.program.value }
        requires starts { Starts (turn_at (view_of self.old) (query_of query)) }
        ensures turn { result ≡ turn_at (view_of self.old) (query_of query) }
        ensures state { self.new ≡ record self.old { state = at.Out (64 - length self.old.queue.items) (length query.requests) } }
    {
        let room = MOST_WAITING - self.queue.len();
        let further = query.requests.len();
        self.state = State::Out { room, further };
        Turn {
            alloc: self.alloc,
            settings: self.settings,
            query,
            number: self.number,
            steps: self.steps,
            events: self.events,
            room,
            gone: None,
        }
    }

    // Gives a turn, where the query runs, none of its turns is out and the queue isn't full.
    pub(crate) fn take(&mut self) -> Took
        requires sound { IsSound self.old }
        requires starts { (q : asked.Query) → look_of self.old.state ≡ view.Running q → Starts (turn_at (view_of self.old) q) }
        ensures sound { IsSound self.new }
        ensures answer { result ≡ takes (view_of self.old) }
        ensures taken { IsTrue (is_turn result) → view_of self.new ≡ taken (view_of self.old) }
        ensures none { is_turn result ≡ false → self.new ≡ self.old }
    {
        match mem::replace(&mut self.state, State::Idle) {
            State::Running(query) => {
                if self.queue.len() < MOST_WAITING {
                    return Took::Turn(self.hand_out(query));
                }
                self.state = State::Running(query);
                Took::QueueFull
            }
            State::Out { room, further } => {
                self.state = State::Out { room, further };
                Took::Out
            }
            other => {
                self.state = other;
                Took::Idle
            }
        }
    }

    // The events of a turn wait behind the others.
    fn wait(&mut self, events: List<(u64, Event)>)
        requires { length self.old.queue.items + length events ≤ self.old.queue.capacity }
        ensures { self.new ≡ record self.old { queue = buffer (self.old.queue.items ++ map (λ x. x.1) events) self.old.queue.capacity } }
    {
        for (_, event) in events.into_vec() {
            put(&mut self.queue, event);
        }
    }

    // The turn of the query that is out is kept.
    fn keep(&mut self, query: Query, gone: Gone)
        requires sound { IsSound self.old }
        requires back { IsBack self.old query gone }
        ensures sound { IsSound self.new }
        ensures turns { TakesBack query gone (view_of self.old) (view_of self.new) }
    {
        let Gone {
            steps,
            events,
            starved,
            rest,
        } = gone;
        self.steps += steps;
        self.events += events.len() as u64;
        self.wait(events);
        if starved {
            self.emit(Event::Memory);
            self.end();
            return;
        }
        match rest {
            None => self.state = State::Running(query),
            Some(Rest::More) => self.state = State::More(query),
            Some(Rest::Prompting) => self.state = State::Prompting(query),
            Some(Rest::Over) => self.end(),
        }
    }

    // A turn is given back: it is kept where its query is the one that is out, and dropped otherwise.
    pub(crate) fn give(&mut self, turn: Turn) -> Given
        requires sound { IsSound self.old }
        requires turn { IsTurnOf (view_of self.old) turn }
        ensures sound { IsSound self.new }
        ensures answer { result ≡ gives (view_of self.old) turn.number }
        ensures kept { (g : view.Gone) → result ≡ given.Kept → turn.gone ≡ Some g → Keeps (view_of self.old) turn g (view_of self.new) }
        ensures dropped { (g : view.Gone) → result ≡ given.Dropped → turn.gone ≡ Some g → Enters (GivenBack turn.number g.steps (length g.events) g.starved false) (view_of self.old) (view_of self.new) }
    {
        let is_out = matches!(self.state, State::Out { .. });
        if !is_out || turn.number != self.number {
            self.settle();
            return Given::Dropped;
        }
        let Turn { query, gone, .. } = turn;
        if let Some(gone) = gone {
            self.keep(query, gone);
        }
        self.settle();
        Given::Kept
    }

    // The pengine is gone, and all its events are handed out.
    pub(crate) fn destroy(self) -> Waiting
        requires { IsSound self }
        ensures first { result.first ≡ self.pulled }
        ensures events { result.events ≡ self.queue.items ++ last_of (look_of self.state) }
    {
        let Automaton {
            state,
            pulled,
            mut queue,
            ..
        } = self;
        if !matches!(state, State::Ended) {
            put(&mut queue, Event::Destroy);
        }
        Waiting::new(pulled, queue)
    }
}
