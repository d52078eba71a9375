ghost use Rattle.std.specs.Prelude.{◌≡◌, ◌≢◌, ◌≤◌, ◌<◌, min, [], ◌∷◌, ◌++◌, length, drop, IfOk, OnOk, OnErr, ◌↔◌, false, Err, Some};
ghost use Rattle.session.specs.declared.answers.SendFault.TheVariants as fault;
ghost use Rattle.sandbox_walk.specs.Keeping.{KeepsSandbox};
ghost use Rattle.session.specs.After.{Sent, Pulled as Pull, Abort, Destroy, Pengine, after_entry, most_requests};
ghost use Rattle.session.specs.Answers.{is_ended, is_gone, pulls, pulls_many, takes, is_turn, ready, last_of, gives, is_kept};
ghost use Rattle.session.specs.Views.{Ended, IsSeen, taken, spec_seen, Gone, TurnView};
ghost use Rattle.session.specs.Recorded.{IsRecord, IsRecorded, Lengthens, Takes, IsTaken, GivesBack};
ghost use Rattle.session.specs.declared.took.Took.TheVariants as took;
ghost use Rattle.session.specs.Begun.{IsBegun, first_of};

use crate::answers::{Given, Pulled, PulledMany, SendFault};
use crate::automaton::{Automaton, MOST_REQUESTS, MOST_WAITING};
use crate::state::State;
use crate::took::Took;
use crate::turn::Turn;
use event_core::{Request, Spec, Waiting};
use std::alloc::Global;
use std::marker::Model;
use term_core::Memory;

/// One pengine (Lager and Wielemaker, TPLP 2014), whose turns run outside. Contracts see it as a view: its program and settings,
/// where it stands, the requests and events that wait, and the counts of its latest query.
#[derive(Debug, Drop)]
pub struct Session {
    automaton: Automaton,
}

impl Model for Session {
    ghost use Rattle.std.specs.Coded.{codes};
    ghost use Rattle.term_core.specs.Flat.{tree_code};
    ghost use Rattle.session.specs.Views.{View};

    ghost Value = { View };

    ghost coded = { Prim.hlevel (codes, tree_code) };

    ghost use Rattle.session.specs.Kept.{view_of, IsSound};
    ghost use Rattle.session.specs.Recorded.{IsRecorded};

    ghost view = { λ s. view_of s.automaton };

    ghost invariant = { λ s. IsSound s.automaton × IsRecorded (view_of s.automaton) };
}

impl Session {
    /// A pengine that was just made, with room for 64 requests and 66 events. Its event 0, `create`, is this answer. The first
    /// query, where there is one, is its first request.
    pub fn create(alloc: Global, spec: Spec) -> Result<Session, Memory>
        requires keeps { KeepsSandbox spec.program.value }
        ensures begun { IfOk result (IsBegun spec) }
        ensures recorded { IfOk result (IsRecord (first_of spec.ask)) }
    {
        let Spec {
            program,
            ask,
            settings,
            bytes: _,
        } = spec;
        let mut automaton = Automaton::new(alloc, program, settings)?;
        match ask {
            None => Ok(Session { automaton }),
            Some(ask) => {
                automaton.accept(Request::Ask(ask))?;
                Ok(Session { automaton })
            }
        }
    }

    /// Accepts a request, which is consumed when the pengine rests. It is refused where the pengine has ended, then where 64 requests
    /// wait, and then for want of memory, and the pengine is as before.
    pub fn send(&mut self, request: Request) -> Result<(), SendFault>
        ensures sent { OnOk result (Lengthens (Sent request ∷ []) self.old self.new) }
        ensures refused { OnErr result (self.new ≡ self.old) }
        ensures ended { (result ≡ Err fault.Ended) ↔ (self.old.look ≡ Ended) }
        ensures full { (result ≡ Err fault.MailboxFull) ↔ ((self.old.look ≢ Ended) × (most_requests ≤ length self.old.mailbox)) }
    {
        if self.automaton.has_ended() {
            return Err(SendFault::Ended);
        }
        if self.automaton.mailbox.len() >= MOST_REQUESTS {
            return Err(SendFault::MailboxFull);
        }
        match self.automaton.accept(request) {
            Ok(()) => Ok(()),
            Err(Memory) => Err(SendFault::Memory),
        }
    }

    /// Hands out the next event, where one waits.
    pub fn pull(&mut self) -> Pulled
        ensures answer { result ≡ pulls self.old }
        ensures pulled { self.old.queue ≢ [] → Lengthens (Pull 1 ∷ []) self.old self.new }
        ensures none { self.old.queue ≡ [] → self.new ≡ self.old }
    {
        match self.automaton.pull() {
            Some((number, event)) => Pulled::Event(number, event),
            None => {
                if self.ended() {
                    Pulled::Ended
                } else {
                    Pulled::Pending
                }
            }
        }
    }

    /// Hands out the events that wait, at most `max` of them, which is from 1 to 64. The memory of their list is taken first:
    /// for want of it the pengine is as before.
    pub fn pull_many(&mut self, max: u32) -> Result<PulledMany, Memory>
        requires some { 0 < max }
        requires most { max ≤ 64 }
        ensures answer { IfOk result (λ r. r ≡ pulls_many max self.old) }
        ensures pulled { OnOk result (self.old.queue ≢ [] → Lengthens (Pull (min max (length self.old.queue)) ∷ []) self.old self.new) }
        ensures none { self.old.queue ≡ [] → self.new ≡ self.old }
        ensures refused { OnErr result (self.new ≡ self.old) }
    {
        match self.automaton.pull_many(max as usize)? {
            Some(waiting) => Ok(PulledMany::Events(waiting)),
            None => {
                if self.ended() {
                    Ok(PulledMany::Ended)
                } else {
                    Ok(PulledMany::Pending)
                }
            }
        }
    }

    /// Gives a turn of the query that runs, to be run outside and given back.
    pub fn take(&mut self) -> Took
        ensures answer { result ≡ takes self.old }
        ensures taken { (t : TurnView) → result ≡ took.Turn t → (self.new ≡ taken self.old) × Takes self.old t self.new }
        ensures none { is_turn result ≡ false → self.new ≡ self.old }
    {
        self.automaton.take()
    }

    /// Takes back a turn that this session gave and that has gone: `Dropped` exactly where its query was broken off since.
    pub fn give(&mut self, turn: Turn) -> Given
        requires taken { IsTaken self.old turn }
        requires gone { (g : Gone) × (turn.gone ≡ Some g) }
        ensures answer { result ≡ gives self.old turn.number }
        ensures back { (g : Gone) → turn.gone ≡ Some g → GivesBack self.old turn g (is_kept result) self.new }
    {
        self.automaton.give(turn)
    }

    /// Breaks off the query that runs or rests, whose turn is then dropped, and drops the requests that wait.
    /// Outside of a query no event comes.
    pub fn abort(&mut self)
        ensures { Lengthens (Abort ∷ []) self.old self.new }
    {
        self.automaton.abort();
    }

    /// Ends the pengine, and hands out all events that wait, with `destroy` as the last one.
    pub fn destroy(self) -> Waiting
        ensures first { result.first ≡ self.pulled }
        ensures events { result.events ≡ self.queue ++ last_of self.look }
        ensures destroyed { (p : Pengine) → IsSeen self p → drop p.pulled (after_entry (spec_seen self) Destroy p).emitted ≡ result.events }
    {
        self.automaton.destroy()
    }

    /// Whether the pengine has ended. Every session is one that was made over a program which keeps to the sandbox, and had calls.
    pub fn ended(&self) -> bool
        ensures answer { result ≡ is_ended self.now.look }
        ensures recorded { IsRecorded self.now }
    {
        self.automaton.has_ended()
    }

    /// Whether the pengine has ended and all its events were pulled.
    pub fn is_gone(&self) -> bool
        ensures { result ≡ is_gone self.now }
    {
        self.automaton.has_ended() && self.automaton.queue.is_empty()
    }

    /// Whether `take` would give a turn.
    pub fn ready(&self) -> bool
        ensures { result ≡ ready self.now }
    {
        matches!(self.automaton.state, State::Running(_))
            && self.automaton.queue.len() < MOST_WAITING
    }
}
