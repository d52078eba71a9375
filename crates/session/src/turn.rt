ghost use Rattle.std.specs.Prelude.{◌≡◌, ◌<◌, [], length, false, true, None, Some, IfOk};
ghost use Rattle.session.specs.Views as view;

use crate::copies::copies;
use crate::cut::{are_numbers, cut, end_of, events_after, is_full, reach_of, rest_after, steps_of};
use crate::query::Query;
use event_core::{Event, Made, Reached, Rest, Settings, reach};
use std::alloc::Global;
use std::marker::Model;
use term_core::{List, Memory};

// What a turn has made.
#[derive(Debug, Drop)]
pub(crate) struct Gone {
    pub(crate) steps: u64,
    // Its events, each with the steps made before it.
    pub(crate) events: List<(u64, Event)>,
    // Whether it ended by want of memory.
    pub(crate) starved: bool,
    // Where the query rests, if these are all its events.
    pub(crate) rest: Option<Rest>,
}

/// A turn of a query, which runs outside of its session. Contracts see what it runs over, where it starts and what it has made.
#[derive(Debug, Drop)]
pub struct Turn {
    pub(crate) alloc: Global,
    pub(crate) settings: Settings,
    pub(crate) query: Query,
    pub(crate) number: u64,
    // The steps and events that the query has made before.
    pub(crate) steps: u64,
    pub(crate) events: u64,
    // How many events the turn may make.
    pub(crate) room: usize,
    pub(crate) gone: Option<Gone>,
}

impl Model for Turn {
    ghost use Rattle.std.specs.Coded.{codes};
    ghost use Rattle.term_core.specs.Flat.{tree_code};
    ghost use Rattle.session.specs.Views.{TurnView};

    ghost Value = { TurnView };

    ghost coded = { Prim.hlevel (codes, tree_code) };

    ghost use Rattle.session.specs.TurnsKept.{turn_view, IsTurn};

    ghost view = { turn_view };

    ghost invariant = { λ t. IsTurn (turn_view t) };
}

impl Gone {
    // Want of memory strikes at the turn's start.
    fn starved(alloc: Global) -> Gone
        ensures { result ≡ record { steps = 0; events = []; starved = true; rest = None } }
    {
        Gone {
            steps: 0,
            events: List::new(alloc),
            starved: true,
            rest: None,
        }
    }
}

impl Turn {
    ghost use Rattle.session.specs.Turns.{Turned, Turns};
    ghost use Rattle.session.specs.TurnsKept.{gone_view, part_seen, IsGone, IsGoneAt, Goes};

    /// The number of its query, which count from 1.
    pub fn query(&self) -> u64
        ensures { result ≡ self.now.number }
    {
        self.number
    }

    /// Its steps, its events without `memory`, and whether it ended by want of memory; of a turn that has gone.
    pub fn counts(&self) -> (u64, u64, bool)
        ensures counted { (g : view.Gone) → self.now.gone ≡ Some g → result ≡ (g.steps, length g.events, g.starved) }
        ensures made { IsGoneAt self.now self.now.gone }
    {
        match &self.gone {
            Some(gone) => (gone.steps, gone.events.len() as u64, gone.starved),
            None => (0, 0, false),
        }
    }

    /// Runs the query on, by at most `budget` steps, which are at least 1. The turn ends at its budget, when its events fill its
    /// room, or where the query rests. Want of memory ends it, and is in the turn as the event `memory`, which is then its last.
    /// A turn goes once.
    pub fn go(&mut self, budget: u64) -> Made
        requires once { self.old.gone ≡ None }
        requires some { 0 < budget }
        ensures { Goes budget self.old self.new result }
    {
        let gone = self.gone_by(budget);
        let made = Made {
            steps: gone.steps,
            events: gone.events.len() as u64 + u64::from(gone.starved),
        };
        self.gone = Some(gone);
        made
    }

    // What the turn makes.
    fn gone_by(&self, budget: u64) -> Gone
        requires { 0 < budget }
        ensures gone { IsGone self.now (gone_view result) }
        ensures turned { Turns (part_seen self.now) self.now.steps self.now.events budget self.now.room result.steps (length result.events) result.starved }
    {
        match self.run(budget) {
            Ok(gone) => gone,
            Err(Memory) => {
                are_numbers(self.steps, self.events);
                Gone::starved(self.alloc)
            }
        }
    }

    // What the turn makes with ample memory.
    fn run(&self, budget: u64) -> Result<Gone, Memory>
        requires { 0 < budget }
        ensures gone { IfOk result (λ g. IsGone self.now (gone_view g)) }
        ensures ample { IfOk result (λ g. g.starved ≡ false) }
        ensures turned { IfOk result (λ g. Turned (part_seen self.now) self.now.steps self.now.events budget self.now.room g.steps (length g.events)) }
    {
        let requests = copies(self.alloc, &self.query.requests)?;
        let reaches = reach_of(self.steps, budget, self.settings.limit);
        let Reached { events, rest } = reach(
            self.alloc,
            &self.query.program,
            self.settings,
            &self.query.ask,
            requests.as_slice(),
            reaches,
        )?;
        let reached = events.len() as u64;
        let events = cut(self.alloc, events, self.events, self.room)?;
        let after = events_after(self.events, events.len())?;
        let rest = rest_after(rest, after, reached);
        let is_full = is_full(rest, events.len(), self.room);
        let end = end_of(is_full, events.as_slice(), reaches);
        Ok(Gone {
            steps: steps_of(self.steps, end),
            events,
            starved: false,
            rest,
        })
    }
}
