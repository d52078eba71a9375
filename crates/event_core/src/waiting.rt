ghost use Rattle.std.specs.Prelude.{◌≡◌, ◌==◌, min, ◌+◌, ◌-◌, ◌^◌, [], ◌∷◌, length, IfSome, IfNone};

use crate::event::Event;
use circular_buffer::HeapCircularBuffer;
use std::marker::Model;

/// The events that waited when a pengine was destroyed, which contracts see as a list beside the first one's number.
#[derive(Debug, Drop)]
pub struct Waiting {
    first: u64,
    events: HeapCircularBuffer<Event>,
}

impl Model for Waiting {
    ghost use Rattle.std.specs.Coded.{codes};
    ghost use Rattle.term_core.specs.Flat.{tree_code};
    ghost use Rattle.event_core.specs.Waits.{Waits};

    ghost Value = { Waits };

    ghost coded = { Prim.hlevel (codes, tree_code) };

    ghost view = { λ w. record { first = w.first; events = w.events.items } };
}

impl Waiting {
    /// These events, the first of which has the number `first`. It takes no memory.
    pub fn new(first: u64, events: HeapCircularBuffer<Event>) -> Waiting
        ensures first { result.first ≡ first }
        ensures events { result.events ≡ events.items }
    {
        Waiting { first, events }
    }

    /// How many events are left; at most 66.
    pub fn len(&self) -> usize
        ensures { result ≡ length self.now.events }
    {
        self.events.len()
    }

    /// Whether no event is left.
    pub fn is_empty(&self) -> bool
        ensures { result ≡ (length self.now.events == 0) }
    {
        self.events.is_empty()
    }

    /// Takes the next event and its number.
    pub fn next(&mut self) -> Option<(u64, Event)>
        ensures some { IfSome result (λ r. (r.0 ≡ self.old.first) × (self.old.events ≡ r.1 ∷ self.new.events) × (self.new.first ≡ min (self.old.first + 1) (2 ^ 64 - 1))) }
        ensures none { IfNone result ((self.old.events ≡ []) × (self.new ≡ self.old)) }
    {
        let event = self.events.pop_front()?;
        let number = self.first;
        self.first = number.saturating_add(1);
        Some((number, event))
    }
}
