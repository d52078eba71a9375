// What a turn takes of the events of its query that were reached.
ghost use Rattle.std.specs.Prelude.{◌≡◌, ◌+◌, ◌-◌, ◌^◌, ◌≤◌, ◌<◌, ◌==◌, ◌||◌, length, take, drop, None, IfOk, OnOk, if◌then◌else◌};
ghost use Rattle.std.specs.Option.{is_some};
ghost use Rattle.session.specs.Turns.{last_step};
ghost use Rattle.session.specs.TurnsKept.{ends_at};

use event_core::{Event, Rest};
use std::alloc::Global;
use term_core::{List, Memory};

// The events after the first `start`, and at most `room` of them.
pub(crate) fn cut(
    alloc: Global,
    events: List<(u64, Event)>,
    start: u64,
    room: usize,
) -> Result<List<(u64, Event)>, Memory>
    ensures { IfOk result (λ es. es ≡ take room (drop start events)) }
{
    let mut events = events.into_vec();
    if start > events.len() as u64 {
        return Ok(List::new(alloc));
    }
    let mut made = events.split_off(start as usize)?;
    made.truncate(room);
    Ok(List::from_vec(made))
}

// The last step that a turn reaches which starts after so many steps. The query ends at its limit.
pub(crate) fn reach_of(steps: u64, budget: u64, limit: u64) -> u64
    ensures most { result ≤ steps + budget }
    ensures all { result < limit → result ≡ steps + budget }
{
    steps.saturating_add(budget).min(limit)
}

// The steps of a turn that starts after so many steps and ends at this one.
pub(crate) fn steps_of(start: u64, end: u64) -> u64
    ensures difference { result ≡ end - start }
    ensures fits { start + result < 2 ^ 64 }
{
    end.saturating_sub(start)
}

// Numbers of this type are below 2^64.
pub(crate) fn are_numbers(steps: u64, events: u64)
    ensures steps { steps < 2 ^ 64 }
    ensures events { events < 2 ^ 64 }
{}

// How many events a query has made after a turn that made these, where it had made so many before.
pub(crate) fn events_after(before: u64, made: usize) -> Result<u64, Memory>
    ensures sum { IfOk result (λ n. n ≡ before + made) }
    ensures fits { OnOk result (before + made < 2 ^ 64) }
{
    before.checked_add(made as u64).ok_or(Memory)
}

// Where the query rests, if a turn after which it has so many events came to the last of all that were reached.
pub(crate) fn rest_after(rest: Option<Rest>, after: u64, reached: u64) -> Option<Rest>
    ensures { result ≡ (if after == reached then rest else None) }
{
    if after == reached { rest } else { None }
}

// Whether a turn fills its room or comes to a rest.
pub(crate) fn is_full(rest: Option<Rest>, made: usize, room: usize) -> bool
    ensures { result ≡ (is_some rest || made == room) }
{
    rest.is_some() || made == room
}

// The step of the last of these events.
fn step_of_last(events: &[(u64, Event)]) -> Option<u64>
    ensures { result ≡ last_step (length events.now) events.now }
{
    match events {
        [.., last] => Some(last.0),
        [] => None,
    }
}

// The step at which a turn ends: that of its last event where it is full, and otherwise the last one that it reaches.
pub(crate) fn end_of(is_full: bool, events: &[(u64, Event)], reaches: u64) -> u64
    ensures { result ≡ ends_at is_full (last_step (length events.now) events.now) reaches }
{
    match step_of_last(events) {
        Some(step) if is_full => step,
        _ => reaches,
    }
}
