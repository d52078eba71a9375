// A session that a script leads: its requests are sent one after the other, each when the former is done.
ghost use Rattle.std.specs.Prelude.{◌≡◌, true, false, [], ◌∷◌, ◌++◌, None, IfOk};
ghost use Rattle.pengines.specs.Printed.{left, IsLedOn, HasTold, is_over, Tells, events_told, lines_told};

use crate::dialogue::{ask, break_off, next_of};
use event_core::Event;
use request_text::Sent;
use session::Session;
use std::collections::VecDeque;
use term_core::Memory;

/// What is printed next.
#[derive(Debug, Drop)]
pub enum Told {
    /// An event.
    Event(Event),
    /// That a request came after the pengine's end.
    Late,
}

/// The next event of a session, or none where it rests and has told all.
fn next_event(session: &mut Option<Session>) -> Result<Option<Event>, Memory>
    requires { IsLedOn session.old }
    ensures led { IfOk result (λ _. IsLedOn session.new) }
    ensures tells { IfOk result (λ o. Tells session.old [] (events_told o) session.new) }
    ensures told { IfOk result (λ o. o ≡ None → HasTold session.new) }
{
    match session {
        Some(session) => next_of(session),
        None => Ok(None),
    }
}

/// Whether the pengine has ended.
fn has_ended(session: &Option<Session>) -> bool
    ensures { result ≡ is_over session.now }
{
    match session {
        Some(session) => session.ended(),
        None => true,
    }
}

/// Ends a session that rests; its last event is told.
fn destroy(session: &mut Option<Session>) -> Option<Event>
    requires led { IsLedOn session.old }
    requires told { HasTold session.old }
    requires live { is_over session.old ≡ false }
    ensures led { IsLedOn session.new }
    ensures tells { Tells session.old (Sent.Destroy ∷ []) (events_told result) session.new }
{
    let mut waiting = session.take()?.destroy();
    let (_, event) = waiting.next()?;
    Some(event)
}

/// Sends what a line of the script says to a session that rests and hasn't ended. The event of a `destroy` is told.
fn send(session: &mut Option<Session>, sent: Sent) -> Result<Option<Event>, Memory>
    requires led { IsLedOn session.old }
    requires told { HasTold session.old }
    requires live { is_over session.old ≡ false }
    ensures led { IfOk result (λ _. IsLedOn session.new) }
    ensures tells { IfOk result (λ o. Tells session.old (sent ∷ []) (events_told o) session.new) }
{
    match (sent, &mut *session) {
        (Sent::Request(request), Some(session)) => {
            ask(session, request)?;
            Ok(None)
        }
        (Sent::Abort, Some(session)) => {
            break_off(session);
            Ok(None)
        }
        _ => Ok(destroy(session)),
    }
}

/// Leads a session on by the lines of a script to what is printed next; none where all is printed. `Err` is want of memory.
pub fn next_told(
    session: &mut Option<Session>,
    lines: &mut VecDeque<Sent>,
) -> Result<Option<Told>, Memory>
    requires { IsLedOn session.old }
    ensures led { IfOk result (λ _. IsLedOn session.new) }
    ensures told { IfOk result (λ o. left session.old true lines.old.items ≡ lines_told o ++ left session.new true lines.new.items) }
    ensures last { IfOk result (λ o. o ≡ None → left session.new true lines.new.items ≡ []) }
{
    loop {
        if let Some(event) = next_event(session)? {
            return Ok(Some(Told::Event(event)));
        }
        let Some(sent) = lines.pop_front() else {
            return Ok(None);
        };
        if has_ended(session) {
            return Ok(Some(Told::Late));
        }
        if let Some(event) = send(session, sent)? {
            return Ok(Some(Told::Event(event)));
        }
    }
}
