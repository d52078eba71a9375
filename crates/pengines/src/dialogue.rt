// A session that is led from rest to rest: turns of the query that runs are taken, go and come back until it rests.
ghost use Rattle.std.specs.Prelude.{◌≡◌, ◌≢◌, true, false, [], None, IfOk, IfSome, OnOk};
ghost use Rattle.event_core.specs.Full.{step, ByAbort, strikes_at};
ghost use Rattle.session.specs.Resting.{IsLed, Rests, Leads, Hears, RunsOn, comes};
ghost use Rattle.session.specs.Views.{Ended, spec_seen};

use event_core::{Event, Request};
use session::{Pulled, SendFault, Session, Took};
use term_core::Memory;

/// Runs a turn of the query, where one runs. `Err` is want of memory; the session then tells the event `memory`.
fn turned(session: &mut Session) -> Result<bool, Memory>
    requires led { IsLed session.old }
    ensures ran { IfOk result (λ b. b ≡ true → RunsOn session.old session.new) }
    ensures still { IfOk result (λ b. b ≡ false → session.new ≡ session.old) }
    ensures rests { IfOk result (λ b. b ≡ false → session.old.queue ≡ [] → Rests session.old) }
{
    let Took::Turn(mut turn) = session.take() else {
        return Ok(false);
    };
    turn.go(u64::MAX);
    let (_, _, starved) = turn.counts();
    session.give(turn);
    if starved {
        return Err(Memory);
    }
    Ok(true)
}

/// The next event, or none where the session rests and has told all. `Err` is want of memory.
pub fn next_of(session: &mut Session) -> Result<Option<Event>, Memory>
    requires led { IsLed session.old }
    ensures event { IfOk result (λ o. IfSome o (λ e. Hears session.old e session.new)) }
    ensures leads { IfOk result (λ o. o ≡ None → Leads session.old session.new (comes session.old)) }
    ensures rests { IfOk result (λ o. o ≡ None → Rests session.new) }
{
    loop {
        if let Pulled::Event(_, event) = session.pull() {
            return Ok(Some(event));
        }
        if !turned(session)? {
            return Ok(None);
        }
    }
}

/// Sends a request to a session that rests and hasn't ended: it is consumed at once. `Err` is want of memory.
pub fn ask(session: &mut Session, request: Request) -> Result<(), Memory>
    requires led { IsLed session.old }
    requires rests { Rests session.old }
    requires live { session.old.look ≢ Ended }
    ensures { OnOk result (Leads session.old session.new (step (spec_seen session.old) request (comes session.old).place)) }
{
    match session.send(request) {
        Ok(()) => Ok(()),
        Err(SendFault::Memory) => Err(Memory),
        Err(SendFault::Ended | SendFault::MailboxFull) => unreachable!(),
    }
}

/// Breaks off the query at which a session rests, where there is one.
pub fn break_off(session: &mut Session)
    requires led { IsLed session.old }
    requires rests { Rests session.old }
    ensures { Leads session.old session.new (strikes_at (spec_seen session.old) ByAbort (comes session.old).place []) }
{
    session.abort();
}
