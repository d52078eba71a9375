// Calls of a session, one by one.
ghost use Rattle.std.specs.Prelude.{◌≡◌, ◌<◌, None, Some, IfSome};
ghost use Rattle.session.specs.Recorded.{IsTaken};
ghost use Rattle.session.specs.Views.{Gone};

use crate::row::number;
use crate::stop::Stop;
use crate::terms::of_bytes;
use event_core::{Made, Waiting, line};
use request_text::{Sent, read_request};
use session::{Given, Pulled, PulledMany, SendFault, Session, Took, Turn};
use std::alloc::Global;

/// The turn of the query that runs, where there is one; it has not gone.
fn taken(session: &mut Session) -> Option<Turn>
    ensures taken { IfSome result (IsTaken session.new) }
    ensures fresh { IfSome result (λ t. t.gone ≡ None) }
{
    match session.take() {
        Took::Turn(turn) => Some(turn),
        Took::Out | Took::Idle | Took::QueueFull => None,
    }
}

/// Lets a turn go so many steps.
fn ran(session: &Session, turn: &mut Turn, budget: u64) -> Made
    requires taken { IsTaken session.now turn.old }
    requires fresh { turn.old.gone ≡ None }
    requires some { 0 < budget }
    ensures taken { IsTaken session.now turn.new }
    ensures gone { (g : Gone) × (turn.new.gone ≡ Some g) }
{
    turn.go(budget)
}

/// Breaks off what the session does, while this turn is out.
fn aborted(session: &mut Session, turn: &Turn)
    requires { IsTaken session.old turn.now }
    ensures { IsTaken session.new turn.now }
{
    session.abort();
}

/// What a turn did.
#[derive(Drop)]
pub(crate) struct TurnOutcome {
    query: u64,
    made: Made,
    given: Given,
}

/// Takes a turn, where there is one, lets it go so many steps, and gives it back.
pub(crate) fn turned(session: &mut Session, budget: u64) -> Option<TurnOutcome>
    requires { 0 < budget }
{
    let mut turn = taken(session)?;
    let query = turn.query();
    let made = ran(session, &mut turn, budget);
    let given = session.give(turn);
    Some(TurnOutcome { query, made, given })
}

/// The same by 10,000 steps, with an abort before the turn is given back.
fn turned_in_vain(session: &mut Session) -> Option<TurnOutcome> {
    let mut turn = taken(session)?;
    let query = turn.query();
    let made = ran(session, &mut turn, 10_000);
    aborted(session, &turn);
    let given = session.give(turn);
    Some(TurnOutcome { query, made, given })
}

/// What a turn did, in words.
fn outcome_text(alloc: Global, outcome: Option<TurnOutcome>) -> Result<String, Stop> {
    let Some(TurnOutcome { query, made, given }) = outcome else {
        return Ok(String::from_str(alloc, "no turn")?);
    };
    let Made { steps, events } = made;
    Ok(format!(in alloc; "query {query}: {steps} steps, {events} events, {given:?}")?)
}

fn run(alloc: Global, session: &mut Session, budget: u64) -> Result<String, Stop> {
    if budget == 0 {
        return Err(Stop::Malformed);
    }
    outcome_text(alloc, turned(session, budget))
}

fn pull(alloc: Global, session: &mut Session) -> Result<String, Stop> {
    match session.pull() {
        Pulled::Event(number, event) => {
            let text = of_bytes(line(alloc, &event)?)?;
            Ok(format!(in alloc; "{number} {text}")?)
        }
        Pulled::Pending => Ok(String::from_str(alloc, "pending")?),
        Pulled::Ended => Ok(String::from_str(alloc, "ended")?),
    }
}

/// The first number, and the lines of the events.
fn events_text(alloc: Global, mut events: Waiting) -> Result<String, Stop> {
    let mut text = String::new(alloc);
    for _ in 0..events.len() {
        let Some((number, event)) = events.next() else {
            break;
        };
        if text.is_empty() {
            write!(text, "{number} ")?;
        } else {
            text.push_str("; ")?;
        }
        text.push_str(&of_bytes(line(alloc, &event)?)?)?;
    }
    Ok(text)
}

/// Pulls so many events at most, from 1 to 64.
fn pull_many(alloc: Global, session: &mut Session, most: u32) -> Result<String, Stop> {
    if most == 0 || most > 64 {
        return Err(Stop::Malformed);
    }
    match session.pull_many(most)? {
        PulledMany::Events(events) => events_text(alloc, events),
        PulledMany::Pending => Ok(String::from_str(alloc, "pending")?),
        PulledMany::Ended => Ok(String::from_str(alloc, "ended")?),
    }
}

fn send(alloc: Global, session: &mut Session, text: &str) -> Result<&'static str, Stop> {
    let Ok(Sent::Request(request)) = read_request(alloc, text) else {
        return Err(Stop::Malformed);
    };
    match session.send(request) {
        Ok(()) => Ok("sent"),
        Err(SendFault::Ended) => Ok("ended"),
        Err(SendFault::MailboxFull) => Ok("mailbox full"),
        Err(SendFault::Memory) => Err(Stop::Memory),
    }
}

fn take(session: &mut Session) -> &'static str {
    match session.take() {
        Took::Turn(_) => "turn",
        Took::Out => "out",
        Took::Idle => "idle",
        Took::QueueFull => "queue full",
    }
}

/// The answer of a call without arguments.
fn plain_call(session: &mut Session, text: &str) -> Result<&'static str, Stop> {
    match text {
        "take" => Ok(take(session)),
        "is ready" => Ok(if session.ready() { "yes" } else { "no" }),
        "has ended" => Ok(if session.ended() { "yes" } else { "no" }),
        "abort" => {
            session.abort();
            Ok("aborted")
        }
        _ => Err(Stop::Malformed),
    }
}

/// The answer of a call: `send REQUEST`, `run STEPS`, `in vain`, `pull`, `pull many EVENTS`, `take`, `is ready`, `has ended` or
/// `abort`.
pub(crate) fn command(alloc: Global, session: &mut Session, text: &str) -> Result<String, Stop> {
    if let Some(request) = text.strip_prefix("send ") {
        let answer = send(alloc, session, request)?;
        return Ok(String::from_str(alloc, answer)?);
    }
    if let Some(budget) = text.strip_prefix("run ") {
        return run(alloc, session, number(budget)?);
    }
    if let Some(most) = text.strip_prefix("pull many ") {
        let most = most.parse::<u32>().map_err(|_| Stop::Malformed)?;
        return pull_many(alloc, session, most);
    }
    if text == "in vain" {
        return outcome_text(alloc, turned_in_vain(session));
    }
    if text == "pull" {
        return pull(alloc, session);
    }
    let answer = plain_call(session, text)?;
    Ok(String::from_str(alloc, answer)?)
}
