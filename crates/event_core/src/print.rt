ghost use Rattle.std.specs.Prelude.{◌≡◌, ◌++◌, IfOk, OnOk, codes};
ghost use Rattle.event_core.specs.Texts.{argument};
ghost use Rattle.event_core.specs.Lines.{bool_text, kind_text, further_text, list_text, line_of};

use crate::event::{Event, Kind};
use crate::text::argument_bytes;
use std::alloc::Global;
use term_core::{Memory, Term};

fn kind_name(kind: Kind) -> &'static [u8]
    ensures { result.now ≡ kind_text kind }
{
    match kind {
        Kind::Ask => b"ask",
        Kind::Next => b"next",
        Kind::Stop => b"stop",
        Kind::Respond => b"respond",
    }
}

fn bool_name(value: bool) -> &'static [u8]
    ensures { result.now ≡ bool_text value }
{
    if value { b"true" } else { b"false" }
}

// A comma before each term.
fn push_further(alloc: Global, out: &mut Vec<u8>, terms: &[Term]) -> Result<(), Memory>
    ensures { OnOk result (out.new.items ≡ out.old.items ++ further_text argument terms.now) }
{
    for term in terms {
        let text = argument_bytes(alloc, term)?;
        out.push(b',')?;
        out.extend_from_slice(&text)?;
    }
    Ok(())
}

// Terms with commas between them.
fn push_list(alloc: Global, out: &mut Vec<u8>, terms: &[Term]) -> Result<(), Memory>
    ensures { OnOk result (out.new.items ≡ out.old.items ++ list_text argument terms.now) }
{
    if let Some((first, rest)) = terms.split_first() {
        let text = argument_bytes(alloc, first)?;
        out.extend_from_slice(&text)?;
        push_further(alloc, out, rest)?;
    }
    Ok(())
}

fn success(alloc: Global, answers: &[Term], more: bool) -> Result<Vec<u8>, Memory>
    ensures { IfOk result (λ v. v.items ≡ codes "success([" ++ list_text argument answers.now ++ codes "]," ++ bool_text more ++ codes ")") }
{
    let mut out = Vec::from_slice(alloc, b"success([")?;
    push_list(alloc, &mut out, answers)?;
    out.extend_from_slice(b"],")?;
    out.extend_from_slice(bool_name(more))?;
    out.extend_from_slice(b")")?;
    Ok(out)
}

// This text, a term, and a closing bracket.
fn with_term(alloc: Global, opening: &[u8], term: &Term) -> Result<Vec<u8>, Memory>
    ensures { IfOk result (λ v. v.items ≡ opening.now ++ argument term.now ++ codes ")") }
{
    let mut out = Vec::from_slice(alloc, opening)?;
    let text = argument_bytes(alloc, term)?;
    out.extend_from_slice(&text)?;
    out.push(b')')?;
    Ok(out)
}

fn protocol(alloc: Global, kind: Kind) -> Result<Vec<u8>, Memory>
    ensures { IfOk result (λ v. v.items ≡ codes "error(protocol_error(" ++ kind_text kind ++ codes "))") }
{
    let mut out = Vec::from_slice(alloc, b"error(protocol_error(")?;
    out.extend_from_slice(kind_name(kind))?;
    out.extend_from_slice(b"))")?;
    Ok(out)
}

fn name_alone(alloc: Global, name: &[u8]) -> Result<Vec<u8>, Memory>
    ensures { IfOk result (λ v. v.items ≡ name.now) }
{
    Ok(Vec::from_slice(alloc, name)?)
}

/// The line of an event, without its line end.
pub fn line(alloc: Global, event: &Event) -> Result<Vec<u8>, Memory>
    ensures { IfOk result (λ v. v.items ≡ line_of argument event.now) }
{
    let text = match event {
        Event::Success { answers, more, .. } => success(alloc, answers.as_slice(), *more)?,
        Event::Error(ball) => with_term(alloc, b"error(", ball)?,
        Event::Output(term) => with_term(alloc, b"output(", term)?,
        Event::Prompt(term) => with_term(alloc, b"prompt(", term)?,
        Event::Protocol(kind) => protocol(alloc, *kind)?,
        Event::Create => name_alone(alloc, b"create")?,
        Event::Failure => name_alone(alloc, b"failure")?,
        Event::Stop => name_alone(alloc, b"stop")?,
        Event::Abort => name_alone(alloc, b"abort")?,
        Event::Destroy => name_alone(alloc, b"destroy")?,
        Event::Limit => name_alone(alloc, b"limit")?,
        Event::Memory => name_alone(alloc, b"memory")?,
    };
    Ok(text)
}
