// Why a script, a source text or a goal is refused, in words.
ghost use Rattle.std.specs.Prelude.{◌≡◌, ◌++◌, IfOk, OnOk, decimal};
ghost use Rattle.pengines.specs.Output.{line};
ghost use Rattle.pengines.specs.Refusal.{clause_of, source_text, clause_text, line_text, goal_text, refusal_text, text_of};

use crate::output::with_line_end;
use itoa::Buffer;
use program::ProgFault;
use request_text::{ScriptFault, SpecFault, place_of};
use std::alloc::Global;
use term_core::Memory;

/// Why a command's text is refused.
#[derive(Debug, Drop)]
pub enum Refusal {
    /// It is no script, or no source text.
    Script(ScriptFault),
    /// The goal can't be read.
    Goal {
        /// The byte of the goal at which it can't be read further, from 0.
        at: u64,
    },
    /// Want of memory.
    Memory,
}

impl From<Memory> for Refusal {
    ghost use Rattle.std.specs.Prelude.{◌≡◌};
    ghost use Rattle.pengines.specs.declared.refusal.Refusal.TheVariants.{Memory as Starved};

    ghost from_gives = { λ _ refusal. refusal ≡ Starved };

    fn from(_: Memory) -> Refusal {
        Refusal::Memory
    }
}

impl From<ScriptFault> for Refusal {
    ghost use Rattle.std.specs.Prelude.{◌≡◌};
    ghost use Rattle.pengines.specs.Refusal.{script_refusal};

    ghost from_gives = { λ fault refusal. refusal ≡ script_refusal fault };

    fn from(fault: ScriptFault) -> Refusal {
        match fault {
            ScriptFault::Memory => Refusal::Memory,
            ScriptFault::Utf8 { .. } | ScriptFault::Spec(_) | ScriptFault::Line { .. } => {
                Refusal::Script(fault)
            }
        }
    }
}

/// The number of the clause that is refused.
fn clause_of(fault: &ProgFault) -> u64
    ensures { result ≡ clause_of fault.now }
{
    match fault {
        ProgFault::BadDirective { clause }
        | ProgFault::NotCallable { clause }
        | ProgFault::Redefines { clause, .. } => *clause,
        ProgFault::Memory => 0,
    }
}

/// Puts a number behind a text.
fn push_number(text: &mut Vec<u8>, number: u64) -> Result<(), Memory>
    ensures { OnOk result (text.new.items ≡ text.old.items ++ decimal number) }
{
    let mut buffer = Buffer::new();
    text.extend_from_slice(buffer.format(number).as_bytes())?;
    Ok(())
}

/// A text and a number.
fn with_number(alloc: Global, text: &[u8], number: u64) -> Result<Vec<u8>, Memory>
    ensures { IfOk result (λ t. t.items ≡ text.now ++ decimal number) }
{
    let mut whole = Vec::from_slice(alloc, text)?;
    push_number(&mut whole, number)?;
    Ok(whole)
}

fn source_text(alloc: Global, at: u64) -> Result<Vec<u8>, Memory>
    ensures { IfOk result (λ t. t.items ≡ source_text at) }
{
    with_number(alloc, b"pengines: source refused at byte ", at)
}

fn clause_text(alloc: Global, clause: u64) -> Result<Vec<u8>, Memory>
    ensures { IfOk result (λ t. t.items ≡ clause_text clause) }
{
    with_number(alloc, b"pengines: source refused at clause ", clause)
}

fn goal_text(alloc: Global, at: u64) -> Result<Vec<u8>, Memory>
    ensures { IfOk result (λ t. t.items ≡ goal_text at) }
{
    with_number(alloc, b"pengines: goal refused at byte ", at)
}

fn line_text(alloc: Global, line: u64, at: u64) -> Result<Vec<u8>, Memory>
    ensures { IfOk result (λ t. t.items ≡ line_text line at) }
{
    let mut text = with_number(alloc, b"pengines: line ", line)?;
    text.extend_from_slice(b" refused at byte ")?;
    push_number(&mut text, at)?;
    Ok(text)
}

/// The text that says why a script is refused.
fn refusal_text(alloc: Global, fault: &ScriptFault) -> Result<Vec<u8>, Memory>
    ensures { IfOk result (λ t. t.items ≡ refusal_text fault.now) }
{
    let text = match fault {
        ScriptFault::Utf8 { at } => source_text(alloc, *at)?,
        ScriptFault::Spec(SpecFault::Source(fault)) => source_text(alloc, place_of(*fault))?,
        ScriptFault::Spec(SpecFault::Clause(fault)) => clause_text(alloc, clause_of(fault))?,
        ScriptFault::Spec(SpecFault::Ask(fault) | SpecFault::Template(fault)) => {
            goal_text(alloc, place_of(*fault))?
        }
        ScriptFault::Line { line, at } => line_text(alloc, *line, *at)?,
        ScriptFault::Spec(SpecFault::Memory) | ScriptFault::Memory => {
            Vec::from_slice(alloc, b"pengines: no memory")?
        }
    };
    Ok(text)
}

/// The text that says why a command's text is refused.
fn text_of(alloc: Global, refusal: &Refusal) -> Result<Vec<u8>, Memory>
    ensures { IfOk result (λ t. t.items ≡ text_of refusal.now) }
{
    match refusal {
        Refusal::Script(fault) => refusal_text(alloc, fault),
        Refusal::Goal { at } => goal_text(alloc, *at),
        Refusal::Memory => Ok(Vec::from_slice(alloc, b"pengines: no memory")?),
    }
}

/// The line that says why a command's text is refused.
pub fn refusal_line(alloc: Global, refusal: &Refusal) -> Result<Vec<u8>, Memory>
    ensures { IfOk result (λ t. t.items ≡ line (text_of refusal.now)) }
{
    let text = text_of(alloc, refusal)?;
    with_line_end(text)
}
