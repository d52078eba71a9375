// The command `check`: reads a source text, and prints the sandbox's verdict on a goal.
ghost use Rattle.std.specs.Prelude.{◌≡◌, ◌≢◌, ◌≤◌, Ok, Err, IfOk, IfErr, IsErrOf};
ghost use Rattle.outside.specs.Faults.{Rose};
ghost use Rattle.term_core.specs.declared.app.App.TheVariants.{Sandbox};
ghost use Rattle.prolog_read.specs.Clauses.{iso};
ghost use Rattle.prolog_read.specs.Outcome.{term_read};
ghost use Rattle.request_text.specs.declared.fault.ScriptFault.TheVariants as script_fault;
ghost use Rattle.sandbox_walk.specs.Computed.{verdict_over};
ghost use Rattle.pengines.specs.declared.input.InputStop.TheVariants as input_stop;
ghost use Rattle.pengines.specs.declared.refusal.Refusal.TheVariants as refusal_kind;
ghost use Rattle.pengines.specs.declared.refusal.Refusal.{Refusal as Reason};
ghost use Rattle.pengines.specs.Checking.{source_in, goal_read, judged, verdict_text, Judges, Checked, CheckedPart};
ghost use Rattle.pengines.specs.Output.{line};
ghost use Rattle.pengines.specs.Session.{IsTooLong, Unchanged};

use crate::input::{InputStop, read_input};
use crate::output::{WriteFault, with_line_end, write_all};
use crate::refusal::Refusal;
use lib_text::Library;
use op_table::Ops;
use outside::{Sink, Source};
use program::Program;
use prolog_read::{ReadFault, read_term};
use prolog_write::{Mode, text};
use request_text::{ScriptFault, place_of, program_in};
use sandbox_walk::{Unsafe, check};
use std::alloc::Global;
use std::sync::Arc;
use term_core::{App, Memory, Term};

/// Why no verdict was printed.
#[derive(Debug, Drop)]
pub enum CheckStop {
    /// The input wasn't read to its end.
    Input(InputStop),
    /// The source text or the goal is refused, or memory is wanting for them.
    Refused(Refusal),
    /// The sink failed.
    WriteFault,
    /// Want of memory.
    Memory,
}

impl From<InputStop> for CheckStop {
    ghost use Rattle.std.specs.Prelude.{◌≡◌};
    ghost use Rattle.pengines.specs.declared.checking.CheckStop.TheVariants.{Input};

    ghost from_gives = { λ stop s. s ≡ Input stop };

    fn from(stop: InputStop) -> CheckStop {
        CheckStop::Input(stop)
    }
}

impl From<Refusal> for CheckStop {
    ghost use Rattle.std.specs.Prelude.{◌≡◌};
    ghost use Rattle.pengines.specs.declared.checking.CheckStop.TheVariants.{Refused};

    ghost from_gives = { λ refusal s. s ≡ Refused refusal };

    fn from(refusal: Refusal) -> CheckStop {
        CheckStop::Refused(refusal)
    }
}

impl From<WriteFault> for CheckStop {
    ghost use Rattle.std.specs.Prelude.{◌≡◌};
    ghost use Rattle.pengines.specs.declared.checking.CheckStop.TheVariants.{WriteFault};

    ghost from_gives = { λ _ s. s ≡ WriteFault };

    fn from(_: WriteFault) -> CheckStop {
        CheckStop::WriteFault
    }
}

impl From<Memory> for CheckStop {
    ghost use Rattle.std.specs.Prelude.{◌≡◌};
    ghost use Rattle.pengines.specs.declared.checking.CheckStop.TheVariants.{Memory};

    ghost from_gives = { λ _ s. s ≡ Memory };

    fn from(_: Memory) -> CheckStop {
        CheckStop::Memory
    }
}

/// Runs the command: reads the whole source, and prints the line of the verdict on the goal, which
/// is answered too. Nothing is written before the verdict stands.
pub fn run_check<S: Source, K: Sink>(
    alloc: Global,
    goal: &str,
    src: &mut S,
    out: &mut K,
) -> Result<Option<Unsafe>, CheckStop>
    ensures done { IfOk result (λ v.
        Checked S.left K.taken src.old src.new out.old out.new goal.now v) }

    ensures too_long { IsErrOf result (CheckStop.Input input_stop.TooLong) →
        IsTooLong S.left src.old src.new
        × Unchanged K.taken out.old out.new }

    ensures read_fault { IsErrOf result (CheckStop.Input input_stop.ReadFault) →
        Rose (S.faults src.old) (S.faults src.new)
        × Unchanged K.taken out.old out.new }

    ensures refused { (r : Reason) → IsErrOf result (CheckStop.Refused r) →
        (r ≢ refusal_kind.Memory → Judges S.left src.old src.new goal.now (Err r))
        × Unchanged K.taken out.old out.new }

    ensures write_fault { IsErrOf result CheckStop.WriteFault →
        Rose (K.faults out.old) (K.faults out.new)
        × CheckedPart S.left K.taken src.old src.new out.old out.new goal.now }

    ensures memory { IsErrOf result CheckStop.Memory → Unchanged K.taken out.old out.new }
    ensures input_memory { IsErrOf result (CheckStop.Input input_stop.Memory) → Unchanged K.taken out.old out.new }
{
    let input = read_input(alloc, src)?;
    let library = Library::read(alloc, App::Sandbox)?;
    let verdict = judged(alloc, &library, &input, goal)?;
    let line = verdict_line(alloc, &verdict)?;
    write_all(out, &line)?;
    Ok(verdict)
}

/// The line that tells a verdict.
fn verdict_line(alloc: Global, verdict: &Option<Unsafe>) -> Result<Vec<u8>, Memory>
    ensures { IfOk result (λ l. l.items ≡ line (verdict_text verdict.now)) }
{
    let text = match verdict {
        None => Vec::from_slice(alloc, b"safe")?,
        Some(refusal) => refusal_text(alloc, refusal)?,
    };
    with_line_end(text)
}

/// What is said of a goal that is refused.
fn refusal_text(alloc: Global, refusal: &Unsafe) -> Result<Vec<u8>, Memory>
    ensures { IfOk result (λ t. t.items ≡ verdict_text (Some refusal.now)) }
{
    let formal = refusal.formal(alloc)?;
    let Ok(written) = text(alloc, &formal, Mode::Quoted, u64::MAX) else {
        return Err(Memory);
    };
    let mut whole = Vec::from_slice(alloc, b"unsafe ")?;
    whole.extend_from_slice(&written)?;
    Ok(whole)
}

/// The sandbox's verdict on the goal that a text spells, over the program that an input spells.
fn judged(
    alloc: Global,
    library: &Library,
    input: &[u8],
    goal: &str,
) -> Result<Option<Unsafe>, Refusal>
    requires { library.now.app ≡ Sandbox }
    ensures verdict { IfOk result (λ v. judged input.now goal.now ≡ Ok v) }
    ensures refused { IfErr result (λ e. e ≢ refusal_kind.Memory → judged input.now goal.now ≡ Err e) }
{
    let program = source_in(alloc, library, input)?;
    let goal = goal_in(alloc, goal)?;
    let program = shared(alloc, program)?;
    let verdict = verdict_on(alloc, &program, &goal)?;
    Ok(verdict)
}

/// The program, to be shared.
fn shared(alloc: Global, program: Program) -> Result<Arc<Program>, Memory>
    ensures { IfOk result (λ p. p.value ≡ program) }
{
    Ok(Arc::new(alloc, program)?)
}

/// The sandbox's verdict on a goal.
fn verdict_on(alloc: Global, program: &Arc<Program>, goal: &Term) -> Result<Option<Unsafe>, Memory>
    ensures { IfOk result (λ v. v ≡ verdict_over program.now.value goal.now) }
{
    match check(alloc, program, goal) {
        Ok(_) => Ok(None),
        Err(Unsafe::Sandboxed(pi)) => Ok(Some(Unsafe::Sandboxed(pi))),
        Err(Unsafe::Uninstantiated) => Ok(Some(Unsafe::Uninstantiated)),
        Err(Unsafe::NotCallable(term)) => Ok(Some(Unsafe::NotCallable(term))),
        Err(Unsafe::Memory) => Err(Memory),
    }
}

/// The term of a goal's text.
fn goal_in(alloc: Global, text: &str) -> Result<Term, Refusal>
    ensures goal { IfOk result (λ t. goal_read (term_read iso text.now) ≡ Ok t) }
    ensures refused { IfErr result (λ e. e ≢ refusal_kind.Memory → goal_read (term_read iso text.now) ≡ Err e) }
{
    let ops = Ops::iso(alloc)?;
    match read_term(alloc, text, &ops) {
        Ok(reading) => Ok(reading.term),
        Err(ReadFault::Memory) => Err(Refusal::Memory),
        Err(fault) => Err(Refusal::Goal {
            at: place_of(fault),
        }),
    }
}

/// The program of an input that is a source text whole.
fn source_in(alloc: Global, library: &Library, input: &[u8]) -> Result<Program, ScriptFault>
    requires { library.now.app ≡ Sandbox }
    ensures program { IfOk result (λ p. source_in input.now ≡ Ok p) }
    ensures refused { IfErr result (λ e. e ≢ script_fault.Memory → source_in input.now ≡ Err e) }
{
    match str::from_utf8(input) {
        Ok(text) => Ok(program_in(alloc, library, text)?),
        Err(error) => Err(ScriptFault::Utf8 {
            at: error.valid_up_to() as u64,
        }),
    }
}
