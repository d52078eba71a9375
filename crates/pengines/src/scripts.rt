// The command `session`: reads a script and prints its lines.
ghost use Rattle.std.specs.Prelude.{◌≡◌, ◌≢◌, ◌≤◌, ◌⊎◌, ◌++◌, [], ◌∷◌, Ok, Err, IfOk, IfErr, OnOk, IsErrOf};
ghost use Rattle.std.specs.Io.KnownBytes.{Appends};
ghost use Rattle.outside.specs.Faults.{Rose};
ghost use Rattle.pengines.specs.Output.{AppendsPart, AppendsLines, SaysMemory, line, text_of_lines};
ghost use Rattle.pengines.specs.Session.{Done, DonePart, DoneToMemory, IsTooLong, IsRefused, Unchanged};
ghost use Rattle.request_text.specs.declared.fault.ScriptFault.{ScriptFault as Fault};
ghost use Rattle.request_text.specs.declared.fault.ScriptFault.TheVariants as fault;
ghost use Rattle.request_text.specs.Kept.{script_read};
ghost use Rattle.request_text.specs.Spelled.{script};
ghost use Rattle.sandbox_walk.specs.Keeping.{KeepsSandbox};
ghost use Rattle.term_core.specs.declared.app.App.TheVariants.{Sandbox};

use crate::input::{InputStop, read_input};
use crate::output::{WriteFault, say, with_line_end, write_all};
use crate::printing::Printing;
use lib_text::Library;
use outside::{Sink, Source};
use request_text::{Script, ScriptFault, read_script};
use std::alloc::Global;
use term_core::{App, Memory};

/// Why a session ended before its last line.
#[derive(Debug, Drop)]
pub enum SessionStop {
    /// The input has more than 16,777,216 bytes.
    TooLong,
    /// The input is no script.
    Refused(ScriptFault),
    /// The source failed.
    ReadFault,
    /// The sink failed.
    WriteFault,
    /// Want of memory, the pengine's own included.
    Memory,
}

impl From<InputStop> for SessionStop {
    ghost use Rattle.std.specs.Prelude.{◌≡◌};
    ghost use Rattle.pengines.specs.Stop.{stop_of_input};

    ghost from_gives = { λ stop s. s ≡ stop_of_input stop };

    fn from(stop: InputStop) -> SessionStop {
        match stop {
            InputStop::TooLong => SessionStop::TooLong,
            InputStop::ReadFault => SessionStop::ReadFault,
            InputStop::Memory => SessionStop::Memory,
        }
    }
}

impl From<Memory> for SessionStop {
    ghost use Rattle.std.specs.Prelude.{◌≡◌};
    ghost use Rattle.pengines.specs.declared.scripts.SessionStop.TheVariants.{Memory};

    ghost from_gives = { λ _ s. s ≡ Memory };

    fn from(_: Memory) -> SessionStop {
        SessionStop::Memory
    }
}

/// Why printing ended before the last line.
#[derive(Clone, Copy, Debug, PartialEq, Eq)]
enum PrintStop {
    WriteFault,
    Memory,
}

impl From<WriteFault> for PrintStop {
    ghost use Rattle.std.specs.Prelude.{◌≡◌};
    ghost use Rattle.pengines.specs.declared.scripts.PrintStop.TheVariants.{WriteFault};

    ghost from_gives = { λ _ e. e ≡ WriteFault };

    fn from(_: WriteFault) -> PrintStop {
        PrintStop::WriteFault
    }
}

impl From<Memory> for PrintStop {
    ghost use Rattle.std.specs.Prelude.{◌≡◌};
    ghost use Rattle.pengines.specs.declared.scripts.PrintStop.TheVariants.{Memory};

    ghost from_gives = { λ _ e. e ≡ Memory };

    fn from(_: Memory) -> PrintStop {
        PrintStop::Memory
    }
}

/// Runs the command: reads the whole source, and then prints the script's lines as they come.
///
/// Nothing is written before the script is accepted. Where memory is wanting after that, the
/// pengine's own event `memory` is the last line, in place of those that would follow.
pub fn run_session<S: Source, K: Sink>(
    alloc: Global,
    src: &mut S,
    out: &mut K,
) -> Result<(), SessionStop>
    ensures done { OnOk result (Done S.left K.taken src.old src.new out.old out.new) }

    ensures too_long { IsErrOf result SessionStop.TooLong →
        IsTooLong S.left src.old src.new
        × Unchanged K.taken out.old out.new }

    ensures refused { (fault : Fault) → IsErrOf result (SessionStop.Refused fault) →
        IsRefused S.left src.old src.new fault
        × Unchanged K.taken out.old out.new }

    ensures read_fault { IsErrOf result SessionStop.ReadFault →
        Rose (S.faults src.old) (S.faults src.new)
        × Unchanged K.taken out.old out.new }

    ensures write_fault { IsErrOf result SessionStop.WriteFault →
        Rose (K.faults out.old) (K.faults out.new)
        × DonePart S.left K.taken src.old src.new out.old out.new }

    ensures memory { IsErrOf result SessionStop.Memory →
        Unchanged K.taken out.old out.new
        ⊎ DoneToMemory S.left K.taken K.faults src.old src.new out.old out.new }
{
    let input = read_input(alloc, src)?;
    let script = match script_in(alloc, &input) {
        Ok(script) => script,
        Err(ScriptFault::Memory) => return Err(SessionStop::Memory),
        Err(fault) => return Err(SessionStop::Refused(fault)),
    };
    let printing = Printing::new(alloc, script)?;
    match print_script(alloc, printing, out) {
        Ok(()) => Ok(()),
        Err(PrintStop::WriteFault) => Err(SessionStop::WriteFault),
        Err(PrintStop::Memory) => Err(SessionStop::Memory),
    }
}

/// The script that an input spells over the library of the sandbox.
fn script_in(alloc: Global, input: &[u8]) -> Result<Script, ScriptFault>
    ensures script { IfOk result (λ s. script Sandbox input.now ≡ Ok (script_read s)) }
    ensures keeps { IfOk result (λ s. KeepsSandbox s.spec.program.value) }
    ensures refused { IfErr result (λ e. e ≢ fault.Memory → script Sandbox input.now ≡ Err e) }
{
    let library = Library::read(alloc, App::Sandbox)?;
    read_script(alloc, &library, input)
}

/// Prints a script's lines, or some first ones and the line `memory` where memory is wanting.
fn print_script<K: Sink>(
    alloc: Global,
    mut printing: Printing,
    out: &mut K,
) -> Result<(), PrintStop>
    ensures done { OnOk result
        (Appends (K.taken out.old) (K.taken out.new) (text_of_lines printing)) }
    ensures write_fault { IsErrOf result PrintStop.WriteFault →
        Rose (K.faults out.old) (K.faults out.new)
        × AppendsPart (K.taken out.old) (K.taken out.new) (text_of_lines printing) }
    ensures memory { IsErrOf result PrintStop.Memory →
        SaysMemory K.taken K.faults out.old out.new printing }
{
    match print_lines(alloc, &mut printing, out) {
        Err(PrintStop::Memory) => {
            say(out, b"memory\n");
            Err(PrintStop::Memory)
        }
        printed => printed,
    }
}

/// Prints a script's lines, each in one call of `write_all`, until memory is wanting.
fn print_lines<K: Sink>(
    alloc: Global,
    printing: &mut Printing,
    out: &mut K,
) -> Result<(), PrintStop>
    ensures done { OnOk result
        (Appends (K.taken out.old) (K.taken out.new) (text_of_lines printing.old)) }
    ensures write_fault { IsErrOf result PrintStop.WriteFault →
        Rose (K.faults out.old) (K.faults out.new)
        × AppendsPart (K.taken out.old) (K.taken out.new) (text_of_lines printing.old) }
    ensures memory { IsErrOf result PrintStop.Memory →
        AppendsLines (K.taken out.old) (K.taken out.new) printing.old }
    ensures counted { K.faults out.old ≤ K.faults out.new }
{
    while let Some(text) = printing.next_line(alloc)? {
        let line = with_line_end(text)?;
        write_all(out, &line)?;
    }
    Ok(())
}
