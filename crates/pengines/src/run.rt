// The top call.
ghost use Rattle.std.specs.Prelude.{◌≡◌, ◌≢◌, ◌⊎◌, ℕ, List, None, codes, map, string_bytes};
ghost use Rattle.outside.specs.Faults.{Rose};
ghost use Rattle.pengines.specs.Checking.{Checked, CheckedPart, CheckRefuses};
ghost use Rattle.pengines.specs.Output.{Says, line};
ghost use Rattle.pengines.specs.Refusal.{text_of};
ghost use Rattle.pengines.specs.Session.{Done, DonePart, DoneToMemory, IsTooLong, Refuses, Unchanged};
ghost use Rattle.pengines.specs.Words.{IsSession, IsCheck, goal_of, usage};

use crate::checking::{CheckStop, run_check};
use crate::command::{goal_of, is_session};
use crate::input::InputStop;
use crate::output::say;
use crate::refusal::{Refusal, refusal_line};
use crate::scripts::{SessionStop, run_session};
use outside::{Sink, Source};
use std::alloc::Global;
use term_core::Memory;

/// Says why a command's text is refused, and answers the exit status.
fn say_refusal<X: Sink>(alloc: Global, err: &mut X, refusal: &Refusal) -> u8
    ensures statuses { (result ≡ 3) ⊎ (result ≡ 7) }
    ensures refused { result ≡ 3 → Says X.taken X.faults err.old err.new (line (text_of refusal.now)) }
    ensures not_memory { result ≡ 3 → refusal.now ≢ Refusal.Memory }
    ensures memory { result ≡ 7 → Says X.taken X.faults err.old err.new (line (codes "pengines: no memory")) }
{
    if let Refusal::Memory = refusal {
        say(err, b"pengines: no memory\n");
        return 7;
    }
    match refusal_line(alloc, refusal) {
        Ok(line) => {
            say(err, &line);
            3
        }
        Err(Memory) => {
            say(err, b"pengines: no memory\n");
            7
        }
    }
}

/// Runs the command `session`, and answers its exit status.
fn session_status<S: Source, K: Sink, X: Sink>(
    alloc: Global,
    src: &mut S,
    out: &mut K,
    err: &mut X,
) -> u8
    ensures statuses { (result ≡ 0) ⊎ (result ≡ 3) ⊎ (result ≡ 4) ⊎ (result ≡ 5) ⊎ (result ≡ 7) }
    ensures done { result ≡ 0 → Done S.left K.taken src.old src.new out.old out.new
        × Unchanged X.taken err.old err.new }
    ensures refused { result ≡ 3 → Unchanged K.taken out.old out.new
        × ((IsTooLong S.left src.old src.new
        × Says X.taken X.faults err.old err.new (line (codes "pengines: input too long")))
        ⊎ Refuses S.left X.taken X.faults src.old src.new err.old err.new) }
    ensures read_fault { result ≡ 4 → Rose (S.faults src.old) (S.faults src.new)
        × Unchanged K.taken out.old out.new
        × Says X.taken X.faults err.old err.new (line (codes "pengines: read fault")) }
    ensures write_fault { result ≡ 5 → Rose (K.faults out.old) (K.faults out.new)
        × DonePart S.left K.taken src.old src.new out.old out.new
        × Says X.taken X.faults err.old err.new (line (codes "pengines: write fault")) }
    ensures memory { result ≡ 7 → (Unchanged K.taken out.old out.new
        ⊎ DoneToMemory S.left K.taken K.faults src.old src.new out.old out.new)
        × Says X.taken X.faults err.old err.new (line (codes "pengines: no memory")) }
{
    match run_session(alloc, src, out) {
        Ok(()) => 0,
        Err(SessionStop::TooLong) => {
            say(err, b"pengines: input too long\n");
            3
        }
        Err(SessionStop::Refused(fault)) => say_refusal(alloc, err, &Refusal::Script(fault)),
        Err(SessionStop::ReadFault) => {
            say(err, b"pengines: read fault\n");
            4
        }
        Err(SessionStop::WriteFault) => {
            say(err, b"pengines: write fault\n");
            5
        }
        Err(SessionStop::Memory) => {
            say(err, b"pengines: no memory\n");
            7
        }
    }
}

/// Says why an input wasn't read to its end, and answers the exit status.
fn say_input_stop<X: Sink>(err: &mut X, stop: InputStop) -> u8
    ensures statuses { (result ≡ 3) ⊎ (result ≡ 4) ⊎ (result ≡ 7) }
    ensures too_long { result ≡ 3 → (stop ≡ InputStop.TooLong)
        × Says X.taken X.faults err.old err.new (line (codes "pengines: input too long")) }
    ensures read_fault { result ≡ 4 → (stop ≡ InputStop.ReadFault)
        × Says X.taken X.faults err.old err.new (line (codes "pengines: read fault")) }
    ensures memory { result ≡ 7 → (stop ≡ InputStop.Memory)
        × Says X.taken X.faults err.old err.new (line (codes "pengines: no memory")) }
{
    match stop {
        InputStop::TooLong => {
            say(err, b"pengines: input too long\n");
            3
        }
        InputStop::ReadFault => {
            say(err, b"pengines: read fault\n");
            4
        }
        InputStop::Memory => {
            say(err, b"pengines: no memory\n");
            7
        }
    }
}

/// Runs the command `check` for a goal, and answers its exit status.
fn check_status<S: Source, K: Sink, X: Sink>(
    alloc: Global,
    goal: &str,
    src: &mut S,
    out: &mut K,
    err: &mut X,
) -> u8
    ensures statuses { (result ≡ 0) ⊎ (result ≡ 3) ⊎ (result ≡ 4) ⊎ (result ≡ 5) ⊎ (result ≡ 7) }
    ensures safe { result ≡ 0 → Checked S.left K.taken src.old src.new out.old out.new goal.now None
        × Unchanged X.taken err.old err.new }
    ensures refused { result ≡ 3 →
        CheckRefuses S.left K.taken X.taken X.faults src.old src.new out.old out.new err.old err.new goal.now }
    ensures read_fault { result ≡ 4 → Rose (S.faults src.old) (S.faults src.new)
        × Unchanged K.taken out.old out.new
        × Says X.taken X.faults err.old err.new (line (codes "pengines: read fault")) }
    ensures write_fault { result ≡ 5 → Rose (K.faults out.old) (K.faults out.new)
        × CheckedPart S.left K.taken src.old src.new out.old out.new goal.now
        × Says X.taken X.faults err.old err.new (line (codes "pengines: write fault")) }
    ensures memory { result ≡ 7 → Unchanged K.taken out.old out.new
        × Says X.taken X.faults err.old err.new (line (codes "pengines: no memory")) }
{
    match run_check(alloc, goal, src, out) {
        Ok(None) => 0,
        Ok(Some(_)) => 3,
        Err(CheckStop::Input(stop)) => say_input_stop(err, stop),
        Err(CheckStop::Refused(refusal)) => say_refusal(alloc, err, &refusal),
        Err(CheckStop::WriteFault) => {
            say(err, b"pengines: write fault\n");
            5
        }
        Err(CheckStop::Memory) => {
            say(err, b"pengines: no memory\n");
            7
        }
    }
}

/// Runs the command that the words name, and answers its exit status. A fault of `err` changes no status.
///
/// | Status | Comes |
/// |---|---|
/// | 0 | the command did its work, and its input was read to the end; `check` printed `safe` |
/// | 2 | exactly where the words are refused |
/// | 3 | exactly where the input is too long, it is no script or no source text, or the goal is refused; and where `check` printed `unsafe` and why |
/// | 4 | only where the count of faults of `src` rose |
/// | 5 | only where the count of faults of `out` rose |
/// | 7 | want of memory, the pengine's own event `memory` included |
pub fn run_plain<S: Source, K: Sink, X: Sink>(
    alloc: Global,
    words: &[String],
    src: &mut S,
    out: &mut K,
    err: &mut X,
) -> u8
    // Which statuses there are.
    ensures statuses { (result ≡ 0) ⊎ (result ≡ 2) ⊎ (result ≡ 3)
        ⊎ (result ≡ 4) ⊎ (result ≡ 5) ⊎ (result ≡ 7) }

    // The words are refused exactly where they are neither `session` nor `check` and a goal. Then
    // nothing is read, and nothing is written but the usage.
    ensures words { result ≢ 2 → IsSession words.now ⊎ ((goal : List ℕ) × IsCheck words.now goal) }
    ensures usage { result ≡ 2 → ¬ IsSession words.now
        × (goal_of (map string_bytes words.now) ≡ None)
        × Unchanged S.left src.old src.new
        × Unchanged K.taken out.old out.new
        × Says X.taken X.faults err.old err.new usage }

    // The input was read to its end, and the bytes written are the lines of the script that it
    // spells.
    ensures done { IsSession words.now → result ≡ 0 →
        Done S.left K.taken src.old src.new out.old out.new
        × Unchanged X.taken err.old err.new }

    // The input is too long, or it is refused as a script. Nothing is written but the refusal.
    ensures refused { IsSession words.now → result ≡ 3 → Unchanged K.taken out.old out.new
        × ((IsTooLong S.left src.old src.new
        × Says X.taken X.faults err.old err.new (line (codes "pengines: input too long")))
        ⊎ Refuses S.left X.taken X.faults src.old src.new err.old err.new) }

    // The input was read to its end, and the verdict on the goal, over the program that the input
    // spells, is that it may be asked. The bytes written are the line that says so.
    ensures safe { (goal : List ℕ) → IsCheck words.now goal → result ≡ 0 →
        Checked S.left K.taken src.old src.new out.old out.new goal None
        × Unchanged X.taken err.old err.new }

    // The bytes written are the line of another verdict; or the input is too long, or its source
    // text or the goal is refused, and nothing is written but the refusal.
    ensures not_safe { (goal : List ℕ) → IsCheck words.now goal → result ≡ 3 →
        CheckRefuses S.left K.taken X.taken X.faults src.old src.new out.old out.new err.old err.new goal }

    // The source failed. Nothing is written.
    ensures read_fault { result ≡ 4 → Rose (S.faults src.old) (S.faults src.new)
        × Unchanged K.taken out.old out.new
        × Says X.taken X.faults err.old err.new (line (codes "pengines: read fault")) }

    // The sink failed. A first part of the lines is written.
    ensures write_fault { result ≡ 5 → Rose (K.faults out.old) (K.faults out.new)
        × Says X.taken X.faults err.old err.new (line (codes "pengines: write fault")) }
    ensures part { IsSession words.now → result ≡ 5 →
        DonePart S.left K.taken src.old src.new out.old out.new }
    ensures checked_part { (goal : List ℕ) → IsCheck words.now goal → result ≡ 5 →
        CheckedPart S.left K.taken src.old src.new out.old out.new goal }

    // Memory is wanting. Nothing is written, or some first lines and then the line `memory`.
    ensures memory { result ≡ 7 →
        Says X.taken X.faults err.old err.new (line (codes "pengines: no memory")) }
    ensures to_memory { IsSession words.now → result ≡ 7 → Unchanged K.taken out.old out.new
        ⊎ DoneToMemory S.left K.taken K.faults src.old src.new out.old out.new }
    ensures nothing_checked { (goal : List ℕ) → IsCheck words.now goal → result ≡ 7 →
        Unchanged K.taken out.old out.new }
{
    if is_session(words) {
        return session_status(alloc, src, out, err);
    }
    match goal_of(words) {
        Some(goal) => check_status(alloc, goal, src, out, err),
        None => {
            say(
                err,
                b"usage: pengines session\n       pengines check GOAL\n",
            );
            2
        }
    }
}
