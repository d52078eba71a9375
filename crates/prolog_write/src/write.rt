ghost use Rattle.std.specs.Prelude.{◌≡◌, ◌<◌, ◌≤◌, [], None, List, length, IfOk, IfErr, OnOk};
ghost use Rattle.term_core.specs.Tree.{Tree};
ghost use Rattle.prolog_write.specs.Text.{text as whole_text, argument_text as text_of_argument, text_at};
ghost use Rattle.prolog_write.specs.Total.{total, awaiting};

use crate::lexeme::Lexeme;
use crate::mode::{Mode, WriteStop};
use crate::output::Output;
use crate::place::Place;
use crate::stack::Stack;
use crate::task::{Task, Want};
use std::alloc::Global;
use term_core::Term;

/// The text of a term by itself, where an operator of any priority needs no brackets, in UTF-8.
///
/// `TooLong` comes exactly where the text has more than `limit` bytes; no more than those are ever held.
pub fn text(alloc: Global, t: &Term, mode: Mode, limit: u64) -> Result<Vec<u8>, WriteStop>
    ensures text { IfOk result (λ v. v.items ≡ whole_text mode t.now) }
    ensures fits { IfOk result (λ v. length (whole_text mode t.now) ≤ limit) }
    ensures long { IfErr result (λ e. e ≡ WriteStop.TooLong → limit < length (whole_text mode t.now)) }
{
    write_at(alloc, t, mode, Place::Whole, limit)
}

/// The text of a term as an argument, where an operator of priority 1000 or more is in round brackets, in UTF-8.
///
/// `TooLong` comes as in [`text`].
pub fn argument_text(alloc: Global, t: &Term, mode: Mode, limit: u64) -> Result<Vec<u8>, WriteStop>
    ensures text { IfOk result (λ v. v.items ≡ text_of_argument mode t.now) }
    ensures fits { IfOk result (λ v. length (text_of_argument mode t.now) ≤ limit) }
    ensures long { IfErr result (λ e. e ≡ WriteStop.TooLong → limit < length (text_of_argument mode t.now)) }
{
    write_at(alloc, t, mode, Place::Argument, limit)
}

fn write_at(
    alloc: Global,
    t: &Term,
    mode: Mode,
    place: Place,
    limit: u64,
) -> Result<Vec<u8>, WriteStop>
    ensures text { IfOk result (λ v. v.items ≡ text_at place mode t.now) }
    ensures fits { IfOk result (λ v. length (text_at place mode t.now) ≤ limit) }
    ensures long { IfErr result (λ e. e ≡ WriteStop.TooLong → limit < length (text_at place mode t.now)) }
{
    let mut out = Output::new(alloc, limit);
    let mut stack = Stack::new(alloc, mode);
    stack.push(Task::Take(Want::Term(place)))?;
    for node in t.nodes() {
        if let Some(want) = advance(&mut out, &mut stack)? {
            stack.expand(want, node)?;
        }
    }
    advance(&mut out, &mut stack)?;
    Ok(out.into_bytes())
}

// Writes up to the next term, and tells what is wanted there.
fn advance(out: &mut Output, stack: &mut Stack) -> Result<Option<Want>, WriteStop>
    ensures same { IfOk result (λ want. (us : List Tree) → total out.new (awaiting want stack.new) us ≡ total out.old stack.old us) }
    ensures mode { OnOk result (stack.new.mode ≡ stack.old.mode) }
    ensures done { IfOk result (λ want. want ≡ None → stack.new.duties ≡ []) }
    ensures limit { OnOk result (out.new.limit ≡ out.old.limit) }
    ensures long { IfErr result (λ e. e ≡ WriteStop.TooLong → (us : List Tree) → out.old.limit < length (total out.old stack.old us)) }
{
    while let Some(task) = stack.pop() {
        match task {
            Task::Take(want) => return Ok(Some(want)),
            Task::Write(lexeme) => out.put(stack.mode(), lexeme)?,
            Task::Arguments(0) => out.put(stack.mode(), Lexeme::Mark(b')'))?,
            Task::Arguments(left) => {
                out.put(stack.mode(), Lexeme::Mark(b','))?;
                stack.push(Task::Arguments(left - 1))?;
                return Ok(Some(Want::Term(Place::Argument)));
            }
        }
    }
    Ok(None)
}
