// What the sandbox says of the goal of an ask.
ghost use Rattle.std.specs.Prelude.{◌≡◌, IfOk};
ghost use Rattle.event_core.specs.Refusals.{is_verdict, told_error, refusal_of};

use crate::request::Ask;
use crate::text::fits;
use builtin_table::{error, resource_error};
use program::Program;
use sandbox_walk::{Unsafe, check};
use std::alloc::Global;
use std::sync::Arc;
use term_core::{Memory, Term};

// The error with this formal term, as an event tells it.
fn told(alloc: Global, formal: Term) -> Result<Term, Memory>
    ensures { IfOk result (λ t. t ≡ told_error formal) }
{
    let context = Term::atom(alloc, "none")?;
    let whole = error(alloc, formal, context)?.numbered(alloc)?;
    if fits(alloc, &whole)? {
        Ok(whole)
    } else {
        resource_error(alloc, "text")
    }
}

// Whether this is said of a goal, and not want of memory.
fn is_verdict(refused: &Unsafe) -> bool
    ensures { result ≡ is_verdict refused.now }
{
    match refused {
        Unsafe::Sandboxed(_) | Unsafe::Uninstantiated | Unsafe::NotCallable(_) => true,
        Unsafe::Memory => false,
    }
}

/// The error of the event with which an ask is answered whose goal the sandbox refuses: `error(E,none)` with E
/// `permission_error(call,sandboxed,Name/Arity)`, `instantiation_error` or `type_error(callable,T)`, its variables numbered from 0,
/// or `resource_error(text)` where that term doesn't fit an event. `None` where the goal may be asked.
pub fn refusal(alloc: Global, program: &Arc<Program>, ask: &Ask) -> Result<Option<Term>, Memory>
    ensures { IfOk result (λ r. r ≡ refusal_of program.now.value ask.now) }
{
    match check(alloc, program, &ask.goal) {
        Ok(_) => Ok(None),
        Err(refused) => {
            if !is_verdict(&refused) {
                return Err(Memory);
            }
            let formal = refused.formal(alloc)?;
            Ok(Some(told(alloc, formal)?))
        }
    }
}
