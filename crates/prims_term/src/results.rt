// Plans, and what they need.
ghost use Rattle.std.specs.Prelude.{◌≡◌, if◌then◌else◌, IfOk};
ghost use Rattle.builtin_table.specs.Errors.{error_term, indicator_term};
ghost use Rattle.store.specs.Cells.{IsCell, tree_of};

use crate::plan::Plan;
use builtin_table::{error, indicator};
use std::alloc::Global;
use store::{Cell, Store, Taken};
use term_core::{MAX_NODES, Memory, Name, Pi, Term};

// A test that is passed or fails.
pub(crate) fn tested(holds: bool) -> Plan
    ensures { result ≡ (if holds then Plan.Passes else Plan.Fails) }
{
    if holds { Plan::Passes } else { Plan::Fails }
}

// The error of a primitive of this name and so many arguments.
pub(crate) fn ball(alloc: Global, name: &str, arity: u32, formal: Term) -> Result<Plan, Memory>
    ensures { IfOk result (λ p. p ≡ Plan.Ball (error_term formal
        (indicator_term (record { name = name.now; arity = arity })))) }
{
    let pi = Pi {
        name: Name::new(alloc, name)?,
        arity,
    };
    let context = indicator(alloc, &pi)?;
    Ok(Plan::Ball(error(alloc, formal, context)?))
}

// A cell's term; `Memory` where it has more than `MAX_NODES` nodes.
pub(crate) fn whole(store: &Store, c: Cell) -> Result<Term, Memory>
    requires { IsCell store.now c }
    ensures { IfOk result (λ t. t ≡ tree_of store.now c) }
{
    match store.take(c, MAX_NODES as u64)? {
        Taken::Term(term) => Ok(term),
        Taken::TooLong => Err(Memory),
    }
}
