ghost use Rattle.std.specs.Prelude.{◌≡◌, IfOk};
ghost use Rattle.sandbox_walk.specs.Formal.{sandboxed_error};

use builtin_table::{indicator, instantiation_error, type_error};
use std::alloc::Global;
use term_core::{Memory, Pi, Term};

/// Why a goal may not be asked.
#[derive(Debug, Drop)]
pub enum Unsafe {
    /// It reaches a predicate that is outside: the least of these by its name, in bytes, and then by its number of arguments.
    Sandboxed(Pi),
    /// A variable stands at a goal position.
    Uninstantiated,
    /// The first term at a goal position that can't be a body.
    NotCallable(Term),
    /// Want of memory.
    Memory,
}

impl From<Memory> for Unsafe {
    ghost use Rattle.sandbox_walk.specs.declared.unsafe_goal.Unsafe.TheVariants.{Memory as Starved};
    ghost use Rattle.std.specs.Prelude.{◌≡◌};

    ghost from_gives = { λ _ result. result ≡ Starved };

    fn from(_refused: Memory) -> Unsafe {
        Unsafe::Memory
    }
}

impl Unsafe {
    ghost use Rattle.sandbox_walk.specs.declared.unsafe_goal.Unsafe.TheVariants as unsafe_goal;
    ghost use Rattle.sandbox_walk.specs.Formal.{formal_of};
    ghost use Rattle.std.specs.Prelude.{◌≡◌, ◌≢◌, IfOk, OnOk};

    /// What is wrong, as an error term says it: `permission_error(call,sandboxed,Name/Arity)`, `instantiation_error` or
    /// `type_error(callable,T)` (ISO 13211-1, 7.12.2). `Err` is want of memory, also where that is what `self` tells.
    pub fn formal(&self, alloc: Global) -> Result<Term, Memory>
        ensures formal { IfOk result (λ t. t ≡ formal_of self.now) }
        ensures memory { OnOk result (self.now ≢ unsafe_goal.Memory) }
    {
        match self {
            Unsafe::Sandboxed(pi) => sandboxed_error(alloc, pi),
            Unsafe::Uninstantiated => instantiation_error(alloc),
            Unsafe::NotCallable(term) => type_error(alloc, "callable", term.copied(alloc)?),
            Unsafe::Memory => Err(Memory),
        }
    }
}

/// What is wrong where the sandbox doesn't permit a call of this predicate.
fn sandboxed_error(alloc: Global, pi: &Pi) -> Result<Term, Memory>
    ensures { IfOk result (λ t. t ≡ sandboxed_error pi.now) }
{
    let args = vec![in alloc;
        Term::atom(alloc, "call")?,
        Term::atom(alloc, "sandboxed")?,
        indicator(alloc, pi)?,
    ]?;
    Term::comp(alloc, "permission_error", &args)
}
