// New variables, and variables of given numbers.
ghost use Rattle.std.specs.Prelude.{◌≡◌, ◌+◌, map, IfOk};
ghost use Rattle.term_core.specs.Tree.{variable};
ghost use Rattle.builtin_table.specs.Primitives.{new_variables as new_variables_of};

use std::alloc::Global;
use term_core::{Memory, Term};

/// So many variables further on; `Memory` where no number is left.
pub fn further(next: u64, count: u64) -> Result<u64, Memory>
    ensures { IfOk result (λ n. n ≡ next + count) }
{
    next.checked_add(count).ok_or(Memory)
}

/// So many variables, numbered from the next one; `Memory` also where no number is left.
pub fn new_variables(alloc: Global, next: u64, count: u32) -> Result<Vec<Term>, Memory>
    ensures { IfOk result (λ v. v.items ≡ new_variables_of next count) }
{
    let mut variables = Vec::new(alloc);
    for i in 0..count {
        let number = further(next, u64::from(i))?;
        variables.push(Term::var(alloc, number)?)?;
    }
    Ok(variables)
}

/// The variables of these numbers.
pub fn variable_terms(alloc: Global, numbers: &[u64]) -> Result<Vec<Term>, Memory>
    ensures { IfOk result (λ v. v.items ≡ map variable numbers.now) }
{
    let mut variables = Vec::new(alloc);
    for number in numbers {
        variables.push(Term::var(alloc, *number)?)?;
    }
    Ok(variables)
}
