ghost use Rattle.std.specs.Prelude.{◌≡◌, IfOk};

use crate::memory::Memory;
use crate::name::Name;
use std::alloc::Global;

/// The indicator of a predicate, written `name/arity`, as `append/3` (ISO 13211-1, 3.136).
#[derive(Debug, Drop, PartialEq, Eq)]
pub struct Pi {
    /// The predicate's name.
    pub name: Name,
    /// How many arguments it takes; 0 for a goal that is an atom.
    pub arity: u32,
}

impl Pi {
    /// The same indicator again.
    pub fn copied(&self, alloc: Global) -> Result<Pi, Memory>
        ensures { IfOk result (λ pi. pi ≡ self.now) }
    {
        Ok(Pi {
            name: self.name.copied(alloc)?,
            arity: self.arity,
        })
    }
}
