use crate::endpoint::Allowed;
use term_core::Memory;

/// What may be wrong in a request: a parameter of its query, a key of its body's object, or its body.
#[derive(Clone, Copy, Drop)]
pub enum Param {
    Application,
    Ask,
    Body,
    Chunk,
    Destroy,
    Format,
    Id,
    Limit,
    Max,
    Names,
    SrcText,
    Template,
}

/// Why a request asks nothing. Of several faults the first in this order is told, and of wrong
/// parameters the first by the byte order of their names.
#[derive(Clone, Copy, Drop)]
pub enum RouteFault {
    /// The path is none of the server's.
    NoPath,
    /// The path is for another method.
    BadMethod { allow: Allowed },
    /// A parameter is missing or wrong, or the body is.
    BadParam(Param),
    /// The id is no UUID's text.
    BadId,
    /// Want of memory.
    Memory,
}

impl From<Memory> for RouteFault {
    ghost use Rattle.std.specs.Prelude.{◌≡◌};
    ghost use Rattle.routes.specs.declared.fault.RouteFault.TheVariants.{Memory as Wanting};

    ghost from_gives = { λ memory fault. fault ≡ Wanting };

    fn from(_memory: Memory) -> RouteFault {
        RouteFault::Memory
    }
}
