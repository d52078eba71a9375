use std::alloc::{AllocError, AllocFailed};
use std::io;
use term_core::Memory;

/// Why a row has no outcome.
#[derive(Debug, Drop)]
pub(crate) enum Stop {
    /// The row has too few fields, or a field that can't be read.
    Malformed,
    /// Want of memory.
    Memory,
    /// What came differs with the pieces in which the bytes came.
    Pieces,
    /// A file can't be read, or the output not be written.
    Io(io::Error),
}

impl From<Memory> for Stop {
    fn from(_: Memory) -> Stop {
        Stop::Memory
    }
}

impl From<AllocError> for Stop {
    fn from(_: AllocError) -> Stop {
        Stop::Memory
    }
}

impl<T: Drop> From<AllocFailed<T>> for Stop {
    fn from(_: AllocFailed<T>) -> Stop {
        Stop::Memory
    }
}

impl From<io::Error> for Stop {
    fn from(error: io::Error) -> Stop {
        Stop::Io(error)
    }
}
