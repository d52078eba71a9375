// The texts of the terms in events.
ghost use Rattle.std.specs.Prelude.{◌≡◌, IfOk};
ghost use Rattle.event_core.specs.Texts.{quoted, argument};
ghost use Rattle.event_core.specs.Fits.{fits, text_size};

use crate::limits::{MAX_DEPTH, MAX_TEXT};
use prolog_write::{Mode, WriteStop, argument_text as text_as_argument, text};
use std::alloc::Global;
use term_core::{Memory, Term};

// How many bytes the quoted text of a term has.
pub(crate) fn size_of_text(alloc: Global, term: &Term) -> Result<u64, Memory>
    ensures { IfOk result (λ n. n ≡ text_size quoted term.now) }
{
    match text(alloc, term, Mode::Quoted, u64::MAX) {
        Ok(bytes) => Ok(bytes.len() as u64),
        Err(_) => Err(Memory),
    }
}

/// Whether a term fits an event: its quoted text has at most `MAX_TEXT` bytes, and its depth is at most `MAX_DEPTH`.
pub fn fits(alloc: Global, term: &Term) -> Result<bool, Memory>
    ensures { IfOk result (λ b. b ≡ fits quoted term.now) }
{
    match text(alloc, term, Mode::Quoted, MAX_TEXT) {
        Ok(_) => Ok(term.depth() <= MAX_DEPTH),
        Err(WriteStop::TooLong) => Ok(false),
        Err(WriteStop::Memory) => Err(Memory),
    }
}

// The quoted text of a term as an argument.
pub(crate) fn argument_bytes(alloc: Global, term: &Term) -> Result<Vec<u8>, Memory>
    ensures { IfOk result (λ v. v.items ≡ argument term.now) }
{
    match text_as_argument(alloc, term, Mode::Quoted, u64::MAX) {
        Ok(bytes) => Ok(bytes),
        Err(_) => Err(Memory),
    }
}
