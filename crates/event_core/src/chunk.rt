ghost use Rattle.std.specs.Prelude.{◌≡◌, ◌==◌, [], ◌∷◌, ◌++◌, IfOk, length};
ghost use Rattle.event_core.specs.Texts.{quoted};
ghost use Rattle.event_core.specs.Fits.{text_size};
ghost use Rattle.event_core.specs.Parts.{is_full};

use crate::limits::CHUNK_BYTES;
use crate::text::size_of_text;
use std::alloc::Global;
use std::marker::Model;
use term_core::{List, Memory, Term};

// The answers of an open chunk, and the bytes of their quoted texts together.
#[derive(Debug, Drop)]
pub(crate) struct Chunk {
    answers: List<Term>,
    bytes: u64,
}

impl Model for Chunk {
    ghost use Rattle.std.specs.Prelude.{◌≡◌, List as list, sum_by};
    ghost use Rattle.std.specs.Coded.{coded_list};
    ghost use Rattle.term_core.specs.Tree.{Tree};
    ghost use Rattle.term_core.specs.Flat.{tree_code};
    ghost use Rattle.event_core.specs.Texts.{quoted};
    ghost use Rattle.event_core.specs.Fits.{text_size};

    ghost Value = { list Tree };

    ghost coded = { coded_list tree_code };

    ghost view = { λ c. c.answers };

    ghost invariant = { λ c. c.bytes ≡ sum_by (text_size quoted) c.answers };
}

impl Chunk {
    pub(crate) fn new(alloc: Global) -> Chunk
        ensures { result ≡ [] }
    {
        Chunk {
            answers: List::new(alloc),
            bytes: 0,
        }
    }

    pub(crate) fn is_empty(&self) -> bool
        ensures { result ≡ (length self.now == 0) }
    {
        self.answers.len() == 0
    }

    // The chunk with one answer more.
    pub(crate) fn with(self, alloc: Global, answer: Term) -> Result<Chunk, Memory>
        ensures { IfOk result (λ c. c ≡ self ++ answer ∷ []) }
    {
        let Chunk { mut answers, bytes } = self;
        let more = size_of_text(alloc, &answer)?;
        let bytes = bytes.checked_add(more).ok_or(Memory)?;
        answers.push(answer)?;
        Ok(Chunk { answers, bytes })
    }

    // Whether it has as many answers as `chunk` says, or many bytes of text.
    pub(crate) fn is_full(&self, chunk: u32) -> bool
        ensures { result ≡ is_full (text_size quoted) chunk self.now }
    {
        self.answers.len() as u64 == chunk as u64 || self.bytes >= CHUNK_BYTES
    }

    pub(crate) fn into_answers(self) -> List<Term>
        ensures { result ≡ self }
    {
        self.answers
    }
}
