// The parts of a text, made one after the other.
ghost use Rattle.std.specs.Prelude.{◌≡◌, ◌+◌, ◌≤◌, [], ◌∷◌, length, IfOk, OnErr, MatchOption};
ghost use Rattle.tree_results.specs.Outcomes.{result_of};
ghost use Rattle.tree_texts.specs.Parts.{placed_part, parts_of, place_of};

use crate::texts::atom_of;
use std::alloc::Global;
use term_core::{List, Memory, Term};
use tree_results::Offer;

/// The parts of a text that are left, by their places and then by their lengths.
//
// The next part has this place and this length. Where the text has no such part, the next one is the empty
// part of the next place.
#[derive(Debug, Drop)]
pub struct Parts {
    pub(crate) characters: Vec<char>,
    pub(crate) start: usize,
    pub(crate) len: usize,
}

impl Parts {
    // The part of so many characters from a place on.
    fn part(&self, alloc: Global, start: usize, len: usize) -> Result<Offer, Memory>
        requires { start + len ≤ length self.now.characters.items }
        ensures { IfOk result (λ o.
            result_of o ≡ placed_part self.now.characters.items start len) }
    {
        let after = self.characters.len() - start - len;
        let part = atom_of(alloc, &self.characters[start..][..len])?;
        let mut pairs = List::new(alloc);
        pairs.push((1, Term::int(alloc, start as i128)?))?;
        pairs.push((2, Term::int(alloc, len as i128)?))?;
        pairs.push((3, Term::int(alloc, after as i128)?))?;
        pairs.push((4, part))?;
        Ok(Offer { pairs, fresh: 0 })
    }

    // Where the next part begins, and how many characters it has.
    fn place(&self) -> Option<(usize, usize)>
        ensures { result ≡ place_of self.now }
    {
        let end = self.characters.len();
        if self.start <= end && self.len <= end - self.start {
            return Some((self.start, self.len));
        }
        if self.start < end {
            return Some((self.start + 1, 0));
        }
        None
    }

    /// The next part; `None` exactly where none is left. After `Memory` they are as before.
    pub fn next(&mut self, alloc: Global) -> Result<Option<Offer>, Memory>
        ensures ok { IfOk result (λ r.
            MatchOption r ((parts_of self.old ≡ []) × (parts_of self.new ≡ []))
            (λ o. parts_of self.old ≡ result_of o ∷ parts_of self.new)) }
        ensures err { OnErr result (parts_of self.new ≡ parts_of self.old) }
    {
        match self.place() {
            Some((start, len)) => {
                let offer = self.part(alloc, start, len)?;
                self.start = start;
                self.len = len + 1;
                Ok(Some(offer))
            }
            None => Ok(None),
        }
    }
}
