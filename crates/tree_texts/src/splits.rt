// The two parts of a text, made one after the other.
ghost use Rattle.std.specs.Prelude.{◌≡◌, ◌≤◌, [], ◌∷◌, length, IfOk, OnErr, MatchOption};
ghost use Rattle.tree_results.specs.Outcomes.{result_of};
ghost use Rattle.tree_texts.specs.Parts.{placed_split, splits_of};

use crate::texts::atom_of;
use std::alloc::Global;
use term_core::{List, Memory};
use tree_results::Offer;

/// The two parts of a text that are left, by the length of the first.
#[derive(Debug, Drop)]
pub struct Splits {
    pub(crate) characters: Vec<char>,
    // how long the next first part is
    pub(crate) at: usize,
}

impl Splits {
    // The parts of which the first has so many characters.
    fn split(&self, alloc: Global, at: usize) -> Result<Offer, Memory>
        requires { at ≤ length self.now.characters.items }
        ensures { IfOk result (λ o.
            result_of o ≡ placed_split self.now.characters.items at) }
    {
        let (front, back) = self.characters.split_at(at);
        let mut pairs = List::new(alloc);
        pairs.push((0, atom_of(alloc, front)?))?;
        pairs.push((1, atom_of(alloc, back)?))?;
        Ok(Offer { pairs, fresh: 0 })
    }

    /// The next parts; `None` exactly where none are left. After `Memory` they are as before.
    pub fn next(&mut self, alloc: Global) -> Result<Option<Offer>, Memory>
        ensures ok { IfOk result (λ r.
            MatchOption r ((splits_of self.old ≡ []) × (splits_of self.new ≡ []))
            (λ o. splits_of self.old ≡ result_of o ∷ splits_of self.new)) }
        ensures err { OnErr result (splits_of self.new ≡ splits_of self.old) }
    {
        if self.at > self.characters.len() {
            return Ok(None);
        }
        let offer = self.split(alloc, self.at)?;
        self.at += 1;
        Ok(Some(offer))
    }
}
