use crate::bindings::Bindings;
use term_core::{Memory, Subst, Term};

/// How much one query writes at most into the terms that its steps bind, the goals that it takes apart, and what it copies for its alternatives: a term counts as its nodes and four more. Where no alternative is left, only the terms count that a step makes or changes.
///
/// A query that would write more wants memory. So terms that double at each step are given up soon, whatever the limit of steps, and what a query holds stays under 1 GiB.
pub const MAX_WORK: u64 = 10_000_000;

// What a query may still write.
#[derive(Drop)]
pub(crate) struct Work {
    left: u64,
}

impl Work {
    pub(crate) fn new() -> Work {
        Work { left: MAX_WORK }
    }

    // Counts the writing of a term.
    pub(crate) fn spend(&mut self, term: &Term) -> Result<(), Memory> {
        let cost = (term.nodes().len() as u64).saturating_add(4);
        match self.left.checked_sub(cost) {
            Some(left) => {
                self.left = left;
                Ok(())
            }
            None => Err(Memory),
        }
    }

    // Counts the writing of a substitution's terms.
    fn spend_all(&mut self, subst: &Subst) -> Result<(), Memory> {
        for pair in subst.pairs() {
            self.spend(&pair.1)?;
        }
        Ok(())
    }

    // Counts the terms of a substitution that another in its place doesn't have.
    fn spend_new(&mut self, old: &Subst, new: &Subst) -> Result<(), Memory> {
        let before = old.pairs();
        for (i, pair) in new.pairs().iter().enumerate() {
            if i >= before.len() || !Term::cmp(&before[i].1, &pair.1).is_eq() {
                self.spend(&pair.1)?;
            }
        }
        Ok(())
    }

    // Counts a step from a substitution to another. Where the old one is kept, beside the new one or by others, all of the new one counts.
    pub(crate) fn spend_step(
        &mut self,
        old: &Bindings,
        new: &Bindings,
        is_kept: bool,
    ) -> Result<(), Memory> {
        if new.is_same(old) {
            Ok(())
        } else if is_kept || old.is_shared() {
            self.spend_all(new.subst())
        } else {
            self.spend_new(old.subst(), new.subst())
        }
    }
}
