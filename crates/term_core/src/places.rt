// The variables of a term, each with its place by first occurrence.
ghost use Rattle.std.specs.Prelude.{◌≡◌, [], OnOk, IfOk};
ghost use Rattle.term_core.specs.Nodes.{nodes_variables};
ghost use Rattle.term_core.specs.Places.{HasPlaces};
ghost use Rattle.term_core.specs.Variables.{distinct_after, with_new, place_of};

use crate::memory::Memory;
use crate::node::Node;
use std::alloc::Global;
use std::collections::BTreeMap;

// The numbers that were seen, each once, and where each stands among them.
#[derive(Debug, Drop)]
pub(crate) struct Places {
    seen: Vec<u64>,
    at: BTreeMap<u64, u64>,
}

impl Places {
    // The variables of these nodes.
    pub(crate) fn of(alloc: Global, nodes: &[Node]) -> Result<Places, Memory>
        ensures places { IfOk result (λ p. HasPlaces p) }
        ensures seen { IfOk result (λ p.
            p.seen.items ≡ distinct_after [] (nodes_variables nodes.now)) }
    {
        let mut places = Places {
            seen: Vec::new(alloc),
            at: BTreeMap::new(alloc),
        };
        for node in nodes {
            if let Node::Var(number) = node {
                places.see(*number)?;
            }
        }
        Ok(places)
    }

    // Puts a number at the end, unless it is there already.
    fn see(&mut self, number: u64) -> Result<(), Memory>
        requires { HasPlaces self.old }
        ensures places { OnOk result (HasPlaces self.new) }
        ensures seen { OnOk result (self.new.seen.items ≡ with_new self.old.seen.items number) }
    {
        if !self.at.contains_key(&number) {
            self.at.insert(number, self.seen.len() as u64)?;
            self.seen.push(number)?;
        }
        Ok(())
    }

    // Where the number stands, or how many there are.
    pub(crate) fn place(&self, number: u64) -> u64
        requires { HasPlaces self.now }
        ensures { result ≡ place_of number self.now.seen.items }
    {
        self.at
            .get(&number)
            .copied()
            .unwrap_or(self.seen.len() as u64)
    }

    // The numbers by first occurrence.
    pub(crate) fn into_seen(self) -> Vec<u64>
        ensures { result.items ≡ self.seen.items }
    {
        let Places { seen, at } = self;
        drop(at);
        seen
    }
}
