// A term taken apart.
ghost use Rattle.std.specs.Prelude.{◌≡◌, ◌<◌, ◌≤◌, IfOk, length, drop};
ghost use Rattle.term_core.specs.Flat.{build};
ghost use Rattle.term_core.specs.Parts.{symbol_of, arguments_of};
ghost use Rattle.term_core.specs.Preorder.{AreTermNodes};

use crate::memory::Memory;
use crate::node::Node;
use crate::term::Term;
use crate::walk::end_of;
use std::alloc::Global;

// The nodes behind the first term's.
fn behind_first(nodes: &[Node]) -> &[Node]
    requires some { 0 < length nodes.now }
    requires terms { AreTermNodes nodes.now }
    ensures terms { AreTermNodes result.now }
    ensures trees { build result.now ≡ drop 1 (build nodes.now) }
    ensures fewer { length result.now < length nodes.now }
{
    let end = end_of(nodes);
    &nodes[end..]
}

// All nodes but the first.
fn without_first(nodes: &[Node]) -> &[Node]
    requires { 1 ≤ length nodes.now }
    ensures { result.now ≡ drop 1 nodes.now }
{
    &nodes[1..]
}

impl Term {
    /// The outermost symbol: a compound's name with the number of its arguments, or the term itself.
    pub fn symbol(&self) -> &Node
        ensures { result.now ≡ symbol_of self.now }
    {
        &self.nodes()[0]
    }

    /// A compound's arguments from left to right; another term has none.
    pub fn arguments(&self, alloc: Global) -> Result<Vec<Term>, Memory>
        ensures { IfOk result (λ v. v.items ≡ arguments_of self.now) }
    {
        let nodes = self.nodes();
        let mut rest = without_first(nodes);
        let mut arguments = Vec::new(alloc);
        while !rest.is_empty() {
            arguments.push(Term::first_of(alloc, rest)?)?;
            rest = behind_first(rest);
        }
        Ok(arguments)
    }
}
