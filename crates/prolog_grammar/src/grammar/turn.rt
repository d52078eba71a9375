// From the nodes of a tree with arguments first to those with functors first.
ghost use Rattle.std.specs.Prelude.{◌≡◌, [], OnOk, IfOk, reverse};
ghost use Rattle.term_core.specs.Preorder.{count_of};
ghost use Rattle.prolog_grammar.specs.Turn.{settle, turn, turned};

use std::alloc::Global;
use term_core::{Memory, Node};

// Functors with the number of their arguments that are still to come, and what was put, the last node first.
#[derive(Debug, Drop)]
struct Turning {
    open: Vec<(Node, u32)>,
    put: Vec<Node>,
}

fn count_of(node: &Node) -> u32
    ensures { result ≡ count_of node.now }
{
    match node {
        Node::Comp(_, count) => *count,
        Node::Var(_) | Node::Int(_) | Node::Atom(_) => 0,
    }
}

impl Turning {
    // Puts the functors whose last argument was put.
    fn settle(&mut self) -> Result<(), Memory>
        ensures { OnOk result (settle (reverse self.old.open.items) self.old.put.items ≡ (reverse self.new.open.items, self.new.put.items)) }
    {
        while let Some((functor, left)) = self.open.pop() {
            if left > 1 {
                self.open.push((functor, left - 1))?;
                return Ok(());
            }
            self.put.push(functor)?;
        }
        Ok(())
    }

    // Takes the next node.
    fn turn(&mut self, node: Node) -> Result<(), Memory>
        ensures { OnOk result (turn node (reverse self.old.open.items, self.old.put.items) ≡ (reverse self.new.open.items, self.new.put.items)) }
    {
        let count = count_of(&node);
        if count > 0 {
            self.open.push((node, count))?;
            return Ok(());
        }
        self.put.push(node)?;
        self.settle()
    }
}

/// The nodes with functors first, from those with arguments first.
pub(crate) fn turned(alloc: Global, nodes: Vec<Node>) -> Result<Vec<Node>, Memory>
    ensures { IfOk result (λ v. v.items ≡ reverse (turned (reverse nodes.items) ([], [])).1) }
{
    let mut left = nodes;
    let mut turning = Turning {
        open: Vec::new(alloc),
        put: Vec::new(alloc),
    };
    while let Some(node) = left.pop() {
        turning.turn(node)?;
    }
    let Turning { open, mut put } = turning;
    drop(open);
    put.reverse();
    Ok(put)
}
