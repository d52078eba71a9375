use crate::cell::Cell;
use std::alloc::Global;
use term_core::{List, Memory, Name, Node, Term};

/// The outermost symbol of a cell's term.
#[derive(Clone, Copy, Debug, Drop)]
pub enum Seen<'a> {
    /// A variable, by its number.
    Var(u64),
    /// An integer, from -2^127 to 2^127 - 1.
    Int(i128),
    /// An atom.
    Atom(&'a Name),
    /// A compound: its functor's name and how many arguments it has, 1 to 1,024.
    Comp(&'a Name, u32),
}

impl<'a> Seen<'a> {
    ghost use Rattle.std.specs.Prelude.{◌≡◌, IfOk};
    ghost use Rattle.store.specs.Seen.{seen_node};

    /// The same as a node of a term.
    pub fn node(&self, alloc: Global) -> Result<Node, Memory>
        ensures { IfOk result (λ n. n ≡ seen_node self.now) }
    {
        match self {
            Seen::Var(number) => Ok(Node::Var(*number)),
            Seen::Int(value) => Ok(Node::Int(*value)),
            Seen::Atom(name) => Ok(Node::Atom(name.copied(alloc)?)),
            Seen::Comp(name, count) => Ok(Node::Comp(name.copied(alloc)?, *count)),
        }
    }
}

/// A cell's term, or word that it is too long.
#[derive(Debug, Drop)]
pub enum Taken {
    /// The term.
    Term(Term),
    /// The term has more nodes than were asked for.
    TooLong,
}

/// A result of a primitive: each pair's argument, counted from 0, is to be unified with the pair's cell.
#[derive(Debug, Drop)]
pub struct Offer {
    /// The pairs, in the order in which they are to be unified.
    pub pairs: List<(u32, Cell)>,
}
