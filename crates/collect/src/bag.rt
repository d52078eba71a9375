// Bags of solutions.
ghost use Rattle.std.specs.Prelude.{◌≡◌, ◌∷◌, ◌++◌, [], map, IfOk, OnOk, OnErr};
ghost use Rattle.std.specs.List.{All};
ghost use Rattle.term_core.specs.Tree.{Tree};
ghost use Rattle.term_core.specs.Variables.{numbered};
ghost use Rattle.builtin_table.specs.Solutions.{copies, after_copies};
ghost use Rattle.store.specs.Cells.{IsCell, tree_of, Keeps};
ghost use Rattle.tree_offers.specs.Results.{for_arguments, HasPlaces};
ghost use Rattle.collect.specs.Bags.{offers_by, placed_by};

use crate::numbers::renumbered;
use prims_tree::{Arrangement, PlacedOffers, placed_findall_offers, placed_group_offers};
use std::alloc::Global;
use std::marker::Model;
use store::{Cell, Store, Taken};
use term_core::{MAX_NODES, Memory, Term};
use tree_offers::Offers;

/// What a bag's solutions are gathered for.
#[derive(Clone, Copy, Debug, Drop)]
pub enum BagKind {
    /// findall/3: a solution is the result alone.
    Findall,
    /// bagof/3: a solution is the pair `W-T` of the list of the free variables' instances, so many, and the
    /// result.
    Bagof {
        /// How many free variables there are.
        witness: u32,
    },
    /// setof/3: the same as for bagof/3.
    Setof {
        /// How many free variables there are.
        witness: u32,
    },
}

/// The solutions of a goal so far, which contracts see as their kind and the list of their copies, each with
/// its variables numbered from 0 by first occurrence.
#[derive(Debug, Drop)]
pub struct Bag {
    kind: BagKind,
    solutions: Vec<Term>,
    alloc: Global,
}

impl Model for Bag {
    ghost use Rattle.collect.specs.Gathered.{Gathered, coded_gathered};

    ghost Value = { Gathered };

    ghost coded = { coded_gathered };

    ghost view = { λ b. record { kind = b.kind; solutions = b.solutions.items } };
}

impl Bag {
    /// The empty bag.
    pub fn new(alloc: Global, kind: BagKind) -> Bag
        ensures kind { result.kind ≡ kind }
        ensures solutions { result.solutions ≡ [] }
    {
        Bag {
            kind,
            solutions: Vec::new(alloc),
            alloc,
        }
    }

    /// Adds a copy of a cell's term, which stays as it is whatever becomes of the cell.
    ///
    /// After `Memory` the bag is as before; it also comes where the term has more than
    /// `term_core::MAX_NODES` nodes.
    pub fn add(&mut self, store: &Store, c: Cell) -> Result<(), Memory>
        requires { IsCell store.now c }
        ensures solutions { OnOk result (self.new.solutions ≡ self.old.solutions ++ numbered (tree_of store.now c) ∷ []) }
        ensures kind { self.new.kind ≡ self.old.kind }
        ensures err { OnErr result (self.new ≡ self.old) }
    {
        let Taken::Term(term) = store.take(c, MAX_NODES as u64)? else {
            return Err(Memory);
        };
        self.solutions.push(term.numbered(self.alloc)?)?;
        Ok(())
    }

    /// What the solutions offer, over two arguments: 0 is the list of the free variables, which findall/3
    /// hasn't, and 1 the list of the results.
    ///
    /// The results are the definition's, in order, for each two arguments. The variables of the copies take
    /// the store's next numbers, one copy after the other. `Memory` leaves each cell as it was; it also
    /// comes where a term would have more than `term_core::MAX_NODES` nodes, or no number is left.
    pub fn finish(self, store: &mut Store) -> Result<Offers, Memory>
        ensures offers { IfOk result (λ os. (witness list : Tree) → map (for_arguments (witness ∷ list ∷ [])) os
            ≡ offers_by self.kind witness list (copies store.old.next self.solutions)) }
        ensures places { IfOk result (All (HasPlaces 2)) }
        ensures next { OnOk result (store.new.next ≡ after_copies store.old.next self.solutions) }
        ensures keeps { Keeps store.old store.new }
    {
        let copies = renumbered(self.alloc, store, &self.solutions)?;
        offered(self.alloc, self.kind, &copies)
    }
}

// What these copies offer.
fn offered(alloc: Global, kind: BagKind, copies: &[Term]) -> Result<Offers, Memory>
    ensures offers { IfOk result (λ os. (witness list : Tree) → map (for_arguments (witness ∷ list ∷ [])) os
        ≡ offers_by kind witness list copies.now) }
    ensures places { IfOk result (All (HasPlaces 2)) }
{
    let results = results(alloc, kind, copies)?;
    Ok(Offers::new(alloc, results))
}

// The results over the witness and the list.
fn results(alloc: Global, kind: BagKind, copies: &[Term]) -> Result<PlacedOffers, Memory>
    ensures { IfOk result (λ os. os ≡ placed_by kind copies.now) }
{
    match kind {
        BagKind::Findall => placed_findall_offers(alloc, copies),
        BagKind::Bagof { witness: _ } => {
            placed_group_offers(alloc, Arrangement::AsFound, copies)
        }
        BagKind::Setof { witness: _ } => { placed_group_offers(alloc, Arrangement::Sorted, copies) }
    }
}
