ghost use Rattle.std.specs.Prelude.{◌≡◌, ◌≤◌, ◌<◌, [], suc, ◌+◌, max, IfOk, OnOk, OnErr, length, map};
ghost use Rattle.std.specs.List.{All};
ghost use Rattle.term_core.specs.Tree.{variable, integer, atom, compound, trees_of};
ghost use Rattle.term_core.specs.Parts.{symbol_of, arguments_of};
ghost use Rattle.term_core.specs.Variables.{renamed, numbered, variables, first_free};
ghost use Rattle.term_core.specs.Substitution.{apply};
ghost use Rattle.store.specs.Cells.{IsCell, tree_of, argument_of, variables_from, Makes, MakesAll};
ghost use Rattle.store.specs.Seen.{seen_node, IsTaken};

use crate::cell::Cell;
use crate::heap::{Heap, variable};
use crate::seen::{Seen, Taken};
use std::alloc::Global;
use std::marker::Model;
use term_core::{MAX_NODES, Memory, Term};

/// The memory of one query: cells, each of which stands for a term.
///
/// Contracts see a store as the trees of its cells, the number of the next new variable, and the terms
/// of the variables that are bound. A cell that was made before a call stands for the same tree after
/// it, whatever the call answers. `Memory` also comes where there would be more than `MAX_CELLS` cells,
/// or where a call would visit more than `term_core::MAX_NODES` nodes.
#[derive(Debug, Drop)]
pub struct Store {
    heap: Heap,
    next: u64,
    alloc: Global,
}

impl Model for Store {
    ghost use Rattle.store.specs.Cells.{Cells, cells_code};

    ghost Value = { Cells };

    ghost coded = { cells_code };

    ghost use Rattle.std.specs.Prelude.{[]};
    ghost use Rattle.store.specs.Heap.{IsHeap, known_of};

    ghost view = { λ s. record { trees = (known_of s.heap).trees; next = s.next; bound = [] } };

    ghost invariant = { λ s. IsHeap s.heap };
}

impl Store {
    /// A store without cells, which takes memory from `alloc` as it grows.
    pub fn new(alloc: Global) -> Store
        ensures trees { result.trees ≡ [] }
        ensures next { result.next ≡ 0 }
        ensures bound { result.bound ≡ [] }
    {
        Store {
            heap: Heap::new(alloc),
            next: 0,
            alloc,
        }
    }

    /// A cell for a new variable, which takes the next number.
    pub fn new_var(&mut self) -> Result<Cell, Memory>
        ensures ok { IfOk result (λ c. Makes self.old self.new c (variable self.old.next)) }
        ensures next { OnOk result (self.new.next ≡ suc self.old.next) }
        ensures err { OnErr result (self.new ≡ self.old) }
    {
        let word = variable(self.next, 0)?;
        let place = self.heap.place(word)?;
        self.next += 1;
        Ok(Cell::at(place))
    }

    /// A cell for an integer.
    pub fn int(&mut self, value: i128) -> Result<Cell, Memory>
        ensures ok { IfOk result (λ c. Makes self.old self.new c (integer value)) }
        ensures next { self.new.next ≡ self.old.next }
        ensures err { OnErr result (self.new ≡ self.old) }
    {
        let word = self.heap.integer(value)?;
        Ok(Cell::at(self.heap.place(word)?))
    }

    /// A cell for an atom.
    pub fn atom(&mut self, name: &str) -> Result<Cell, Memory>
        ensures ok { IfOk result (λ c. Makes self.old self.new c (atom name.now)) }
        ensures next { self.new.next ≡ self.old.next }
        ensures err { OnErr result (self.new ≡ self.old) }
    {
        let word = self.heap.atom(self.alloc, name)?;
        Ok(Cell::at(self.heap.place(word)?))
    }

    /// A cell for a compound of this name whose arguments are these cells' terms, 1 to 1,024 of them.
    pub fn compound(&mut self, name: &str, args: &[Cell]) -> Result<Cell, Memory>
        requires some { 1 ≤ length args.now }
        requires few { length args.now ≤ 1024 }
        requires cells { All (IsCell self.old) args.now }
        ensures ok { IfOk result (λ c. Makes self.old self.new c
            (compound name.now (trees_of (map (tree_of self.old) args.now)))) }
        ensures next { self.new.next ≡ self.old.next }
        ensures err { OnErr result (self.new ≡ self.old) }
    {
        let len = self.heap.len();
        match self.heap.compound_placed(self.alloc, name, args) {
            Ok(place) => Ok(Cell::at(place)),
            Err(memory) => {
                self.heap.cut_back(len);
                Err(memory)
            }
        }
    }

    /// A cell for a compound of this name with 1 to 1,024 new variables, which take the next numbers.
    pub fn fresh(&mut self, name: &str, count: u32) -> Result<Cell, Memory>
        requires some { 1 ≤ count }
        requires few { count ≤ 1024 }
        ensures ok { IfOk result (λ c. Makes self.old self.new c
            (compound name.now (trees_of (variables_from self.old.next count)))) }
        ensures next { OnOk result (self.new.next ≡ self.old.next + count) }
        ensures err { OnErr result (self.new ≡ self.old) }
    {
        let next = self.next.checked_add(u64::from(count)).ok_or(Memory)?;
        let len = self.heap.len();
        match self.heap.fresh_placed(self.alloc, name, count, self.next) {
            Ok(place) => {
                self.next = next;
                Ok(Cell::at(place))
            }
            Err(memory) => {
                self.heap.cut_back(len);
                Err(memory)
            }
        }
    }

    /// Cells for the variables of a cell's term, each once, by first occurrence.
    pub fn variables(&mut self, c: Cell) -> Result<Vec<Cell>, Memory>
        requires { IsCell self.old c }
        ensures ok { IfOk result (λ v. MakesAll self.old self.new v.items
            (map variable (variables (tree_of self.old c)))) }
        ensures next { self.new.next ≡ self.old.next }
        ensures err { OnErr result (self.new ≡ self.old) }
    {
        let Taken::Term(t) = self.take(c, MAX_NODES as u64)? else {
            return Err(Memory);
        };
        let numbers = t.variables(self.alloc)?;
        let len = self.heap.len();
        match self.heap.variables_placed(self.alloc, &numbers) {
            Ok(cells) => Ok(cells),
            Err(memory) => {
                self.heap.cut_back(len);
                Err(memory)
            }
        }
    }

    /// A cell for a term whose variable k is the variable base + k, under the bindings.
    ///
    /// A variable of that number may be in the store already; it is the same variable.
    pub fn put(&mut self, t: &Term, base: u64) -> Result<Cell, Memory>
        ensures ok { IfOk result (λ c. Makes self.old self.new c (apply self.old.bound (renamed base t.now))) }
        ensures next { OnOk result (self.new.next ≡ max self.old.next (first_free (renamed base t.now))) }
        ensures err { OnErr result (self.new ≡ self.old) }
    {
        let above = first_free_above(t, base)?;
        let cell = self.put_alone(t, base)?;
        self.next = self.next.max(above);
        Ok(cell)
    }

    // The same, but the number of the next variable stays.
    fn put_alone(&mut self, t: &Term, base: u64) -> Result<Cell, Memory>
        ensures ok { IfOk result (λ c. Makes self.old self.new c (renamed base t.now)) }
        ensures next { self.new.next ≡ self.old.next }
        ensures bound { self.old.bound ≡ [] }
        ensures err { OnErr result (self.new ≡ self.old) }
    {
        let len = self.heap.len();
        match self.heap.put_placed(self.alloc, t.nodes(), base) {
            Ok(place) => Ok(Cell::at(place)),
            Err(memory) => {
                self.heap.cut_back(len);
                Err(memory)
            }
        }
    }

    /// The outermost symbol of a cell's term.
    pub fn look(&self, c: Cell) -> Seen<'_>
        requires { IsCell self.now c }
        ensures { seen_node result ≡ symbol_of (tree_of self.now c) }
    {
        self.heap.symbol(self.heap.word_at(c))
    }

    /// The cell of an argument of a compound, counted from 0.
    pub fn arg(&self, c: Cell, i: u32) -> Cell
        requires cell { IsCell self.now c }
        requires within { i < length (arguments_of (tree_of self.now c)) }
        ensures cell { IsCell self.now result }
        ensures tree { tree_of self.now result ≡ argument_of (tree_of self.now c) i }
    {
        let word = self.heap.word_at(c);
        Cell::at(self.heap.argument(word, i))
    }

    /// A cell's term, with the variables' numbers; `TooLong` exactly where it has more than `limit` nodes.
    pub fn take(&self, c: Cell, limit: u64) -> Result<Taken, Memory>
        requires { IsCell self.now c }
        ensures { IfOk result (IsTaken (tree_of self.now c) limit) }
    {
        match self.heap.nodes(self.alloc, self.heap.word_at(c), limit)? {
            None => Ok(Taken::TooLong),
            Some(nodes) => Ok(Taken::Term(Term::first_of(self.alloc, &nodes)?)),
        }
    }

    /// A cell for the same term with new variables, which take the next numbers by first occurrence.
    pub fn copy(&mut self, c: Cell) -> Result<Cell, Memory>
        requires { IsCell self.old c }
        ensures ok { IfOk result (λ d. Makes self.old self.new d
            (renamed self.old.next (numbered (tree_of self.old c)))) }
        ensures next { OnOk result (self.new.next ≡ self.old.next + length (variables (tree_of self.old c))) }
        ensures err { OnErr result (self.new ≡ self.old) }
    {
        if self.heap.word_at(c).is_closed() {
            return Ok(c);
        }
        match self.take(c, MAX_NODES as u64)? {
            Taken::Term(t) => self.put_new(&t),
            Taken::TooLong => Err(Memory),
        }
    }

    // A cell for the term with new variables.
    fn put_new(&mut self, t: &Term) -> Result<Cell, Memory>
        ensures ok { IfOk result (λ d. Makes self.old self.new d (renamed self.old.next (numbered t.now))) }
        ensures next { OnOk result (self.new.next ≡ self.old.next + length (variables t.now)) }
        ensures err { OnErr result (self.new ≡ self.old) }
    {
        let count = t.variables(self.alloc)?.len() as u64;
        let next = self.next.checked_add(count).ok_or(Memory)?;
        let fresh = t.numbered(self.alloc)?;
        let cell = self.put_alone(&fresh, self.next)?;
        self.next = next;
        Ok(cell)
    }
}

// The first number above each variable of the term with `base` added to their numbers, or 0 where it has none.
fn first_free_above(t: &Term, base: u64) -> Result<u64, Memory>
    ensures { IfOk result (λ n. n ≡ first_free (renamed base t.now)) }
{
    let free = t.first_free()?;
    if free == 0 {
        return Ok(0);
    }
    let sum = free.checked_add(base).ok_or(Memory)?;
    Ok(sum)
}
