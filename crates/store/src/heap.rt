// Words that stand for trees, each over the words before it.
ghost use Rattle.std.specs.Prelude.{◌≡◌, ◌+◌, ◌<◌, IfOk, OnOk};
ghost use Rattle.store.specs.Words.{shape_of};

use crate::cell::Cell;
use crate::seen::Seen;
use crate::word::{MAX_CELLS, MAX_NAMES, MAX_VARIABLES, Shape, Word};
use std::alloc::Global;
use std::collections::BTreeMap;
use term_core::{MAX_NODES, Memory, Name, Node};

// One above the greatest integer that fits a word.
const SMALL: i128 = 1 << 61;

#[derive(Debug, Drop)]
pub(crate) struct Heap {
    words: Vec<Word>,
    // The names of atoms and functors; a name may stand here twice.
    names: Vec<Name>,
    // Where a name stands.
    index: BTreeMap<String, u64>,
    // The integers that fit no word.
    large: Vec<i128>,
}

impl Heap {
    ghost use Rattle.std.specs.Prelude.{◌≡◌, ◌<◌, ◌≤◌, ◌^◌, ◌+◌, ◌++◌, ◌∷◌, [], true, IfOk, OnOk, OnErr, IfSome, length, slice_index_or, take, map};
    ghost use Rattle.std.specs.List.{All, flat_map};
    ghost use Rattle.store.specs.Heap.{IsHeap, GrownFrom, known_of, HasTree, IsWord, word_tree, tree_at, block, name_at, trees_on, gathered, Lays, StandsAt};
    ghost use Rattle.term_core.specs.Tree.{variable, integer, atom, compound, trees_of};
    ghost use Rattle.store.specs.Cells.{variables_from};
    ghost use Rattle.term_core.specs.Parts.{symbol_of, arguments_of};
    ghost use Rattle.store.specs.Seen.{seen_node, HasNodes};
    ghost use Rattle.term_core.specs.Variables.{occurrences, renamed};
    ghost use Rattle.term_core.specs.Nodes.{map_node};
    ghost use Rattle.term_core.specs.Flat.{grow, parse};
    ghost use Rattle.term_core.specs.Preorder.{count_of, HasArities, AreTermNodes};

    pub(crate) fn new(alloc: Global) -> Heap
        ensures heap { IsHeap result }
        ensures trees { (known_of result).trees ≡ [] }
    {
        Heap {
            words: Vec::new(alloc),
            names: Vec::new(alloc),
            index: BTreeMap::new(alloc),
            large: Vec::new(alloc),
        }
    }

    // Where the name stands, after it was put there if need be.
    fn name(&mut self, alloc: Global, name: &str) -> Result<u64, Memory>
        requires { IsHeap self.old }
        ensures grown { GrownFrom (known_of self.old) self.new }
        ensures trees { (known_of self.new).trees ≡ (known_of self.old).trees }
        ensures room { IfOk result (λ at. at < MAX_NAMES) }
        ensures within { IfOk result (λ at. at < length (known_of self.new).names) }
        ensures name { IfOk result (λ at. name_at (known_of self.new) at ≡ name.now) }
    {
        if let Some(at) = self.found(name) {
            return Ok(at);
        }
        let at = self.names.len() as u64;
        if at >= MAX_NAMES {
            return Err(Memory);
        }
        self.index.insert(String::from_str(alloc, name)?, at)?;
        self.names.push(Name::new(alloc, name)?)?;
        Ok(at)
    }

    // Where the name stands, where that is known.
    fn found(&self, name: &str) -> Option<u64>
        ensures room { IfSome result (λ at. at < MAX_NAMES) }
        ensures within { IfSome result (λ at. at < length self.now.names.items) }
        ensures name { IfSome result (λ at. slice_index_or self.now.names.items at [] ≡ name.now) }
    {
        let at = *self.index.get(name)?;
        if at < MAX_NAMES
            && at < self.names.len() as u64
            && self.names[at as usize].as_str() == name
        {
            return Some(at);
        }
        None
    }

    // The word of an integer.
    pub(crate) fn integer(&mut self, value: i128) -> Result<Word, Memory>
        requires { IsHeap self.old }
        ensures grown { GrownFrom (known_of self.old) self.new }
        ensures trees { (known_of self.new).trees ≡ (known_of self.old).trees }
        ensures word { IfOk result (λ w. HasTree (known_of self.new) w (integer value)) }
    {
        if -SMALL <= value && value < SMALL {
            return Ok(Word::small(value));
        }
        let at = self.large.len() as u64;
        if at >= MAX_VARIABLES {
            return Err(Memory);
        }
        self.large.push(value)?;
        Ok(Word::large(at))
    }

    // The word of an atom.
    pub(crate) fn atom(&mut self, alloc: Global, name: &str) -> Result<Word, Memory>
        requires { IsHeap self.old }
        ensures grown { GrownFrom (known_of self.old) self.new }
        ensures trees { (known_of self.new).trees ≡ (known_of self.old).trees }
        ensures word { IfOk result (λ w. HasTree (known_of self.new) w (atom name.now)) }
    {
        let at = self.name(alloc, name)?;
        Ok(Word::atom(at))
    }

    // Takes the last words as the arguments of a compound, the last word as the first one, and puts the compound's word in their place.
    fn gather(&mut self, pending: &mut Vec<Word>, name: u64, count: u32) -> Result<(), Memory>
        requires heap { IsHeap self.old }
        requires room { name < MAX_NAMES }
        requires named { name < length (known_of self.old).names }
        requires some { 1 ≤ count }
        requires few { count ≤ 1024 }
        requires enough { count ≤ length pending.old.items }
        requires pending { All (IsWord (known_of self.old)) pending.old.items }
        ensures grown { GrownFrom (known_of self.old) self.new }
        ensures pending { OnOk result (All (IsWord (known_of self.new)) pending.new.items) }
        ensures trees { OnOk result (trees_on (known_of self.new) pending.new.items
            ≡ gathered (name_at (known_of self.old) name) count (trees_on (known_of self.old) pending.old.items)) }
    {
        let first = self.words.len();
        if first >= MAX_CELLS - count as usize {
            return Err(Memory);
        }
        let closed = self.lay(pending, count)?;
        pending.push(Word::comp(name, count, first as u64, closed))?;
        Ok(())
    }

    // Takes the last words to the end of the heap, the last one first, and tells whether none has a variable.
    fn lay(&mut self, pending: &mut Vec<Word>, count: u32) -> Result<bool, Memory>
        requires heap { IsHeap self.old }
        requires enough { count ≤ length pending.old.items }
        requires pending { All (IsWord (known_of self.old)) pending.old.items }
        ensures grown { GrownFrom (known_of self.old) self.new }
        ensures names { self.new.names ≡ self.old.names }
        ensures large { self.new.large ≡ self.old.large }
        ensures laid { OnOk result (Lays (known_of self.old) pending.old.items count (known_of self.new) pending.new.items) }
        ensures closed { IfOk result (λ g. g ≡ true → flat_map occurrences (take count (trees_on (known_of self.old) pending.old.items)) ≡ []) }
    {
        let mut closed = true;
        for _i in 0..count {
            let word = pending.pop().unwrap();
            self.words.push(word)?;
            closed = closed && word.is_closed();
        }
        Ok(closed)
    }

    // The number of words.
    pub(crate) fn len(&self) -> usize
        ensures { result ≡ length (known_of self.now).trees }
    {
        self.words.len()
    }

    // Drops the words from a place on.
    pub(crate) fn cut_back(&mut self, len: usize)
        requires { IsHeap self.old }
        ensures heap { IsHeap self.new }
        ensures trees { (known_of self.new).trees ≡ take len (known_of self.old).trees }
    {
        self.words.truncate(len);
    }

    // Puts a word at the end and tells its place.
    pub(crate) fn place(&mut self, word: Word) -> Result<u32, Memory>
        requires heap { IsHeap self.old }
        requires word { IsWord (known_of self.old) word }
        ensures grown { GrownFrom (known_of self.old) self.new }
        ensures place { IfOk result (λ p. p ≡ length (known_of self.old).trees) }
        ensures ok { OnOk result ((known_of self.new).trees ≡ (known_of self.old).trees ++ word_tree (known_of self.old) word ∷ []) }
        ensures err { OnErr result ((known_of self.new).trees ≡ (known_of self.old).trees) }
    {
        let at = self.words.len();
        if at >= MAX_CELLS {
            return Err(Memory);
        }
        self.words.push(word)?;
        Ok(at as u32)
    }

    // Takes a node's arguments from the last words, and puts its word in their place.
    fn put_node(
        &mut self,
        alloc: Global,
        pending: &mut Vec<Word>,
        node: &Node,
        base: u64,
    ) -> Result<(), Memory>
        requires heap { IsHeap self.old }
        requires arity { HasArities (node.now ∷ []) }
        requires enough { count_of node.now ≤ length pending.old.items }
        requires pending { All (IsWord (known_of self.old)) pending.old.items }
        ensures grown { GrownFrom (known_of self.old) self.new }
        ensures pending { OnOk result (All (IsWord (known_of self.new)) pending.new.items) }
        ensures trees { OnOk result (trees_on (known_of self.new) pending.new.items
            ≡ grow (map_node (λ n. n + base) node.now) (trees_on (known_of self.old) pending.old.items)) }
    {
        match node {
            Node::Var(number) => self.put_leaf(pending, variable(*number, base)?),
            Node::Int(value) => {
                let word = self.integer(*value)?;
                self.put_leaf(pending, word)
            }
            Node::Atom(name) => {
                let word = self.atom(alloc, name.as_str())?;
                self.put_leaf(pending, word)
            }
            Node::Comp(name, count) => {
                let at = self.name(alloc, name.as_str())?;
                self.gather(pending, at, *count)
            }
        }
    }

    fn put_leaf(&self, pending: &mut Vec<Word>, word: Word) -> Result<(), Memory>
        requires word { IsWord (known_of self.now) word }
        requires pending { All (IsWord (known_of self.now)) pending.old.items }
        ensures pending { OnOk result (All (IsWord (known_of self.now)) pending.new.items) }
        ensures trees { OnOk result (trees_on (known_of self.now) pending.new.items
            ≡ word_tree (known_of self.now) word ∷ trees_on (known_of self.now) pending.old.items) }
    {
        pending.push(word)?;
        Ok(())
    }

    // The word of the first term of these nodes, with `base` added to the numbers of its variables.
    fn put(&mut self, alloc: Global, nodes: &[Node], base: u64) -> Result<Word, Memory>
        requires heap { IsHeap self.old }
        requires some { 0 < length nodes.now }
        requires terms { AreTermNodes nodes.now }
        ensures grown { GrownFrom (known_of self.old) self.new }
        ensures word { IfOk result (λ w. HasTree (known_of self.new) w (renamed base (parse nodes.now))) }
    {
        let mut pending = Vec::new(alloc);
        for i in 0..nodes.len() {
            self.put_node(alloc, &mut pending, &nodes[nodes.len() - 1 - i], base)?;
        }
        Ok(pending.pop().unwrap())
    }

    // The word of a compound whose arguments have these words, the last one first.
    fn compound(
        &mut self,
        alloc: Global,
        name: &str,
        mut pending: Vec<Word>,
    ) -> Result<Word, Memory>
        requires heap { IsHeap self.old }
        requires some { 1 ≤ length pending.items }
        requires few { length pending.items ≤ 1024 }
        requires words { All (IsWord (known_of self.old)) pending.items }
        ensures grown { GrownFrom (known_of self.old) self.new }
        ensures word { IfOk result (λ w. HasTree (known_of self.new) w
            (compound name.now (trees_of (trees_on (known_of self.old) pending.items)))) }
    {
        let at = self.name(alloc, name)?;
        let count = pending.len() as u32;
        self.gather(&mut pending, at, count)?;
        Ok(pending.pop().unwrap())
    }

    // Puts a term and tells its place.
    pub(crate) fn put_placed(
        &mut self,
        alloc: Global,
        nodes: &[Node],
        base: u64,
    ) -> Result<u32, Memory>
        requires heap { IsHeap self.old }
        requires some { 0 < length nodes.now }
        requires terms { AreTermNodes nodes.now }
        ensures grown { GrownFrom (known_of self.old) self.new }
        ensures place { IfOk result (StandsAt (known_of self.new) (renamed base (parse nodes.now))) }
    {
        let word = self.put(alloc, nodes, base)?;
        self.place(word)
    }

    // Puts a compound of these cells' trees and tells its place.
    pub(crate) fn compound_placed(
        &mut self,
        alloc: Global,
        name: &str,
        args: &[Cell],
    ) -> Result<u32, Memory>
        requires heap { IsHeap self.old }
        requires some { 1 ≤ length args.now }
        requires few { length args.now ≤ 1024 }
        requires cells { All (λ c. c < length (known_of self.old).trees) args.now }
        ensures grown { GrownFrom (known_of self.old) self.new }
        ensures place { IfOk result (StandsAt (known_of self.new)
            (compound name.now (trees_of (map (tree_at (known_of self.old)) args.now)))) }
    {
        let pending = self.words_of(alloc, args)?;
        let word = self.compound(alloc, name, pending)?;
        self.place(word)
    }

    // Puts a compound of so many new variables, numbered from `next`, and tells its place.
    pub(crate) fn fresh_placed(
        &mut self,
        alloc: Global,
        name: &str,
        count: u32,
        next: u64,
    ) -> Result<u32, Memory>
        requires heap { IsHeap self.old }
        requires some { 1 ≤ count }
        requires few { count ≤ 1024 }
        ensures grown { GrownFrom (known_of self.old) self.new }
        ensures place { IfOk result (StandsAt (known_of self.new)
            (compound name.now (trees_of (variables_from next count)))) }
    {
        let pending = self.new_words(alloc, count, next)?;
        let word = self.compound(alloc, name, pending)?;
        self.place(word)
    }

    // The words of so many variables, numbered from `next`, the last one first.
    fn new_words(&self, alloc: Global, count: u32, next: u64) -> Result<Vec<Word>, Memory>
        ensures words { IfOk result (λ v. All (IsWord (known_of self.now)) v.items) }
        ensures trees { IfOk result (λ v. trees_on (known_of self.now) v.items ≡ variables_from next count) }
        ensures count { IfOk result (λ v. length v.items ≡ count) }
    {
        let mut words = Vec::with_capacity(alloc, count as usize)?;
        for i in 0..count {
            words.push(variable(u64::from(count - 1 - i), next)?)?;
        }
        Ok(words)
    }

    // Puts the variables of these numbers and tells their cells.
    pub(crate) fn variables_placed(
        &mut self,
        alloc: Global,
        numbers: &[u64],
    ) -> Result<Vec<Cell>, Memory>
        requires { IsHeap self.old }
        ensures grown { GrownFrom (known_of self.old) self.new }
        ensures cells { IfOk result (λ v. All (λ c. c < length (known_of self.new).trees) v.items) }
        ensures trees { IfOk result (λ v. map (tree_at (known_of self.new)) v.items ≡ map variable numbers.now) }
    {
        let mut cells = Vec::new(alloc);
        for number in numbers {
            let place = self.place(variable_word(*number)?)?;
            cells.push(Cell::at(place))?;
        }
        Ok(cells)
    }

    // The words of these cells, the last one first.
    fn words_of(&self, alloc: Global, cells: &[Cell]) -> Result<Vec<Word>, Memory>
        requires heap { IsHeap self.now }
        requires cells { All (λ c. c < length (known_of self.now).trees) cells.now }
        ensures words { IfOk result (λ v. All (IsWord (known_of self.now)) v.items) }
        ensures trees { IfOk result (λ v. trees_on (known_of self.now) v.items
            ≡ map (tree_at (known_of self.now)) cells.now) }
    {
        let mut words = Vec::with_capacity(alloc, cells.len())?;
        for i in 0..cells.len() {
            words.push(self.word_at(cells[cells.len() - 1 - i]))?;
        }
        Ok(words)
    }

    // The word of a cell.
    pub(crate) fn word_at(&self, cell: Cell) -> Word
        requires heap { IsHeap self.now }
        requires cell { cell < length (known_of self.now).trees }
        ensures { HasTree (known_of self.now) result (tree_at (known_of self.now) cell) }
    {
        self.words[cell.place() as usize]
    }

    // A word's outermost symbol.
    pub(crate) fn symbol(&self, word: Word) -> Seen<'_>
        requires { IsWord (known_of self.now) word }
        ensures { seen_node result ≡ symbol_of (word_tree (known_of self.now) word) }
    {
        match word.shape() {
            Shape::Var(number) => Seen::Var(number),
            Shape::Int(value) => Seen::Int(value),
            Shape::Large(at) => Seen::Int(self.large[at as usize]),
            Shape::Atom(name) => Seen::Atom(&self.names[name as usize]),
            Shape::Comp { name, count, .. } => Seen::Comp(&self.names[name as usize], count),
        }
    }

    // The place of an argument, counted from 0, of a compound's word.
    pub(crate) fn argument(&self, word: Word, i: u32) -> u32
        requires word { IsWord (known_of self.now) word }
        requires within { i < length (arguments_of (word_tree (known_of self.now) word)) }
        ensures place { result < length (known_of self.now).trees }
        ensures tree { tree_at (known_of self.now) result
            ≡ slice_index_or (arguments_of (word_tree (known_of self.now) word)) i (atom []) }
    {
        match word.shape() {
            Shape::Comp { first, .. } => first as u32 + i,
            _ => unreachable!(),
        }
    }

    // The nodes of a word's term; `None` where they are more than `limit`.
    pub(crate) fn nodes(
        &self,
        alloc: Global,
        word: Word,
        limit: u64,
    ) -> Result<Option<Vec<Node>>, Memory>
        requires heap { IsHeap self.now }
        requires word { IsWord (known_of self.now) word }
        ensures { IfOk result (HasNodes (word_tree (known_of self.now) word) limit) }
    {
        let mut nodes = Vec::new(alloc);
        let mut pending = vec![in alloc; word]?;
        while let Some(word) = pending.pop() {
            if nodes.len() as u64 >= limit {
                return Ok(None);
            }
            if nodes.len() >= MAX_NODES {
                return Err(Memory);
            }
            nodes.push(self.symbol(word).node(alloc)?)?;
            self.push_arguments(&mut pending, word)?;
        }
        Ok(Some(nodes))
    }

    // Puts the words of a word's arguments at the end, the first one last.
    fn push_arguments(&self, pending: &mut Vec<Word>, word: Word) -> Result<(), Memory>
        requires heap { IsHeap self.now }
        requires word { IsWord (known_of self.now) word }
        requires pending { All (IsWord (known_of self.now)) pending.old.items }
        ensures pending { OnOk result (All (IsWord (known_of self.now)) pending.new.items) }
        ensures trees { OnOk result (trees_on (known_of self.now) pending.new.items
            ≡ arguments_of (word_tree (known_of self.now) word) ++ trees_on (known_of self.now) pending.old.items) }
    {
        match word.shape() {
            Shape::Comp { count, first, .. } => self.push_block(pending, first, count),
            _ => Ok(()),
        }
    }

    fn push_block(&self, pending: &mut Vec<Word>, first: u64, count: u32) -> Result<(), Memory>
        requires heap { IsHeap self.now }
        requires within { first + count ≤ length (known_of self.now).trees }
        requires pending { All (IsWord (known_of self.now)) pending.old.items }
        ensures pending { OnOk result (All (IsWord (known_of self.now)) pending.new.items) }
        ensures trees { OnOk result (trees_on (known_of self.now) pending.new.items
            ≡ block (known_of self.now) first count ++ trees_on (known_of self.now) pending.old.items) }
    {
        for i in 0..count {
            let at = first as usize + (count - 1 - i) as usize;
            pending.push(self.words[at])?;
        }
        Ok(())
    }
}

fn variable_word(number: u64) -> Result<Word, Memory>
    ensures { IfOk result (λ w. shape_of w ≡ Shape.Var number) }
{
    let word = variable(number, 0)?;
    Ok(word)
}

// The word of a variable.
pub(crate) fn variable(number: u64, base: u64) -> Result<Word, Memory>
    ensures word { IfOk result (λ w. shape_of w ≡ Shape.Var (number + base)) }
    ensures few { OnOk result (number + base < MAX_VARIABLES) }
{
    let number = number.checked_add(base).ok_or(Memory)?;
    if number >= MAX_VARIABLES {
        return Err(Memory);
    }
    Ok(Word::var(number))
}
