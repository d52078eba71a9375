// Cells for what a plan asks for.
ghost use Rattle.std.specs.Prelude.{◌≡◌, ◌+◌, ◌++◌, map, length, IfOk, OnOk, OnErr};
ghost use Rattle.std.specs.List.{All};
ghost use Rattle.builtin_table.specs.Lists.{list_of as list_of_trees};
ghost use Rattle.store.specs.Cells.{IsCell, tree_of, Keeps, Makes, MakesAll};
ghost use Rattle.term_core.specs.Tree.{variable};
ghost use Rattle.term_core.specs.Parts.{arguments_of};
ghost use Rattle.term_core.specs.Variables.{variables as variables_of};
ghost use Rattle.prims_term.specs.Plans.{what_tree, what_fresh, arity_of, parts_of, parts_list, IsWhat};

use crate::plan::What;
use std::alloc::Global;
use store::{Cell, Seen, Store};
use term_core::Memory;

// A cell for what is asked for.
pub(crate) fn make(alloc: Global, store: &mut Store, what: What) -> Result<Cell, Memory>
    requires { IsWhat store.old what }
    ensures ok { IfOk result (λ c. Makes store.old store.new c (what_tree store.old what)) }
    ensures next { OnOk result (store.new.next ≡ store.old.next + what_fresh store.old what) }
    ensures err { OnErr result (Keeps store.old store.new) }
{
    match what {
        What::Cell(c) => Ok(c),
        What::Int(value) => store.int(value),
        What::Atom(name) => store.atom(name.as_str()),
        What::New(name, count) => store.fresh(name.as_str(), count),
        What::Compound(name, args) => store.compound(name.as_str(), &args),
        What::Parts(c) => parts(alloc, store, c),
        What::Copy(c) => store.copy(c),
        What::Variables(c) => variables(store, c),
    }
}

// The list of a term's variables.
fn variables(store: &mut Store, c: Cell) -> Result<Cell, Memory>
    requires { IsCell store.old c }
    ensures ok { IfOk result (λ d. Makes store.old store.new d
        (list_of_trees (map variable (variables_of (tree_of store.old c))))) }
    ensures next { store.new.next ≡ store.old.next }
    ensures err { OnErr result (Keeps store.old store.new) }
{
    let cells = store.variables(c)?;
    let list = list_of(store, &cells)?;
    Ok(list)
}

// The list of a compound's name and arguments, or of the term alone.
fn parts(alloc: Global, store: &mut Store, c: Cell) -> Result<Cell, Memory>
    requires { IsCell store.old c }
    ensures ok { IfOk result (λ d. Makes store.old store.new d (parts_list (tree_of store.old c))) }
    ensures next { store.new.next ≡ store.old.next }
    ensures err { OnErr result (Keeps store.old store.new) }
{
    let cells = part_cells(alloc, store, c)?;
    let list = list_of(store, &cells)?;
    Ok(list)
}

// Cells for a compound's name and arguments, or the term alone.
fn part_cells(alloc: Global, store: &mut Store, c: Cell) -> Result<Vec<Cell>, Memory>
    requires { IsCell store.old c }
    ensures ok { IfOk result (λ v. MakesAll store.old store.new v.items (parts_of (tree_of store.old c))) }
    ensures next { store.new.next ≡ store.old.next }
    ensures err { OnErr result (Keeps store.old store.new) }
{
    let name = match store.look(c) {
        Seen::Comp(name, _) => name.copied(alloc)?,
        Seen::Var(_) | Seen::Int(_) | Seen::Atom(_) => return Ok(vec![in alloc; c]?),
    };
    let mut cells = vec![in alloc; store.atom(name.as_str())?]?;
    push_arguments(store, &mut cells, c)?;
    Ok(cells)
}

// Puts the cells of a compound's arguments at the end.
pub(crate) fn push_arguments(store: &Store, cells: &mut Vec<Cell>, c: Cell) -> Result<(), Memory>
    requires cell { IsCell store.now c }
    requires cells { All (IsCell store.now) cells.old.items }
    ensures cells { OnOk result (All (IsCell store.now) cells.new.items) }
    ensures trees { OnOk result (map (tree_of store.now) cells.new.items
        ≡ map (tree_of store.now) cells.old.items ++ arguments_of (tree_of store.now c)) }
{
    for i in 0..argument_count(store, c) {
        cells.push(store.arg(c, i))?;
    }
    Ok(())
}

// How many arguments a term has; 0 where it is no compound.
pub(crate) fn argument_count(store: &Store, c: Cell) -> u32
    requires { IsCell store.now c }
    ensures arguments { result ≡ length (arguments_of (tree_of store.now c)) }
    ensures arity { result ≡ arity_of (tree_of store.now c) }
{
    match store.look(c) {
        Seen::Comp(_, count) => count,
        Seen::Var(_) | Seen::Int(_) | Seen::Atom(_) => 0,
    }
}

// The list of these cells' terms.
fn list_of(store: &mut Store, cells: &[Cell]) -> Result<Cell, Memory>
    requires { All (IsCell store.old) cells.now }
    ensures ok { IfOk result (λ c. Makes store.old store.new c
        (list_of_trees (map (tree_of store.old) cells.now))) }
    ensures next { store.new.next ≡ store.old.next }
    ensures err { OnErr result (Keeps store.old store.new) }
{
    let mut list = store.atom("[]")?;
    for i in 0..cells.len() {
        let element = cells[cells.len() - 1 - i];
        list = store.compound(".", &[element, list])?;
    }
    Ok(list)
}
