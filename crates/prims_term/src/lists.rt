// Lists as terms in cells.
ghost use Rattle.std.specs.Prelude.{◌≡◌, ◌&&◌, ◌==◌, codes, bytes_eq, map, IfOk};
ghost use Rattle.std.specs.List.{All};
ghost use Rattle.builtin_table.specs.Lists.{elements, rest as rest_of, is_list as is_list_tree, is_empty_list};
ghost use Rattle.store.specs.Cells.{IsCell, tree_of};
ghost use Rattle.term_core.specs.Parts.{symbol_of};
ghost use Rattle.prims_term.specs.Symbols.{is_cell_symbol};

use std::alloc::Global;
use store::{Cell, MAX_CELLS, Seen, Store};
use term_core::Memory;

// The elements of the list cells that a term begins with, and what follows them.
#[derive(Debug, Drop)]
pub(crate) struct Parts {
    pub(crate) elements: Vec<Cell>,
    pub(crate) rest: Cell,
}

// `Memory` where there are more elements than a store has cells.
pub(crate) fn list_parts(alloc: Global, store: &Store, c: Cell) -> Result<Parts, Memory>
    requires { IsCell store.now c }
    ensures cells { IfOk result (λ p. All (IsCell store.now) p.elements.items) }
    ensures cell { IfOk result (λ p. IsCell store.now p.rest) }
    ensures elements { IfOk result (λ p. map (tree_of store.now) p.elements.items ≡ elements (tree_of store.now c)) }
    ensures rest { IfOk result (λ p. tree_of store.now p.rest ≡ rest_of (tree_of store.now c)) }
{
    let mut elements = Vec::new(alloc);
    let mut rest = c;
    for _i in 0..MAX_CELLS {
        let more = is_list_cell(store, rest);
        if more {
            let element = store.arg(rest, 0);
            elements.push(element)?;
            rest = store.arg(rest, 1);
        } else {
            return Ok(Parts { elements, rest });
        }
    }
    Err(Memory)
}

// Whether a list cell begins here.
fn is_list_cell(store: &Store, c: Cell) -> bool
    requires { IsCell store.now c }
    ensures { result ≡ is_cell_symbol (symbol_of (tree_of store.now c)) }
{
    match store.look(c) {
        Seen::Comp(name, count) => count == 2 && name.as_str() == ".",
        Seen::Var(_) | Seen::Int(_) | Seen::Atom(_) => false,
    }
}

// Whether the term is the empty list.
pub(crate) fn is_empty(store: &Store, c: Cell) -> bool
    requires { IsCell store.now c }
    ensures { result ≡ is_empty_list (tree_of store.now c) }
{
    match store.look(c) {
        Seen::Atom(name) => name.as_str() == "[]",
        Seen::Var(_) | Seen::Int(_) | Seen::Comp(_, _) => false,
    }
}

// Whether nothing but the empty list follows the cells.
pub(crate) fn is_list(alloc: Global, store: &Store, c: Cell) -> Result<bool, Memory>
    requires { IsCell store.now c }
    ensures { IfOk result (λ b. b ≡ is_list_tree (tree_of store.now c)) }
{
    let parts = list_parts(alloc, store, c)?;
    Ok(is_empty(store, parts.rest))
}
