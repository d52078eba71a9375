// The tests of a term's kind (ISO/IEC 13211-1, 8.3).
ghost use Rattle.std.specs.Prelude.{◌≡◌, ◌∷◌, [], true, IfOk};
ghost use Rattle.builtin_table.specs.Primitives.{is_variable as is_variable_tree, is_integer as is_integer_tree, is_atom as is_atom_tree, is_compound as is_compound_tree, is_ground as is_ground_tree, of_one as of_one_tree};
ghost use Rattle.builtin_table.specs.Lists.{is_list as is_list_tree};
ghost use Rattle.store.specs.Cells.{IsCell, tree_of};
ghost use Rattle.prims_term.specs.Plans.{plan_outcome, IsPlan};
ghost use Rattle.prims_term.specs.Rows.{is_kind_name};

use crate::lists::is_list;
use crate::plan::Plan;
use crate::results::{tested, whole};
use std::alloc::Global;
use store::{Cell, Seen, Store};
use term_core::{Memory, Node, Term};

pub(crate) fn is_variable(store: &Store, c: Cell) -> bool
    requires { IsCell store.now c }
    ensures { result ≡ is_variable_tree (tree_of store.now c) }
{
    matches!(store.look(c), Seen::Var(_))
}

pub(crate) fn is_integer(store: &Store, c: Cell) -> bool
    requires { IsCell store.now c }
    ensures { result ≡ is_integer_tree (tree_of store.now c) }
{
    matches!(store.look(c), Seen::Int(_))
}

pub(crate) fn is_atom(store: &Store, c: Cell) -> bool
    requires { IsCell store.now c }
    ensures { result ≡ is_atom_tree (tree_of store.now c) }
{
    matches!(store.look(c), Seen::Atom(_))
}

pub(crate) fn is_compound(store: &Store, c: Cell) -> bool
    requires { IsCell store.now c }
    ensures { result ≡ is_compound_tree (tree_of store.now c) }
{
    matches!(store.look(c), Seen::Comp(_, _))
}

// Whether no variable occurs.
fn is_ground(store: &Store, c: Cell) -> Result<bool, Memory>
    requires { IsCell store.now c }
    ensures { IfOk result (λ b. b ≡ is_ground_tree (tree_of store.now c)) }
{
    let term = whole(store, c)?;
    Ok(has_no_variable(&term))
}

fn has_no_variable(term: &Term) -> bool
    ensures { result ≡ is_ground_tree term.now }
{
    for node in term.nodes() {
        if let Node::Var(_) = node {
            return false;
        }
    }
    true
}

// The primitives of one argument.
#[tactic(auto, unfolding(builtin_table::specs::Primitives::of_one))]
pub(crate) fn of_one(alloc: Global, store: &Store, name: &str, c: Cell) -> Result<Plan, Memory>
    requires cell { IsCell store.now c }
    requires row { is_kind_name name.now ≡ true }
    ensures outcome { IfOk result (λ p.
        plan_outcome store.now (c ∷ []) p ≡ of_one_tree name.now (tree_of store.now c)) }
    ensures plan { IfOk result (IsPlan store.now (c ∷ [])) }
{
    match name {
        "var" => Ok(tested(is_variable(store, c))),
        "nonvar" => Ok(tested(!is_variable(store, c))),
        "atom" => Ok(tested(is_atom(store, c))),
        "integer" | "number" => Ok(tested(is_integer(store, c))),
        "atomic" => Ok(tested(is_atom(store, c) || is_integer(store, c))),
        "compound" => Ok(tested(is_compound(store, c))),
        "callable" => Ok(tested(is_atom(store, c) || is_compound(store, c))),
        "is_list" => Ok(tested(is_list(alloc, store, c)?)),
        "ground" => Ok(tested(is_ground(store, c)?)),
        _ => unreachable!(),
    }
}
