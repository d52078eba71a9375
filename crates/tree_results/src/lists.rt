// Lists as terms.
ghost use Rattle.std.specs.Prelude.{◌≡◌, ◌≤◌, ◌∷◌, ◌++◌, length, drop, codes, Ok, IfOk, OnOk};
ghost use Rattle.std.specs.List.{list_any};
ghost use Rattle.term_core.specs.declared.node.Node.TheVariants.{Comp};
ghost use Rattle.term_core.specs.Parts.{symbol_of};
ghost use Rattle.builtin_table.specs.Lists.{elements, rest as rest_of, is_list as is_list_tree, is_empty_list, list_of as list_of_trees, needed_list as needed_list_of, bound as bound_of, needed_values as needed_values_of};
ghost use Rattle.builtin_table.specs.Outcomes.{is_variable as is_variable_tree};
ghost use Rattle.builtin_table.specs.Solutions.{may_be_list as may_be_list_tree};
ghost use Rattle.tree_results.specs.Cells.{is_cell_node};

use crate::kinds::is_variable;
use builtin_table::{instantiation_error, type_error};
use std::alloc::Global;
use term_core::{List, Memory, Name, Node, Term};

/// The elements of the cells that a term begins with, and what follows them.
pub fn list_parts(alloc: Global, term: &Term) -> Result<(Vec<Term>, Term), Memory>
    ensures elements { IfOk result (λ p. p.0.items ≡ elements term.now) }
    ensures rest { IfOk result (λ p. p.1 ≡ rest_of term.now) }
{
    let mut nodes = term.nodes();
    let mut elements = Vec::new(alloc);
    while is_cell(&nodes[0]) {
        let parts = behind(nodes, 1);
        let element = Term::first_of(alloc, parts)?;
        nodes = behind(parts, element.nodes().len());
        elements.push(element)?;
    }
    let rest = Term::first_of(alloc, nodes)?;
    Ok((elements, rest))
}

// All nodes but so many first ones.
fn behind(nodes: &[Node], count: usize) -> &[Node]
    requires { count ≤ length nodes.now }
    ensures { result.now ≡ drop count nodes.now }
{
    &nodes[count..]
}

// Whether a list cell begins with this node.
fn is_cell(node: &Node) -> bool
    ensures { result ≡ is_cell_node node.now }
{
    match node {
        Node::Comp(name, count) => *count == 2 && name.as_str() == ".",
        Node::Var(_) | Node::Int(_) | Node::Atom(_) => false,
    }
}

/// Whether the term is the empty list.
pub fn is_empty(term: &Term) -> bool
    ensures { result ≡ is_empty_list term.now }
{
    match term.symbol() {
        Node::Atom(name) => name.as_str() == "[]",
        Node::Var(_) | Node::Int(_) | Node::Comp(_, _) => false,
    }
}

/// Whether nothing but the empty list follows the cells.
pub fn is_list(alloc: Global, term: &Term) -> Result<bool, Memory>
    ensures { IfOk result (λ b. b ≡ is_list_tree term.now) }
{
    let (_, rest) = list_parts(alloc, term)?;
    Ok(is_empty(&rest))
}

/// Whether the term is a variable, or a list that is proper or ends in a variable.
pub fn may_be_list(alloc: Global, term: &Term) -> Result<bool, Memory>
    ensures { IfOk result (λ b. b ≡ may_be_list_tree term.now) }
{
    let (_, rest) = list_parts(alloc, term)?;
    Ok(match rest.symbol() {
        Node::Var(_) => true,
        Node::Atom(name) => name.as_str() == "[]",
        Node::Int(_) | Node::Comp(_, _) => false,
    })
}

/// The list of these elements: cells of an element and a rest, up to the atom `[]`.
pub fn list_of(alloc: Global, elements: &[Term]) -> Result<Term, Memory>
    ensures { IfOk result (λ t. t ≡ list_of_trees elements.now) }
{
    let mut nodes = Vec::new(alloc);
    for element in elements {
        push_cell(alloc, &mut nodes, element.nodes())?;
    }
    nodes.push(Node::Atom(Name::new(alloc, "[]")?))?;
    let list = Term::from_nodes(alloc, nodes)?;
    Ok(list)
}

// Puts a cell's first node and its element's nodes at the end.
fn push_cell(alloc: Global, nodes: &mut Vec<Node>, element: &[Node]) -> Result<(), Memory>
    ensures { OnOk result (nodes.new.items ≡ nodes.old.items ++ Comp (codes ".") 2 ∷ element.now) }
{
    nodes.push(Node::Comp(Name::new(alloc, ".")?, 2))?;
    for node in element {
        nodes.push(node.copied(alloc)?)?;
    }
    Ok(())
}

/// The elements of a list that is needed, or what is wrong.
pub fn needed_list(alloc: Global, list: &Term) -> Result<Result<List<Term>, Term>, Memory>
    ensures { IfOk result (λ r. r ≡ needed_list_of list.now) }
{
    let (elements, rest) = list_parts(alloc, list)?;
    if is_variable(&rest) {
        return Ok(Err(instantiation_error(alloc)?));
    }
    if !is_empty(&rest) {
        return Ok(Err(type_error(alloc, "list", list.copied(alloc)?)?));
    }
    Ok(Ok(List::from_vec(elements)))
}

// Whether one of these is a variable.
fn has_variable(terms: &[Term]) -> bool
    ensures { result ≡ list_any is_variable_tree terms.now }
{
    for term in terms {
        if is_variable(term) {
            return true;
        }
    }
    false
}

/// The same elements, where none of them is a variable.
pub fn bound(alloc: Global, elements: List<Term>) -> Result<Result<List<Term>, Term>, Memory>
    ensures { IfOk result (λ r. r ≡ bound_of (Ok elements)) }
{
    if has_variable(elements.as_slice()) {
        return Ok(Err(instantiation_error(alloc)?));
    }
    Ok(Ok(elements))
}

/// The elements of a list that is needed, of which none may be a variable, or what is wrong.
pub fn needed_values(alloc: Global, list: &Term) -> Result<Result<List<Term>, Term>, Memory>
    ensures { IfOk result (λ r. r ≡ needed_values_of list.now) }
{
    match needed_list(alloc, list)? {
        Ok(elements) => bound(alloc, elements),
        Err(formal) => Ok(Err(formal)),
    }
}
