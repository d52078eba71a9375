// What findall/3, bagof/3 and setof/3 make of a goal's solutions (ISO 13211-1, 8.10).
ghost use Rattle.std.specs.Prelude.{◌≡◌, ◌≤◌, drop, length, IfOk};
ghost use Rattle.builtin_table.specs.Solutions.{behind_carets, carets as carets_of, witness as witness_of};
ghost use Rattle.solve_model.specs.Collecting.{is_caret_node, offers_by};

use crate::work::Work;
use prims_tree::{Arrangement, Offers, findall_offers, group_offers, list_of, variable_terms};
use std::alloc::Global;
use term_core::{Memory, Node, Term};

// What becomes of the solutions.
#[derive(Drop)]
pub(crate) enum Collection {
    // they are unified with this list, as findall/3 does
    All(Term),
    // by the list of the free variables and the list of the results, as bagof/3 and setof/3 do
    Groups(Arrangement, Term, Term),
}

// ---- the goal behind V^

// The terms V of a goal's leading V^, and the goal behind them.
fn carets(alloc: Global, goal: &Term) -> Result<(Vec<Term>, Term), Memory>
    ensures carets { IfOk result (λ p. p.0.items ≡ carets_of goal.now) }
    ensures behind { IfOk result (λ p. p.1 ≡ behind_carets goal.now) }
{
    let mut nodes = goal.nodes();
    let mut found = Vec::new(alloc);
    while is_caret(&nodes[0]) {
        let parts = behind(nodes, 1);
        let quantified = Term::first_of(alloc, parts)?;
        nodes = behind(parts, quantified.nodes().len());
        found.push(quantified)?;
    }
    let goal = Term::first_of(alloc, nodes)?;
    Ok((found, goal))
}

// All nodes but so many first ones.
fn behind(nodes: &[Node], count: usize) -> &[Node]
    requires { count ≤ length nodes.now }
    ensures { result.now ≡ drop count nodes.now }
{
    &nodes[count..]
}

// Whether V^G begins with this node.
fn is_caret(node: &Node) -> bool
    ensures { result ≡ is_caret_node node.now }
{
    match node {
        Node::Comp(name, count) => *count == 2 && name.as_str() == "^",
        Node::Var(_) | Node::Int(_) | Node::Atom(_) => false,
    }
}

// The list of a goal's free variables, and the goal behind the leading V^.
pub(crate) fn witness(alloc: Global, template: &Term, goal: &Term) -> Result<(Term, Term), Memory>
    ensures witness { IfOk result (λ p. p.0 ≡ witness_of template.now goal.now) }
    ensures goal { IfOk result (λ p. p.1 ≡ behind_carets goal.now) }
{
    let (mut quantified, goal) = carets(alloc, goal)?;
    let mut terms = vec![in alloc; template.copied(alloc)?]?;
    terms.append(&mut quantified)?;
    let bound = list_of(alloc, &terms)?.variables(alloc)?.len();
    terms.push(goal.copied(alloc)?)?;
    let all = list_of(alloc, &terms)?.variables(alloc)?;
    let free = variable_terms(alloc, numbers_from(&all, bound))?;
    Ok((list_of(alloc, &free)?, goal))
}

// The numbers from a place on.
fn numbers_from(numbers: &[u64], from: usize) -> &[u64]
    ensures { result.now ≡ drop from numbers.now }
{
    if from < numbers.len() {
        &numbers[from..]
    } else {
        &[]
    }
}

// ---- offers

// What the solutions offer.
pub(crate) fn offers(
    alloc: Global,
    collection: Collection,
    solutions: &[Term],
    work: &mut Work,
) -> Result<Offers, Memory>
    ensures { IfOk result (λ os. os ≡ offers_by collection solutions.now) }
{
    match collection {
        Collection::All(list) => findall_offers(alloc, list, solutions),
        Collection::Groups(arrangement, witness, list) => {
            spend_all(solutions, work)?;
            group_offers(alloc, arrangement, &witness, &list, solutions)
        }
    }
}

// Counts the writing of each of these.
fn spend_all(terms: &[Term], work: &mut Work) -> Result<(), Memory> {
    for term in terms {
        work.spend(term)?;
    }
    Ok(())
}
