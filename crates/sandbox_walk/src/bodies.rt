// Where bodies begin in a text.
ghost use Rattle.std.specs.Prelude.{◌≡◌, ◌&&◌, ◌==◌, ◌+◌, ◌<◌, ◌^◌, if◌then◌else◌, true, get_or, IfOk, OnOk};
ghost use Rattle.std.specs.List.{list_all};
ghost use Rattle.term_core.specs.Preorder.{count_of as count_of_node};
ghost use Rattle.program.specs.Bodies.{is_connective as is_connective_name};
ghost use Rattle.sandbox_walk.specs.Pending.{begins_body, body_of, with_body, bodies_at as bodies_at_nodes};

use program::is_connective;
use std::alloc::Global;
use term_core::{Memory, Name, Node};

// Whether a body begins, at each of these nodes.
pub(crate) fn bodies_at(alloc: Global, nodes: &[Node]) -> Result<Vec<bool>, Memory>
    ensures { IfOk result (λ v. v.items ≡ bodies_at_nodes nodes.now) }
{
    // the answers for the trees behind the node, that of the first one last
    let mut trees = Vec::new(alloc);
    let mut bodies = Vec::new(alloc);
    for i in 0..nodes.len() {
        let is_body = take_node(&mut trees, &nodes[nodes.len() - 1 - i])?;
        bodies.push(is_body)?;
    }
    bodies.reverse();
    Ok(bodies)
}

// Takes a node into the answers for the trees behind it.
fn take_node(trees: &mut Vec<bool>, node: &Node) -> Result<bool, Memory>
    ensures trees { OnOk result (trees.new.items ≡ with_body node.now trees.old.items) }
    ensures body { IfOk result (λ b. b ≡ body_of node.now trees.old.items) }
{
    let kept = trees.len().saturating_sub(count_of(node));
    let is_body = is_body(node, &trees[kept..]);
    trees.truncate(kept);
    trees.push(is_body)?;
    Ok(is_body)
}

fn count_of(node: &Node) -> usize
    ensures { result ≡ count_of_node node.now }
{
    match node {
        Node::Comp(_, count) => *count as usize,
        Node::Var(_) | Node::Int(_) | Node::Atom(_) => 0,
    }
}

// Whether a body begins at the node, from whether its arguments are bodies.
fn is_body(node: &Node, args: &[bool]) -> bool
    ensures { result ≡ begins_body node.now args.now }
{
    match node {
        Node::Var(_) | Node::Atom(_) => true,
        Node::Int(_) => false,
        Node::Comp(name, count) => is_compound_body(name, *count, args),
    }
}

fn is_compound_body(name: &Name, count: u32, args: &[bool]) -> bool
    ensures { result ≡ (if is_connective_name name.now && count == 2 then list_all (λ b. b) args.now else true) }
{
    !(is_connective(name) && count == 2) || are_all(args)
}

fn are_all(flags: &[bool]) -> bool
    ensures { result ≡ list_all (λ b. b) flags.now }
{
    for flag in flags {
        if !*flag {
            return false;
        }
    }
    true
}

// Whether a body stands where so many fresh variables are added to the arguments of the first term.
pub(crate) fn extends_to_body(name: &Name, count: u32, added: u32, bodies: &[bool]) -> bool
    requires { count + added < 2 ^ 32 }
    ensures { result ≡ (if added == 0 then get_or bodies.now 0 true else if is_connective_name name.now && count + added == 2 then get_or bodies.now 1 true else true) }
{
    if added == 0 {
        return flag_at(bodies, 0);
    }
    !(is_connective(name) && count + added == 2) || flag_at(bodies, 1)
}

fn flag_at(flags: &[bool], at: usize) -> bool
    ensures { result ≡ get_or flags.now at true }
{
    match flags.get(at) {
        Some(flag) => *flag,
        None => true,
    }
}
