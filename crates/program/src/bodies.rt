// Which terms may be run as goals.
ghost use Rattle.std.specs.Prelude.{◌≡◌, ◌&&◌, ◌==◌, if◌then◌else◌, true, IfOk, OnOk};
ghost use Rattle.std.specs.List.{list_all};
ghost use Rattle.program.specs.Bodies.{is_connective as is_connective_name, is_body as is_body_tree};
ghost use Rattle.program.specs.Symbols.{with_node};

use std::alloc::Global;
use term_core::{Memory, Name, Node, Term};

/// Whether the term is a body (ISO 13211-1, 7.6.2): a variable, an atom, or a compound; of `,`, `;` and `->` both
/// arguments are bodies.
pub fn is_body(alloc: Global, term: &Term) -> Result<bool, Memory>
    ensures { IfOk result (λ b. b ≡ is_body_tree term.now) }
{
    let nodes = term.nodes();
    // Each tree's answer stands behind those of the trees after it.
    let mut bodies = Vec::new(alloc);
    for i in 0..nodes.len() {
        take_node(&mut bodies, &nodes[nodes.len() - 1 - i])?;
    }
    Ok(bodies.pop().unwrap_or(true))
}

// Takes a node into the answers for the trees after it.
fn take_node(bodies: &mut Vec<bool>, node: &Node) -> Result<(), Memory>
    ensures { OnOk result (bodies.new.items ≡ with_node node.now bodies.old.items) }
{
    match node {
        Node::Var(_) | Node::Atom(_) => bodies.push(true)?,
        Node::Int(_) => bodies.push(false)?,
        Node::Comp(name, count) => {
            let kept = bodies.len().saturating_sub(*count as usize);
            let is_body = is_compound_body(name, *count, &bodies[kept..]);
            bodies.truncate(kept);
            bodies.push(is_body)?;
        }
    }
    Ok(())
}

// Whether a compound is a body, from whether its arguments are.
fn is_compound_body(name: &Name, count: u32, args: &[bool]) -> bool
    ensures { result ≡ (if is_connective_name name.now && count == 2 then list_all (λ b. b) args.now else true) }
{
    !(is_connective(name) && count == 2) || are_all(args)
}

fn are_all(flags: &[bool]) -> bool
    ensures { result ≡ list_all (λ b. b) flags.now }
{
    for flag in flags {
        if !*flag {
            return false;
        }
    }
    true
}

/// Whether the name is that of `,`, `;` or `->`, whose two arguments are bodies.
pub fn is_connective(name: &Name) -> bool
    ensures { result ≡ is_connective_name name.now }
{
    let text = name.as_str();
    text == "," || text == ";" || text == "->"
}
