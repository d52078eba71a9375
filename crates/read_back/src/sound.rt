ghost use Rattle.read_back.specs.Sound.{IsSound, HasValue};

use term_core::{Node, Term};

// A node's number has its size, and its name is text.
fn node_is_sound(node: &Node)
    ensures { HasValue node.now }
{
    match node {
        Node::Var(number) => {
            let _number = *number;
        }
        Node::Int(value) => {
            let _value = *value;
        }
        Node::Atom(name) | Node::Comp(name, _) => {
            let _text = name.as_str();
        }
    }
}

/// Each term of the code is one of which the law speaks: its names are text, its numbers have their sizes, and its
/// compounds have 1 to 1,024 arguments. A caller that uses the law at a term calls this for the proof alone.
pub fn term_is_sound(term: &Term)
    ensures { IsSound term.now }
{
    for node in term.nodes() {
        node_is_sound(node);
    }
}
