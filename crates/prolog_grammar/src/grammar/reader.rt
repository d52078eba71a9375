ghost use Rattle.std.specs.Prelude.{◌≡◌, [], Ok, Err, IfOk, IfErr, OnOk, IsOk, Some, None, ◌<◌, length};
ghost use Rattle.op_table.specs.Table.{row};
ghost use Rattle.prolog_grammar.specs.Stack as stack;
ghost use Rattle.std.specs.List.{list_all};
ghost use Rattle.term_core.specs.Flat.{flatten, parse};
ghost use Rattle.prolog_grammar.specs.Machine.{start};
ghost use Rattle.prolog_grammar.specs.Read.{refusal, reading, nodes_of, has_arguments, first_place, limited, term_of, Tells};

use crate::grammar::fault::Fault;
use crate::grammar::frame::Now;
use crate::grammar::lexeme::Placed;
use crate::grammar::machine::Machine;
use crate::grammar::turn::turned;
use op_table::Ops;
use std::alloc::Global;
use term_core::{Node, Term};

/// How many brackets may be open at once.
pub const MAX_OPEN: u64 = 4000;

/// How deep a term that is read may be.
pub const MAX_DEPTH: u64 = 1000;

/// How many arguments a compound that is read may have.
pub const MAX_ARGUMENTS: u32 = 1024;

// The fault of a token that left this.
fn refusal(now: &Now, token: &Placed) -> Option<Fault>
    ensures { result ≡ refusal token.now (stack.is_stuck now.now) (stack.is_sized now.now) }
{
    match now {
        Now::Stuck => Some(Fault::Syntax { at: token.from }),
        Now::TooLarge => Some(Fault::IntRange { at: token.from }),
        Now::Wants | Now::Named(_) | Now::Has(_) => {
            (token.open > MAX_OPEN).then_some(Fault::Nesting { at: token.from })
        }
    }
}

/// The nodes of the term of these tokens, arguments before their functor, or the first fault.
pub(crate) fn read_nodes(
    alloc: Global,
    ops: &Ops,
    tokens: &[Placed],
    end: u64,
) -> Result<Vec<Node>, Fault>
    ensures ok { IfOk result (λ nodes. stack.reading (λ f. row f ops.now.before) (λ f. row f ops.now.between) end tokens.now (Now.Wants, [], []) ≡ Ok nodes.items) }
    ensures err { IfErr result (λ fault. Tells (stack.reading (λ f. row f ops.now.before) (λ f. row f ops.now.between) end tokens.now (Now.Wants, [], [])) fault) }
{
    let mut machine = Machine::new(alloc);
    let mut now = Now::Wants;
    for token in tokens {
        now = machine.step(alloc, ops, &token.lexeme, now)?;
        if let Some(fault) = refusal(&now, token) {
            return Err(fault);
        }
    }
    if !machine.finish(now)? {
        return Err(Fault::Syntax { at: end });
    }
    let Machine { frames, nodes } = machine;
    drop(frames);
    Ok(nodes)
}

/// The nodes of the term of these tokens, functors first, or the first fault.
pub(crate) fn preorder(
    alloc: Global,
    ops: &Ops,
    tokens: &[Placed],
    end: u64,
) -> Result<Vec<Node>, Fault>
    ensures ok { IfOk result (λ nodes. nodes_of (reading (λ f. row f ops.now.before) (λ f. row f ops.now.between) end tokens.now start) ≡ Ok nodes.items) }
    ensures err { IfErr result (λ fault. Tells (nodes_of (reading (λ f. row f ops.now.before) (λ f. row f ops.now.between) end tokens.now start)) fault) }
{
    let nodes = read_nodes(alloc, ops, tokens, end)?;
    Ok(turned(alloc, nodes)?)
}

// Whether a compound has 1 to 1,024 arguments.
fn has_arguments(node: &Node) -> bool
    ensures { result ≡ has_arguments node.now }
{
    match node {
        Node::Comp(_, count) => 1 <= *count && *count <= MAX_ARGUMENTS,
        Node::Var(_) | Node::Int(_) | Node::Atom(_) => true,
    }
}

fn all_have_arguments(nodes: &[Node]) -> bool
    ensures { result ≡ list_all has_arguments nodes.now }
{
    for node in nodes {
        if !has_arguments(node) {
            return false;
        }
    }
    true
}

/// The place of the first token, or `end` where there is none.
pub(crate) fn first_place(tokens: &[Placed], end: u64) -> u64
    ensures { result ≡ first_place end tokens.now }
{
    match tokens.first() {
        Some(token) => token.from,
        None => end,
    }
}

/// The term of these nodes, or `Nesting` at this place where it passes a limit.
pub(crate) fn within(alloc: Global, nodes: &[Node], at: u64) -> Result<Term, Fault>
    requires some { 0 < length nodes.now }
    requires tree { flatten (parse nodes.now) ≡ nodes.now }
    ensures ok { IfOk result (λ term. limited at (parse nodes.now) ≡ Ok term) }
    ensures err { IfErr result (λ fault. Tells (limited at (parse nodes.now)) fault) }
{
    if !all_have_arguments(nodes) {
        return Err(Fault::Nesting { at });
    }
    let term = Term::first_of(alloc, nodes)?;
    if term.depth() > MAX_DEPTH {
        return Err(Fault::Nesting { at });
    }
    Ok(term)
}

/// Whether these tokens are a term, however deep it is and however many arguments a compound has, where the text, or its end token,
/// stands at `end`.
///
/// `Syntax` and `IntRange` come at the first token that is refused, `Nesting` at a bracket too many, in the order of their places.
pub fn check(alloc: Global, ops: &Ops, tokens: &[Placed], end: u64) -> Result<(), Fault>
    ensures ok { OnOk result (IsOk (reading (λ f. row f ops.now.before) (λ f. row f ops.now.between) end tokens.now start)) }
    ensures err { IfErr result (λ fault. Tells (nodes_of (reading (λ f. row f ops.now.before) (λ f. row f ops.now.between) end tokens.now start)) fault) }
{
    let nodes = preorder(alloc, ops, tokens, end)?;
    drop(nodes);
    Ok(())
}

/// The term of these tokens, where the text, or its end token, stands at `end`.
///
/// `Syntax` and `IntRange` come at the first token that is refused, `Nesting` at a bracket too many, in the order of their places;
/// then `Nesting` at the first token where the term's depth passes `MAX_DEPTH` or a compound has more than `MAX_ARGUMENTS` arguments.
pub fn read(alloc: Global, ops: &Ops, tokens: &[Placed], end: u64) -> Result<Term, Fault>
    ensures ok { IfOk result (λ term. term_of (λ f. row f ops.now.before) (λ f. row f ops.now.between) end tokens.now ≡ Ok term) }
    ensures err { IfErr result (λ fault. Tells (term_of (λ f. row f ops.now.before) (λ f. row f ops.now.between) end tokens.now) fault) }
{
    let nodes = preorder(alloc, ops, tokens, end)?;
    within(alloc, &nodes, first_place(tokens, end))
}
