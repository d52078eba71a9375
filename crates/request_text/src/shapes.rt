// Terms by their shape.
ghost use Rattle.std.specs.Prelude.{◌≡◌, ◌≤◌, [], ◌∷◌, None, Some, IfOk, IfSome, MatchOption, length};
ghost use Rattle.term_core.specs.Parts.{arguments_of};
ghost use Rattle.request_text.specs.Shapes.{is_atom, is_compound, number_up_to, flag_of, elements, at_most};

use std::alloc::Global;
use term_core::{Memory, Node, Term};

/// Whether a term is this atom.
pub(crate) fn is_atom(term: &Term, name: &str) -> bool
    ensures { result ≡ is_atom name.now term.now }
{
    match term.symbol() {
        Node::Atom(own) => own.as_str() == name,
        Node::Var(_) | Node::Int(_) | Node::Comp(_, _) => false,
    }
}

/// Whether a term is a compound of this name and so many arguments.
pub(crate) fn is_compound(term: &Term, name: &str, count: u32) -> bool
    ensures { result ≡ is_compound name.now count term.now }
{
    match term.symbol() {
        Node::Comp(own, own_count) => *own_count == count && own.as_str() == name,
        Node::Var(_) | Node::Int(_) | Node::Atom(_) => false,
    }
}

/// The arguments of a term that has two.
fn two_arguments(alloc: Global, term: &Term) -> Result<(Term, Term), Memory>
    requires { length (arguments_of term.now) ≡ 2 }
    ensures { IfOk result (λ p. arguments_of term.now ≡ p.0 ∷ p.1 ∷ []) }
{
    let mut arguments = term.arguments(alloc)?;
    let second = arguments.pop().unwrap();
    let first = arguments.pop().unwrap();
    Ok((first, second))
}

/// An integer from 1 to the greatest one.
pub(crate) fn number_up_to(term: &Term, greatest: u64) -> Option<u64>
    ensures value { result ≡ number_up_to greatest term.now }
    ensures small { IfSome result (λ n. n ≤ greatest) }
{
    let Node::Int(value) = term.symbol() else {
        return None;
    };
    match u64::try_from(*value) {
        Ok(number) if 1 <= number && number <= greatest => Some(number),
        _ => None,
    }
}

/// One of the two truth values.
pub(crate) fn flag_of(term: &Term) -> Option<bool>
    ensures { result ≡ flag_of term.now }
{
    if is_atom(term, "true") {
        return Some(true);
    }
    if is_atom(term, "false") {
        return Some(false);
    }
    None
}

/// The elements of a proper list that has at most so many, or `None`.
pub(crate) fn elements(alloc: Global, term: &Term, most: usize) -> Result<Option<Vec<Term>>, Memory>
    ensures { IfOk result (λ o. MatchOption o
        (at_most most (elements term.now) ≡ None)
        (λ v. at_most most (elements term.now) ≡ Some v.items)) }
{
    let mut items = Vec::new(alloc);
    let mut rest = term.copied(alloc)?;
    while is_compound(&rest, ".", 2) {
        if items.len() == most {
            return Ok(None);
        }
        let (head, tail) = two_arguments(alloc, &rest)?;
        items.push(head)?;
        rest = tail;
    }
    if !is_atom(&rest, "[]") {
        return Ok(None);
    }
    Ok(Some(items))
}
