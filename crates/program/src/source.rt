// The terms of a source text.
ghost use Rattle.std.specs.Prelude.{◌≡◌, true, false, None, IfOk, IfErr, OnOk};
ghost use Rattle.std.specs.Option.{option_map};
ghost use Rattle.program.specs.declared.source.Item.TheVariants.{Rule};
ghost use Rattle.program.specs.Clauses.{indicator_of};
ghost use Rattle.program.specs.Kept.{clause_of};
ghost use Rattle.program.specs.Source.{fact, item_of, clause_in, begins_with_dollar, is_taken, fault_of, Tells, IsNumbered};
ghost use Rattle.program.specs.Symbols.{is_neck};

use crate::bodies::is_body;
use crate::clause::Clause;
use crate::directive::is_directive;
use crate::entry::Entry;
use crate::fault::ProgFault;
use op_table::Ops;
use std::alloc::Global;
use term_core::{Memory, Node, Pi, Term};

// What a term of a source text is (ISO 13211-1, 7.4).
#[derive(Drop)]
pub(crate) enum Item {
    // `:- D`
    Directive(Term),
    // `Head :- Body`, or a fact, whose body is `true`
    Rule { head: Term, body: Term },
}

// The clause of a client's term, where it is one.
pub(crate) fn own_entry(
    alloc: Global,
    term: &Term,
    number: u64,
    reserved: &[Pi],
    ops: &mut Ops,
) -> Result<Option<Entry>, ProgFault>
    requires { IsNumbered term.now }
    ensures entry { IfOk result (λ e. option_map (λ e. clause_of e.clause) e ≡ clause_in true term.now) }
    ensures accepted { OnOk result (fault_of reserved.now number (item_of term.now) ≡ None) }
    ensures refused { IfErr result (Tells (fault_of reserved.now number (item_of term.now))) }
{
    match item_in(alloc, term)? {
        Item::Directive(directive) => {
            if is_directive(alloc, &directive, ops)? {
                return Ok(None);
            }
            Err(ProgFault::BadDirective { clause: number })
        }
        Item::Rule { head, body } => {
            let Some(entry) = entry(alloc, term, head, body, true)? else {
                return Err(ProgFault::NotCallable { clause: number });
            };
            if is_taken(reserved, &entry.pi) {
                return Err(ProgFault::Redefines {
                    clause: number,
                    pi: entry.pi,
                });
            }
            Ok(Some(entry))
        }
    }
}

// The clause of a library's term, where it is one.
pub(crate) fn library_entry(alloc: Global, term: &Term) -> Result<Option<Entry>, Memory>
    requires { IsNumbered term.now }
    ensures { IfOk result (λ e. option_map (λ e. clause_of e.clause) e ≡ clause_in false term.now) }
{
    match item_in(alloc, term)? {
        Item::Directive(_) => Ok(None),
        Item::Rule { head, body } => entry(alloc, term, head, body, false),
    }
}

// What a term is.
fn item_in(alloc: Global, term: &Term) -> Result<Item, Memory>
    ensures { IfOk result (λ i. i ≡ item_of term.now) }
{
    if !is_neck(term.symbol()) {
        return fact(alloc, term);
    }
    let mut arguments = term.arguments(alloc)?;
    match (arguments.pop(), arguments.pop()) {
        (Some(directive), None) => Ok(Item::Directive(directive)),
        (Some(body), Some(head)) => Ok(Item::Rule { head, body }),
        (None, _) => fact(alloc, term),
    }
}

fn fact(alloc: Global, term: &Term) -> Result<Item, Memory>
    ensures { IfOk result (λ i. i ≡ fact term.now) }
{
    Ok(Item::Rule {
        head: term.copied(alloc)?,
        body: Term::atom(alloc, "true")?,
    })
}

// Whether this is the symbol of a directive or a rule.
fn is_neck(symbol: &Node) -> bool
    ensures { result ≡ is_neck symbol.now }
{
    match symbol {
        Node::Comp(name, count) => name.as_str() == ":-" && (*count == 1 || *count == 2),
        Node::Var(_) | Node::Int(_) | Node::Atom(_) => false,
    }
}

// The clause of a rule in a term, where the head is callable and the body is a body.
fn entry(
    alloc: Global,
    term: &Term,
    head: Term,
    body: Term,
    own: bool,
) -> Result<Option<Entry>, Memory>
    requires rule { item_of term.now ≡ Rule head body }
    requires numbered { IsNumbered term.now }
    ensures { IfOk result (λ e. option_map (λ e. clause_of e.clause) e ≡ clause_in own term.now) }
{
    let Some(pi) = indicator(alloc, &head)? else {
        return Ok(None);
    };
    if !is_body(alloc, &body)? {
        return Ok(None);
    }
    let vars = term.first_free()?;
    Ok(Some(Entry {
        pi,
        clause: Clause {
            head,
            body,
            vars,
            own,
        },
    }))
}

// The predicate that a head is of.
fn indicator(alloc: Global, head: &Term) -> Result<Option<Pi>, Memory>
    ensures { IfOk result (λ pi. pi ≡ indicator_of head.now) }
{
    match head.symbol() {
        Node::Var(_) | Node::Int(_) => Ok(None),
        Node::Atom(name) => Ok(Some(Pi {
            name: name.copied(alloc)?,
            arity: 0,
        })),
        Node::Comp(name, count) => Ok(Some(Pi {
            name: name.copied(alloc)?,
            arity: *count,
        })),
    }
}

// Whether no source text may define the predicate.
fn is_taken(reserved: &[Pi], pi: &Pi) -> bool
    ensures { result ≡ is_taken reserved.now pi.now }
{
    reserved.contains(pi) || begins_with_dollar(pi.name.as_str())
}

fn begins_with_dollar(name: &str) -> bool
    ensures { result ≡ begins_with_dollar name.now }
{
    matches!(name.as_bytes().first(), Some(b'$'))
}
