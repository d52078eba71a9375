// The request of a term, and of a text.
ghost use Rattle.std.specs.Prelude.{◌≡◌, ◌≢◌, Ok, Err, IfOk, IfErr};
ghost use Rattle.request_text.specs.declared.fault.RequestFault.TheVariants as fault;
ghost use Rattle.request_text.specs.Requests.{atom_request, one_argument_request, two_argument_request, compound_request, request_of, named};
ghost use Rattle.request_text.specs.Spelled.{sent_in};

use crate::fault::RequestFault;
use crate::options::ask_with;
use crate::sent::Sent;
use crate::shapes::number_up_to;
use crate::template::told_names;
use event_core::{Ask, MAX_CHUNK, Request};
use op_table::Ops;
use prolog_read::{ReadFault, read_term};
use std::alloc::Global;
use term_core::{List, Memory, Name, Node, Term};

fn atom_request(name: &str) -> Option<Sent>
    ensures { result ≡ atom_request name.now }
{
    if name == "next" {
        Some(Sent::Request(Request::Next(None)))
    } else if name == "stop" {
        Some(Sent::Request(Request::Stop))
    } else if name == "abort" {
        Some(Sent::Abort)
    } else if name == "destroy" {
        Some(Sent::Destroy)
    } else {
        None
    }
}

fn one_argument_request(
    alloc: Global,
    name: &str,
    argument: &Term,
    bytes: u64,
) -> Result<Option<Sent>, Memory>
    ensures { IfOk result (λ o. o ≡ one_argument_request bytes name.now argument.now) }
{
    if name == "ask" {
        let ask = Ask {
            goal: argument.copied(alloc)?,
            template: argument.copied(alloc)?,
            names: List::new(alloc),
            chunk: 0,
            bytes,
        };
        return Ok(Some(Sent::Request(Request::Ask(ask))));
    }
    if name == "next" {
        let Some(chunk) = number_up_to(argument, MAX_CHUNK) else {
            return Ok(None);
        };
        return Ok(Some(Sent::Request(Request::Next(Some(chunk as u32)))));
    }
    if name == "respond" {
        let reply = argument.copied(alloc)?;
        return Ok(Some(Sent::Request(Request::Respond(reply))));
    }
    Ok(None)
}

fn two_argument_request(
    alloc: Global,
    name: &str,
    first: &Term,
    second: &Term,
    bytes: u64,
) -> Result<Option<Sent>, Memory>
    ensures { IfOk result (λ o. o ≡ two_argument_request bytes name.now first.now second.now) }
{
    if name != "ask" {
        return Ok(None);
    }
    let Some(ask) = ask_with(alloc, first, second, bytes)? else {
        return Ok(None);
    };
    Ok(Some(Sent::Request(Request::Ask(ask))))
}

fn compound_request(
    alloc: Global,
    name: &str,
    arguments: &[Term],
    bytes: u64,
) -> Result<Option<Sent>, Memory>
    ensures { IfOk result (λ o. o ≡ compound_request bytes name.now arguments.now) }
{
    match arguments {
        [argument] => one_argument_request(alloc, name, argument, bytes),
        [first, second] => two_argument_request(alloc, name, first, second, bytes),
        _ => Ok(None),
    }
}

/// The request of a term that was read from so many bytes, or `None` where it is none.
pub(crate) fn request_of(alloc: Global, term: &Term, bytes: u64) -> Result<Option<Sent>, Memory>
    ensures { IfOk result (λ o. o ≡ request_of bytes term.now) }
{
    match term.symbol() {
        Node::Atom(name) => Ok(atom_request(name.as_str())),
        Node::Comp(name, _) => {
            let arguments = term.arguments(alloc)?;
            compound_request(alloc, name.as_str(), &arguments, bytes)
        }
        Node::Var(_) | Node::Int(_) => Ok(None),
    }
}

/// An ask with these names, which its answers may carry; of any other request nothing is changed.
fn named(names: List<(Name, u64)>, sent: Sent) -> Sent
    ensures { result ≡ named names sent }
{
    match sent {
        Sent::Request(Request::Ask(ask)) => Sent::Request(Request::Ask(Ask { names, ..ask })),
        other => other,
    }
}

/// Reads a request: `ask(Goal)` or `ask(Goal,Options)` with `template(Term)` and `chunk(N)` among the options,
/// `next` or `next(N)`, `stop`, `respond(Term)`, `abort` or `destroy`, with an end or none. An N is from 1 to 1,000, and no
/// option stands twice. Where an ask names no template its goal is the template, and where it names no chunk its chunk
/// is 0. The names of an ask are those of the text's variables that don't begin with `_`, each once and in byte order.
///
/// `Read` is the fault of a text that isn't one term, and `NotRequest` comes where the term is none of these.
pub fn read_request(alloc: Global, text: &str) -> Result<Sent, RequestFault>
    ensures request { IfOk result (λ s. sent_in text.now ≡ Ok s) }
    ensures refused { IfErr result (λ e. e ≢ fault.Memory → sent_in text.now ≡ Err e) }
{
    let ops = Ops::iso(alloc)?;
    let reading = match read_term(alloc, text, &ops) {
        Ok(reading) => reading,
        Err(ReadFault::Memory) => return Err(RequestFault::Memory),
        Err(fault) => return Err(RequestFault::Read(fault)),
    };
    let names = told_names(alloc, reading.names.as_slice())?;
    match request_of(alloc, &reading.term, text.len() as u64)? {
        Some(sent) => Ok(named(names, sent)),
        None => Err(RequestFault::NotRequest),
    }
}
