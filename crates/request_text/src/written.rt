// The text of what is sent.
ghost use Rattle.std.specs.Prelude.{◌≡◌, ◌++◌, [], IfOk, IsTrue, codes};
ghost use Rattle.term_core.specs.Tree.{Tree};
ghost use Rattle.builtin_table.specs.Errors.{one_argument, two_arguments};
ghost use Rattle.builtin_table.specs.Lists.{cell, list_of};
ghost use Rattle.request_text.specs.Written.{ask_term, chunk_option, goal_with, number_term, request_term, sent_term, sent_text, template_option};

use crate::sent::Sent;
use event_core::{Ask, Request};
use prolog_write::{Mode, text};
use std::alloc::Global;
use term_core::{Memory, Term};

fn one_argument(alloc: Global, name: &str, argument: Term) -> Result<Term, Memory>
    ensures { IfOk result (λ t. t ≡ one_argument name.now argument) }
{
    Term::comp(alloc, name, &[argument])
}

fn number(alloc: Global, name: &str, count: u32) -> Result<Term, Memory>
    ensures { IfOk result (λ t. t ≡ one_argument name.now (number_term count)) }
{
    let argument = Term::int(alloc, i128::from(count))?;
    one_argument(alloc, name, argument)
}

// A list of one element more.
fn cell(alloc: Global, element: Term, rest: Term) -> Result<Term, Memory>
    ensures { IfOk result (λ t. t ≡ cell element rest) }
{
    Term::comp(alloc, ".", &[element, rest])
}

// The list of the option of a chunk that isn't the pengine's.
#[tactic(auto, using(crate::proofs::Rereading::chunk_named))]
fn chunk_options(alloc: Global, chunk: u32) -> Result<Term, Memory>
    ensures { IfOk result (λ t. t ≡ list_of (chunk_option chunk)) }
{
    let end = Term::atom(alloc, "[]")?;
    if chunk == 0 {
        return Ok(end);
    }
    let option = number(alloc, "chunk", chunk)?;
    cell(alloc, option, end)
}

// The list of the options of an ask that aren't the default ones.
fn options(alloc: Global, ask: &Ask) -> Result<Term, Memory>
    ensures { IfOk result (λ t. t ≡ list_of (template_option ask.now ++ chunk_option ask.now.chunk)) }
{
    let rest = chunk_options(alloc, ask.chunk)?;
    if Term::cmp(&ask.template, &ask.goal).is_eq() {
        return Ok(rest);
    }
    let template = ask.template.copied(alloc)?;
    let option = one_argument(alloc, "template", template)?;
    cell(alloc, option, rest)
}

// Whether an ask has no option that isn't the default one.
fn is_plain(ask: &Ask) -> bool
    ensures plain { IsTrue result → template_option ask.now ++ chunk_option ask.now.chunk ≡ [] }
    ensures named { ¬ IsTrue result → (g : Tree) → goal_with g (template_option ask.now ++ chunk_option ask.now.chunk) ≡ two_arguments (codes "ask") g (list_of (template_option ask.now ++ chunk_option ask.now.chunk)) }
{
    let is_goal = Term::cmp(&ask.template, &ask.goal).is_eq();
    is_goal && ask.chunk == 0
}

fn ask_term(alloc: Global, ask: &Ask) -> Result<Term, Memory>
    ensures { IfOk result (λ t. t ≡ ask_term ask.now) }
{
    let goal = ask.goal.copied(alloc)?;
    if is_plain(ask) {
        return one_argument(alloc, "ask", goal);
    }
    let options = options(alloc, ask)?;
    Term::comp(alloc, "ask", &[goal, options])
}

fn request_term(alloc: Global, request: &Request) -> Result<Term, Memory>
    ensures { IfOk result (λ t. t ≡ request_term request.now) }
{
    match request {
        Request::Ask(ask) => ask_term(alloc, ask),
        Request::Next(None) => Term::atom(alloc, "next"),
        Request::Next(Some(chunk)) => number(alloc, "next", *chunk),
        Request::Stop => Term::atom(alloc, "stop"),
        Request::Respond(reply) => {
            let reply = reply.copied(alloc)?;
            one_argument(alloc, "respond", reply)
        }
    }
}

fn sent_term(alloc: Global, sent: &Sent) -> Result<Term, Memory>
    ensures { IfOk result (λ t. t ≡ sent_term sent.now) }
{
    match sent {
        Sent::Request(request) => request_term(alloc, request),
        Sent::Abort => Term::atom(alloc, "abort"),
        Sent::Destroy => Term::atom(alloc, "destroy"),
    }
}

/// The text of what is sent, which [`read_request`](crate::read_request) reads, in UTF-8 and without an end. An ask names
/// its template where that isn't its goal, and its chunk where that isn't 0.
pub fn request_bytes(alloc: Global, s: &Sent) -> Result<Vec<u8>, Memory>
    ensures { IfOk result (λ v. v.items ≡ sent_text s.now) }
{
    let term = sent_term(alloc, s)?;
    match text(alloc, &term, Mode::Quoted, u64::MAX) {
        Ok(bytes) => Ok(bytes),
        Err(_) => Err(Memory),
    }
}
