ghost use Rattle.std.specs.Prelude.{◌≡◌, IfOk};

use crate::event::Kind;
use std::alloc::Global;
use term_core::{List, Memory, Name, Term};

/// A query: the goal to be run, and the term of which each answer gives an instance.
/// A variable of the goal and one of the template with the same number are one variable.
#[derive(Debug, Drop)]
pub struct Ask {
    pub goal: Term,
    pub template: Term,
    /// The variables whose names an answer carries, where the pengine has names: those of the texts of goal and template with a
    /// name that doesn't begin with `_`, in byte order of their names.
    pub names: List<(Name, u64)>,
    /// How many answers an event holds, from 1 to [`MAX_CHUNK`](crate::MAX_CHUNK); 0 stands for the pengine's own number. It holds fewer where their
    /// texts have [`CHUNK_BYTES`](crate::CHUNK_BYTES) together.
    pub chunk: u32,
    /// The bytes of the texts from which goal and template were read.
    pub bytes: u64,
}

/// What a client may ask of a pengine (Lager and Wielemaker, TPLP 2014).
#[derive(Debug, Drop)]
pub enum Request {
    /// Begins a query.
    Ask(Ask),
    /// Asks for the further answers of the query. A number, from 1 to [`MAX_CHUNK`](crate::MAX_CHUNK), is its chunk from then on.
    Next(Option<u32>),
    /// Ends the query.
    Stop,
    /// The reply to a prompt.
    Respond(Term),
}

impl Ask {
    /// The same query again.
    pub fn copied(&self, alloc: Global) -> Result<Ask, Memory>
        ensures { IfOk result (λ a. a ≡ self.now) }
    {
        let goal = self.goal.copied(alloc)?;
        let template = self.template.copied(alloc)?;
        let names = named_again(alloc, self.names.as_slice())?;
        Ok(Ask {
            goal,
            template,
            names,
            chunk: self.chunk,
            bytes: self.bytes,
        })
    }
}

// The same names and variables again.
fn named_again(alloc: Global, names: &[(Name, u64)]) -> Result<List<(Name, u64)>, Memory>
    ensures { IfOk result (λ ns. ns ≡ names.now) }
{
    let mut again = List::new(alloc);
    for (name, number) in names {
        again.push((name.copied(alloc)?, *number))?;
    }
    Ok(again)
}

impl Request {
    ghost use Rattle.event_core.specs.Requests.{kind_of, chunk_after, is_reply};

    /// Which kind of request it is.
    pub fn kind(&self) -> Kind
        ensures { result ≡ kind_of self.now }
    {
        match self {
            Request::Ask(_) => Kind::Ask,
            Request::Next(_) => Kind::Next,
            Request::Stop => Kind::Stop,
            Request::Respond(_) => Kind::Respond,
        }
    }

    /// How many answers an event holds after the request, where it held `chunk` before.
    pub fn chunk_after(&self, chunk: u32) -> u32
        ensures { result ≡ chunk_after self.now chunk }
    {
        match self {
            Request::Next(Some(new)) => *new,
            Request::Next(None) | Request::Ask(_) | Request::Stop | Request::Respond(_) => chunk,
        }
    }

    /// The same request again.
    pub fn copied(&self, alloc: Global) -> Result<Request, Memory>
        ensures { IfOk result (λ r. r ≡ self.now) }
    {
        match self {
            Request::Ask(ask) => Ok(Request::Ask(ask.copied(alloc)?)),
            Request::Next(chunk) => Ok(Request::Next(*chunk)),
            Request::Stop => Ok(Request::Stop),
            Request::Respond(reply) => Ok(Request::Respond(reply.copied(alloc)?)),
        }
    }

    /// Whether it brings a reply.
    pub fn is_reply(&self) -> bool
        ensures { result ≡ is_reply self.now }
    {
        matches!(self, Request::Respond(_))
    }
}
