// A request in a list node of its own, which moves without taking memory.
ghost use Rattle.std.specs.Prelude.{◌≡◌, ◌<◌, ◌^◌, [], ◌∷◌, ◌++◌, length, IfOk, IsTrue, ◌↔◌};
ghost use Rattle.event_core.specs.declared.fit.Fit.TheVariants.{GoesOn, Stops};
ghost use Rattle.event_core.specs.Requests.{kind_of, fit};

use event_core::{Kind, Request, Rest};
use std::alloc::Global;
use std::collections::LinkedList;
use std::marker::Model;
use term_core::Memory;

// A list of one request, which contracts see as the request.
#[derive(Debug, Drop)]
pub(crate) struct Node {
    list: LinkedList<Request>,
}

impl Model for Node {
    ghost use Rattle.std.specs.Prelude.{◌≡◌, [], ◌∷◌};
    ghost use Rattle.std.specs.List.{slice_index_or};
    ghost use Rattle.std.specs.Coded.{codes};
    ghost use Rattle.term_core.specs.Flat.{tree_code};
    ghost use Rattle.event_core.specs.declared.request.Request.{Request};
    ghost use Rattle.event_core.specs.declared.request.Request.TheVariants as request;

    ghost Value = { Request };

    ghost coded = { Prim.hlevel (codes, tree_code) };

    ghost view = { λ n. slice_index_or n.list 0 request.Stop };

    ghost invariant = { λ n. n.list ≡ slice_index_or n.list 0 request.Stop ∷ [] };
}

impl Node {
    pub(crate) fn new(alloc: Global, request: Request) -> Result<Node, Memory>
        ensures { IfOk result (λ n. n ≡ request) }
    {
        let mut list = LinkedList::new(alloc);
        list.push_back(request)?;
        Ok(Node { list })
    }

    // Moves the node to the end of a list.
    pub(crate) fn append_to(self, requests: &mut LinkedList<Request>)
        requires { length requests.old < 2 ^ 62 }
        ensures { requests.new ≡ requests.old ++ self ∷ [] }
    {
        let Node { mut list } = self;
        let _ = requests.append(&mut list);
    }

    pub(crate) fn into_request(self) -> Request
        ensures { result ≡ self }
    {
        let Node { mut list } = self;
        list.pop_front().unwrap_or(Request::Stop)
    }

    // Whether a query that rests so goes on with the request.
    pub(crate) fn goes_on(&self, rest: Rest) -> bool
        ensures { IsTrue result ↔ (fit rest self.now ≡ GoesOn) }
    {
        matches!(
            (rest, self.kind()),
            (Rest::More, Kind::Next) | (Rest::Prompting, Kind::Respond)
        )
    }

    // Whether the request ends a query that rests so.
    pub(crate) fn stops(&self, rest: Rest) -> bool
        ensures { IsTrue result ↔ (fit rest self.now ≡ Stops) }
    {
        matches!((rest, self.kind()), (Rest::More, Kind::Stop))
    }

    pub(crate) fn kind(&self) -> Kind
        ensures { result ≡ kind_of self.now }
    {
        match self.list.front() {
            Some(request) => request.kind(),
            None => Kind::Stop,
        }
    }
}
