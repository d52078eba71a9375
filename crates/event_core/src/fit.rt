ghost use Rattle.std.specs.Prelude.{◌≡◌};
ghost use Rattle.event_core.specs.Requests.{fit};

use crate::request::Request;
use crate::rest::Rest;

/// What a request does to a query that rests.
#[derive(Clone, Copy, Debug, Drop, PartialEq, Eq)]
pub enum Fit {
    /// The query goes on.
    GoesOn,
    /// The query is ended.
    Stops,
    /// The request doesn't fit.
    Misfit,
}

/// What a request does where a query rests: `next` goes on and `stop` ends at `More`, `respond` goes on at `Prompting`, and nothing else
/// fits.
pub fn fit_of(rest: Rest, request: &Request) -> Fit
    ensures { result ≡ fit rest request.now }
{
    match (rest, request) {
        (Rest::More, Request::Next(_)) => Fit::GoesOn,
        (Rest::More, Request::Stop) => Fit::Stops,
        (Rest::Prompting, Request::Respond(_)) => Fit::GoesOn,
        _ => Fit::Misfit,
    }
}
