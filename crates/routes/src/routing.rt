// What a request asks.
ghost use Rattle.std.specs.Prelude.{◌≡◌, ◌≢◌, IfOk, IfErr, Ok, Err};
ghost use Rattle.routes.specs.Routing.{create_by, asked_at, asked_by};

use crate::asked::{Asked, abort, destroy, pull, send};
use crate::creation::Creation;
use crate::endpoint::Endpoint;
use crate::fault::RouteFault;
use crate::params::cut_target;
use crate::router::Routes;
use http_wire::HttpRequest;
use std::alloc::Global;

/// What a creation with this body asks.
fn create(alloc: Global, body: &[u8]) -> Result<Asked, RouteFault>
    ensures ok { IfOk result (λ a. create_by body.now ≡ Ok a) }
    ensures err { IfErr result (λ e. e ≢ RouteFault.Memory → create_by body.now ≡ Err e) }
{
    let creation = Creation::read(alloc, body)?;
    Ok(Asked::Create(creation))
}

/// What is asked at a path of the server by its one method.
fn asked_at(
    alloc: Global,
    endpoint: Endpoint,
    query: &[u8],
    body: &[u8],
) -> Result<Asked, RouteFault>
    ensures ok { IfOk result (λ a. asked_at endpoint query.now body.now ≡ Ok a) }
    ensures err { IfErr result (λ e. e ≢ RouteFault.Memory → asked_at endpoint query.now body.now ≡ Err e) }
{
    match endpoint {
        Endpoint::Create => create(alloc, body),
        Endpoint::Send => send(alloc, query, body),
        Endpoint::Pull => pull(alloc, query),
        Endpoint::Abort => abort(alloc, query),
        Endpoint::Destroy => destroy(alloc, query),
    }
}

/// What a request asks. `NoPath` where its path is none of the server's, then `BadMethod` where the path
/// is for another method, then `BadParam` of the first missing or wrong parameter by the byte order of
/// their names, then `BadId` where the id is no UUID's text; `Memory` is want of memory.
pub fn route(alloc: Global, routes: &Routes, request: &HttpRequest) -> Result<Asked, RouteFault>
    ensures ok { IfOk result (λ a. asked_by request.now.method request.now.target request.now.body ≡ Ok a) }
    ensures err { IfErr result (λ e. e ≢ RouteFault.Memory
        → asked_by request.now.method request.now.target request.now.body ≡ Err e) }
{
    let (path, query) = cut_target(request.target.as_str());
    let endpoint = routes.endpoint(request.method.as_str(), path)?;
    asked_at(alloc, endpoint, query.as_bytes(), request.body.as_slice())
}
