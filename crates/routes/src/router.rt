// The paths of the server, by `matchit`.
ghost use Rattle.std.specs.Prelude.{◌≡◌, IfOk, option_map, List, ℕ};
ghost use Rattle.matchit.specs.Seek.{first};
ghost use Rattle.routes.specs.Paths.{endpoint_of};

use crate::endpoint::Endpoint;
use crate::fault::RouteFault;
use matchit::{InsertError, Router};
use std::alloc::Global;
use term_core::Memory;

/// The paths of the server, made once.
#[derive(Drop)]
pub struct Routes {
    router: Router<Endpoint>,
    ghost exact: { (path : List ℕ) → option_map (λ e. e.value) (first router path) ≡ endpoint_of path },
}

fn router(alloc: Global) -> Result<Router<Endpoint>, InsertError>
    ensures { IfOk result (λ r. (path : List ℕ) → option_map (λ e. e.value) (first r path) ≡ endpoint_of path) }
{
    let mut router = Router::new(alloc);
    router.insert("/pengine/create", Endpoint::Create)?;
    router.insert("/pengine/send", Endpoint::Send)?;
    router.insert("/pengine/pull_response", Endpoint::Pull)?;
    router.insert("/pengine/abort", Endpoint::Abort)?;
    router.insert("/pengine/destroy", Endpoint::Destroy)?;
    Ok(router)
}

impl Routes {
    ghost use Rattle.routes.specs.Asked.{endpoint_by};

    /// The paths. `Err` is want of memory.
    pub fn new(alloc: Global) -> Result<Routes, Memory> {
        match router(alloc) {
            Ok(router) => Ok(Routes { router }),
            Err(_) => Err(Memory),
        }
    }

    /// What a path is for; `None` exactly where it is none of the server's.
    pub fn at(&self, path: &str) -> Option<Endpoint>
        ensures { result ≡ endpoint_of path.now }
    {
        match self.router.at(path) {
            Ok(found) => Some(*found.value),
            Err(_) => None,
        }
    }

    /// What a path is for by this method; `NoPath` where it is none of the server's, else `BadMethod`
    /// where it is for another method.
    pub fn endpoint(&self, method: &str, path: &str) -> Result<Endpoint, RouteFault>
        ensures { result ≡ endpoint_by method.now path.now }
    {
        let Some(endpoint) = self.at(path) else {
            return Err(RouteFault::NoPath);
        };
        let allow = endpoint.allowed();
        if method == allow.name() {
            Ok(endpoint)
        } else {
            Err(RouteFault::BadMethod { allow })
        }
    }
}
