//! What a request over HTTP asks: its path, parameters and texts, each refusal in order, and what a
//! refusal is answered.
#![tactic(auto)]

mod asked;
mod creation;
mod endpoint;
mod fault;
mod params;
mod refusal;
mod router;
mod routing;

pub use asked::{Asked, Format};
pub use creation::{Creation, Settings};
pub use endpoint::{Allowed, Endpoint};
pub use fault::{Param, RouteFault};
pub use refusal::Refusal;
pub use router::Routes;
pub use routing::route;

#[cfg(test)]
mod tests;
