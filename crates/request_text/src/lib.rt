//! What clients write: the texts of which a pengine is made, the text of a request, and scripts of a source text and request lines.
#![tactic(auto)]

mod fault;
mod laws;
mod limits;
mod options;
mod parts;
mod requests;
mod script;
mod sent;
mod shapes;
mod spec;
mod template;
mod written;

pub use fault::{RequestFault, ScriptFault, SpecFault, place_of};
pub use laws::{lines_keep_their_places, requests_are_read_again, scripts_are_parted};
pub use limits::{default_settings, greatest_limit};
pub use requests::read_request;
pub use script::{Script, read_script};
pub use sent::Sent;
pub use spec::{Options, program_in, read_spec};
pub use written::request_bytes;
