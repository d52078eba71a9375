//! HTTP/1.1 on a wire (RFC 9112): the requests of a stream and the bytes of their responses, and for a
//! client the bytes of its requests and the responses of a stream.
//!
//! Heads are read by `httparse`. What a reader answers is a fact of the stream, however its bytes are
//! cut into pieces.
#![tactic(auto)]

mod buffer;
mod ending;
mod framing;
mod head;
mod laws;
mod message;
mod parts;
mod requests;
mod responses;
mod text;

pub use laws::{calls_hear_the_stream, streams_are_heard_once};
pub use message::{Got, HttpRequest, HttpResponse, Why};
pub use requests::Requests;
pub use responses::{GotResponse, Responses};
pub use text::{get_bytes, post_bytes, response_bytes};
