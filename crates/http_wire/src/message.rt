// What is read from a wire and written to it.
use http::Method;
use term_core::{Bytes, Text};

/// A request.
#[derive(Drop)]
pub struct HttpRequest {
    /// The method, which contracts see as its bytes.
    pub method: Method,
    /// The target as it stands in the head.
    pub target: Text,
    /// Whether the connection is closed after it.
    pub close: bool,
    pub body: Bytes,
}

/// A response.
#[derive(Drop)]
pub struct HttpResponse {
    pub status: u16,
    /// The method that status 405 names.
    pub allow: Option<Method>,
    /// Whether the connection is closed after it.
    pub close: bool,
    pub body: Bytes,
}

/// Why no further request is read.
#[derive(Clone, Copy, Debug, Drop, PartialEq, Eq)]
pub enum Why {
    /// No continuation makes the bytes a head, or its `Content-Length` is no number or stands twice.
    BadHead,
    /// No whole head came in 16,384 bytes, or it has more than 128 fields.
    HeadTooLong,
    /// The head doesn't say in `Content-Length` how long the body is.
    NoLength,
    /// The body is longer than 1,048,576 bytes.
    BodyTooLong,
    /// The stream ended within a request.
    Truncated,
}

/// What the next request is.
#[derive(Drop)]
pub enum Got {
    Request(HttpRequest),
    /// The stream ended behind a request.
    End,
    /// What came isn't a request.
    Refused(Why),
    /// The source failed.
    ReadFault,
    /// Want of memory.
    Memory,
}

/// Why reading stops.
#[derive(Clone, Copy, Debug, Drop, PartialEq, Eq)]
pub enum Stop {
    End,
    Refused(Why),
    ReadFault,
    Memory,
}

impl From<Stop> for Got {
    ghost use Rattle.std.specs.Prelude.{◌≡◌};
    ghost use Rattle.http_wire.specs.Stopping.{got_of};

    ghost from_gives = { λ stop got. got ≡ got_of stop };

    fn from(stop: Stop) -> Got {
        match stop {
            Stop::End => Got::End,
            Stop::Refused(why) => Got::Refused(why),
            Stop::ReadFault => Got::ReadFault,
            Stop::Memory => Got::Memory,
        }
    }
}
