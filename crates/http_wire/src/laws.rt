// What the answers of a reader say of the whole stream.
ghost use Rattle.http_wire.specs.Heard.{CallsHearTheStream, StreamsAreHeardOnce};

/// The answers of a reader, up to the first one that is no request, are the requests of the whole stream
/// and the reason of their end, however its bytes were cut.
pub fn calls_hear_the_stream()
    ensures { CallsHearTheStream }
{}

/// A stream has one list of requests.
pub fn streams_are_heard_once()
    ensures { StreamsAreHeardOnce }
{}
