use event_core::Request;

/// What a client may send to a pengine (Lager and Wielemaker, TPLP 2014).
#[derive(Debug, Drop)]
pub enum Sent {
    /// A request, which waits for those before it.
    Request(Request),
    /// Breaks off the query.
    Abort,
    /// Ends the pengine.
    Destroy,
}
