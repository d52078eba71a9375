use crate::query::Query;

// Where a pengine stands.
#[derive(Debug, Drop)]
pub(crate) enum State {
    // Outside of a query.
    Idle,
    Running(Query),
    // The query runs, and is with the turn that is out: the turn's room, and how many requests the query has after its ask.
    Out { room: usize, further: usize },
    // The query rests until a `next` or a `stop`.
    More(Query),
    // The query rests until a `respond`.
    Prompting(Query),
    Ended,
}
