use event_core::{Event, Waiting};

/// Why a request wasn't accepted.
#[derive(Clone, Copy, Debug, Drop, PartialEq, Eq)]
pub enum SendFault {
    /// The pengine has ended.
    Ended,
    /// 64 requests wait.
    MailboxFull,
    /// Want of memory.
    Memory,
}

/// The answer to a pull.
#[derive(Debug, Drop)]
pub enum Pulled {
    /// The next event, with its number: they count from 0 for `create`, which the making of the pengine answers.
    Event(u64, Event),
    /// No event waits.
    Pending,
    /// No event waits, and none will come.
    Ended,
}

/// The answer to a pull of several events.
#[derive(Debug, Drop)]
pub enum PulledMany {
    /// The events that waited, as many as were asked for or all, with the number of the first.
    Events(Waiting),
    /// No event waits.
    Pending,
    /// No event waits, and none will come.
    Ended,
}

/// What became of a turn that was given back.
#[derive(Clone, Copy, Debug, Drop, PartialEq, Eq)]
pub enum Given {
    /// The pengine has its events.
    Kept,
    /// Its query was broken off since it was taken.
    Dropped,
}
