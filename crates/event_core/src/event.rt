use term_core::{List, Name, Term};

/// Which kind of request didn't fit.
#[derive(Clone, Copy, Debug, Drop, PartialEq, Eq)]
pub enum Kind {
    Ask,
    Next,
    Stop,
    Respond,
}

/// One event of a pengine (Lager and Wielemaker, TPLP 2014). In each term the variables are numbered from 0.
#[derive(Debug, Drop)]
pub enum Event {
    /// The pengine was made.
    Create,
    /// A chunk of answers.
    Success {
        /// Instances of the query's template; of a pengine with names each is `'$answer'(T,[V1,..,Vk])`, T being the instance and
        /// V1 to Vk what the query's variables stand for that have names. A chunk and each of its terms number their variables
        /// by themselves.
        answers: List<Term>,
        /// The names of V1 to Vk; `None` for a pengine that was made without names.
        names: Option<List<Name>>,
        /// Whether an alternative is left.
        more: bool,
    },
    /// The query has no answer, or no further one.
    Failure,
    /// A ball that nothing caught, or the refusal of a goal.
    Error(Term),
    /// A request that didn't fit the state of the pengine, which it left as it was.
    Protocol(Kind),
    /// What the query puts out on its way.
    Output(Term),
    /// The query waits for a `respond`.
    Prompt(Term),
    /// The query was ended by `stop`.
    Stop,
    /// The query was broken off.
    Abort,
    /// The pengine is gone, and no event follows.
    Destroy,
    /// The query has made its limit of steps, and a further one is to be made.
    Limit,
    /// The query ended by want of memory.
    Memory,
}

/// What an event is called. A protocol error is told as an error.
#[derive(Clone, Copy, Debug, Drop, PartialEq, Eq)]
pub enum EventName {
    Create,
    Success,
    Failure,
    Error,
    Output,
    Prompt,
    Stop,
    Abort,
    Destroy,
    Limit,
    Memory,
}

impl Event {
    ghost use Rattle.std.specs.Prelude.{◌≡◌};
    ghost use Rattle.event_core.specs.Local.{name_of};

    /// What it is called.
    pub fn name(&self) -> EventName
        ensures { result ≡ name_of self.now }
    {
        match self {
            Event::Create => EventName::Create,
            Event::Success { .. } => EventName::Success,
            Event::Failure => EventName::Failure,
            Event::Error(_) | Event::Protocol(_) => EventName::Error,
            Event::Output(_) => EventName::Output,
            Event::Prompt(_) => EventName::Prompt,
            Event::Stop => EventName::Stop,
            Event::Abort => EventName::Abort,
            Event::Destroy => EventName::Destroy,
            Event::Limit => EventName::Limit,
            Event::Memory => EventName::Memory,
        }
    }
}
