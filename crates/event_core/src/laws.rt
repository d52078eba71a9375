// Laws that hold of the events of every query.
ghost use Rattle.event_core.specs.Laws.{FurtherOnlyAdds, RequestsOnlyAdd, StepsOnlyAdd, ChunksDontMatter, EnoughCanBeAsked, StepsNeverFall, AskedGoalsStayInside, EventsOnlyGrow};
ghost use Rattle.event_core.specs.Local.{ReadsAreLocal, AskedReadsAreLocal};
ghost use Rattle.event_core.specs.Readers.{RestsAsThePart};
ghost use Rattle.event_core.specs.Terms.{TermsAreNumbered};

/// Further requests and further stops only add: the events that were given stay.
pub fn further_only_adds()
    ensures { FurtherOnlyAdds }
{}

/// Further requests, and the replies that they bring, only add to the events of a query.
pub fn requests_only_add()
    ensures { RequestsOnlyAdd }
{}

/// With more steps and more replies a query has the same stops, but for the limit itself, and then further ones.
pub fn steps_only_add()
    ensures { StepsOnlyAdd }
{}

/// The size of the chunks doesn't matter: where enough was asked, with the same replies, a query gives the same answers joined, the same outputs and the same prompts, and it ends with the same error, at the limit or with no further answer, or rests at the same prompt.
pub fn chunks_dont_matter()
    ensures { ChunksDontMatter }
{}

/// For each size of the chunks and all replies there are requests that ask enough: the query comes to its end, or to a prompt for which no reply is left.
pub fn enough_can_be_asked()
    ensures { EnoughCanBeAsked }
{}

/// The steps of a query's events never fall from the first to the last.
pub fn steps_never_fall()
    ensures { StepsNeverFall }
{}

/// Over a program that keeps to the sandbox no goal that may be asked reaches outside, for each limit of steps and whatever is replied.
pub fn asked_goals_stay_inside()
    ensures { AskedGoalsStayInside }
{}

/// Where the stops read are all of a query, the reader has given all its events for the requests read, and rests where the query rests.
pub fn readers_rest_as_parts_do()
    ensures { RestsAsThePart }
{}

/// What a client makes of all events of a query that was asked enough is what the local run comes to, whatever the size of the chunks: the same answers and the same end.
pub fn reads_are_local()
    ensures { ReadsAreLocal }
{}

/// The same of a query that may be asked over a program that keeps to the sandbox, for a pengine's settings: what a client makes of all its events is what the query comes to by itself.
pub fn asked_reads_are_local()
    ensures { AskedReadsAreLocal }
{}

/// Whatever is sent to a pengine and strikes it later, the events that it has emitted stay.
pub fn events_only_grow()
    ensures { EventsOnlyGrow }
{}

/// The variables of each term of all events of a pengine are numbered from 0 by first occurrence, whatever is sent and strikes.
pub fn terms_are_numbered()
    ensures { TermsAreNumbered }
{}
