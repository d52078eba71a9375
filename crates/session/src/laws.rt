// Laws that hold of every pengine over resolution.
ghost use Rattle.session.specs.Laws.{KeptProgramsResolve, TurnsStartWell, ScheduleDoesntMatter, NoMoreWait, LostTurnsAreOlder};
ghost use Rattle.session.specs.Shows.{AnswersAreThePengines};

/// The schedule doesn't matter: for every list of entries that a pengine can have, its events begin the list that resolution defines for its requests, with each abort, destroy and want of memory striking at one step. It holds where the events of each query are those of resolution, as they are over a program that keeps to the sandbox ([`kept_programs_resolve`]). Where nothing runs and no request waits they are all of that list.
pub fn schedule_doesnt_matter()
    ensures { ScheduleDoesntMatter }
{}

/// At most 64 requests and 66 events wait.
pub fn no_more_wait()
    ensures { NoMoreWait }
{}

/// A turn that is out and will be dropped is of an earlier query than the one that runs.
pub fn lost_turns_are_older()
    ensures { LostTurnsAreOlder }
{}

/// Over a program that keeps to the sandbox the events of a query are those that resolution gives, and no call of a goal that may be asked reaches outside. So the schedule doesn't matter for its pengines.
pub fn kept_programs_resolve()
    ensures { KeptProgramsResolve }
{}

/// Over a program that keeps to the sandbox a turn starts as it is to be: the query that runs has an event to come, those before came within its steps, and it reaches nothing outside.
pub fn turns_start_well()
    ensures { TurnsStartWell }
{}

/// What a session answers is by the pengine that it looks as: whether it has ended or is gone, which events wait and how many, the
/// requests that wait, and the answer to a take.
pub fn answers_are_the_pengines()
    ensures { AnswersAreThePengines }
{}
