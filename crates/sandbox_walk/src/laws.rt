// Laws that hold of every program and goal.
ghost use Rattle.sandbox_walk.specs.Computed.{TheVerdictIsOne};
ghost use Rattle.sandbox_walk.specs.Sound.{PassedGoalsStayInside, SafeGoalsStayInside, LoadedProgramsKeepTheSandbox};

/// A goal that passes doesn't end outside, and takes no primitive but of the classes Control, Safe and Meta, by the table of the
/// program's application: it runs the same whatever the others would do. This holds for every limit of steps and for all
/// replies, over each program that keeps to the sandbox.
pub fn passed_goals_stay_inside()
    ensures { PassedGoalsStayInside }
{}

/// The same of a goal on which the verdict is that it may be asked.
pub fn safe_goals_stay_inside()
    ensures { SafeGoalsStayInside }
{}

/// The clauses of a program keep to the sandbox where those of the library over which it is loaded do, and no clause of the
/// client is of a reserved predicate or of one whose name begins with `$`.
pub fn loaded_programs_keep_the_sandbox()
    ensures { LoadedProgramsKeepTheSandbox }
{}

/// Each goal over each program has one verdict, that of the rounds: after as many of them as there are clauses nothing more is reached.
pub fn the_verdict_is_one()
    ensures { TheVerdictIsOne }
{}
