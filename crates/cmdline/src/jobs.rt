// What each command makes of what is given under its names.
ghost use Rattle.std.specs.Prelude.{◌≡◌, option_map};
ghost use Rattle.clap.specs.Words.{first_value, found_of};
ghost use Rattle.cmdline.specs.Jobs.{job_of, job_by, local_by, check_by, demo_by, serve_by, rpc_by};

use crate::command::Command;
use crate::numbers::{application, number, number_or, port, some_text, step_limit};
use crate::verb::Verb;
use clap::ArgMatches;

fn local<'w>(given: &ArgMatches<'w>) -> Option<Command<'w>>
    ensures { option_map job_of result ≡ local_by (first_value (found_of given.now)) }
{
    let goal = some_text(given.get_str("goal"))?;
    let app = application(given.get_str("application"))?;
    let limit = step_limit(given.get_str("limit"), app)?;
    Some(Command::Local { goal, limit, app })
}

fn check<'w>(given: &ArgMatches<'w>) -> Option<Command<'w>>
    ensures { option_map job_of result ≡ check_by (first_value (found_of given.now)) }
{
    let goal = some_text(given.get_str("goal"))?;
    let app = application(given.get_str("application"))?;
    Some(Command::Check { goal, app })
}

fn demo<'w>(given: &ArgMatches<'w>) -> Option<Command<'w>>
    ensures { option_map job_of result ≡ demo_by (first_value (found_of given.now)) }
{
    let people = number(given.get_str("people"), 1, 10_000)?;
    let chunk = number_or(given.get_str("chunk"), 100, 1, 1_000)?;
    Some(Command::Demo { people, chunk })
}

fn serve<'w>(given: &ArgMatches<'w>) -> Option<Command<'w>>
    ensures { option_map job_of result ≡ serve_by (first_value (found_of given.now)) }
{
    let port = port(given.get_str("port"))?;
    let doors = number_or(given.get_str("doors"), 16, 1, 64)?;
    let workers = number_or(given.get_str("workers"), 4, 0, 64)?;
    let slots = number_or(given.get_str("slots"), 256, 1, 256)?;
    let connections = number_or(given.get_str("connections"), 1_000_000, 1, 1_000_000)?;
    let idle = number_or(given.get_str("idle"), 0, 0, 999_999_999)?;
    Some(Command::Serve {
        port,
        doors,
        workers,
        slots,
        connections,
        idle: u64::from(idle),
    })
}

fn rpc<'w>(given: &ArgMatches<'w>) -> Option<Command<'w>>
    ensures { option_map job_of result ≡ rpc_by (first_value (found_of given.now)) }
{
    let host = some_text(given.get_str("host"))?;
    let port = port(given.get_str("port"))?;
    let goal = some_text(given.get_str("goal"))?;
    let app = application(given.get_str("application"))?;
    let chunk = number_or(given.get_str("chunk"), 1, 1, 1_000)?;
    let limit = step_limit(given.get_str("limit"), app)?;
    Some(Command::Rpc {
        host,
        port,
        goal,
        chunk,
        limit,
        app,
    })
}

/// The command, with what is given under its names; `None` exactly where that isn't what it takes.
pub fn command_of<'w>(verb: Verb, given: &ArgMatches<'w>) -> Option<Command<'w>>
    ensures { option_map job_of result ≡ job_by verb (first_value (found_of given.now)) }
{
    match verb {
        Verb::Session => Some(Command::Session),
        Verb::Local => local(given),
        Verb::Check => check(given),
        Verb::Demo => demo(given),
        Verb::Serve => serve(given),
        Verb::Rpc => rpc(given),
    }
}
