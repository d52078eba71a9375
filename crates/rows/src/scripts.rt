// Tables of scripts: what a session's events are, line by line.
use crate::calls::{command, turned};
use crate::faults::script_fault;
use crate::loading::{begun, script};
use crate::row::Row;
use crate::stop::Stop;
use crate::terms::of_bytes;
use event_core::{Settings, line};
use lib_text::Library;
use request_text::{Script, Sent};
use session::{Pulled, SendFault, Session};
use std::alloc::Global;
use term_core::App;

/// A session under way, and what was printed; a session that was destroyed is none.
#[derive(Drop)]
struct Run {
    session: Option<Session>,
    printed: String,
}

impl Run {
    fn print(&mut self, text: &str) -> Result<(), Stop> {
        self.printed.push_str(text)?;
        self.printed.push('\n')?;
        Ok(())
    }

    /// Runs the session to its rest, and prints its events.
    fn rest(&mut self, alloc: Global) -> Result<(), Stop> {
        for _ in 0..u64::MAX {
            let Some(session) = &mut self.session else {
                break;
            };
            match session.pull() {
                Pulled::Event(_, event) => {
                    let text = of_bytes(line(alloc, &event)?)?;
                    self.print(&text)?;
                }
                Pulled::Pending | Pulled::Ended => {
                    if turned(session, 1000).is_none() {
                        break;
                    }
                }
            }
        }
        Ok(())
    }

    /// Sends what a line of a script sends.
    fn send(&mut self, alloc: Global, sent: Sent) -> Result<(), Stop> {
        let Some(session) = &mut self.session else {
            return self.print("ended");
        };
        if session.ended() {
            return self.print("ended");
        }
        match sent {
            Sent::Request(request) => session.send(request).map_err(refused)?,
            Sent::Abort => session.abort(),
            Sent::Destroy => return self.destroy(alloc, false),
        }
        self.rest(alloc)
    }

    /// Ends the session, and prints the events that wait, with their numbers or without.
    fn destroy(&mut self, alloc: Global, is_numbered: bool) -> Result<(), Stop> {
        let Some(session) = self.session.take() else {
            return self.print("ended");
        };
        let mut waiting = session.destroy();
        for _ in 0..waiting.len() {
            let Some((number, event)) = waiting.next() else {
                break;
            };
            if is_numbered {
                write!(self.printed, "{number} ")?;
            }
            let text = of_bytes(line(alloc, &event)?)?;
            self.print(&text)?;
        }
        Ok(())
    }

    /// Makes a call of the session, and prints its answer.
    fn call(&mut self, alloc: Global, text: &str) -> Result<(), Stop> {
        if text == "destroy" {
            return self.destroy(alloc, true);
        }
        if text == "rest" {
            return self.rest(alloc);
        }
        let Some(session) = &mut self.session else {
            return Err(Stop::Malformed);
        };
        let answer = command(alloc, session, text)?;
        self.print(&answer)
    }
}

fn refused(fault: SendFault) -> Stop {
    match fault {
        SendFault::Ended | SendFault::MailboxFull => Stop::Malformed,
        SendFault::Memory => Stop::Memory,
    }
}

/// What a script prints whose answers carry names or don't, and then calls of its session, one a line.
pub(crate) fn transcript(
    alloc: Global,
    library: &Library,
    text: &[u8],
    names: bool,
    calls: &str,
) -> Result<String, Stop> {
    let Script { mut spec, lines } = match script(alloc, library, text) {
        Ok(script) => script,
        Err(fault) => return script_fault(alloc, &fault),
    };
    spec.settings.names = names;
    let mut run = Run {
        session: Some(begun(alloc, spec)?),
        printed: String::from_str(alloc, "create\n")?,
    };
    for sent in lines.into_vec() {
        run.send(alloc, sent)?;
    }
    for call in calls.lines() {
        run.call(alloc, call)?;
    }
    Ok(run.printed)
}

/// The settings of a script's pengine and how many lines it sends, or where it is refused.
pub(crate) fn script_of(alloc: Global, library: &Library, text: &str) -> Result<String, Stop> {
    match script(alloc, library, text.as_bytes()) {
        Ok(script) => {
            let Settings {
                chunk,
                limit,
                destroys,
                names: _,
            } = script.spec.settings;
            let lines = script.lines.len();
            Ok(format!(in alloc;
                "chunk {chunk}, limit {limit}, destroy {destroys}, {lines} lines"
            )?)
        }
        Err(fault) => script_fault(alloc, &fault),
    }
}

/// The line of a goal's answers over a source and a library, 50 at a time, by a template.
pub(crate) fn answers_of(
    alloc: Global,
    library: &Library,
    source: &str,
    goal: &str,
    template: &str,
) -> Result<String, Stop> {
    let text = format!(in alloc; "{source}\n---\nask({goal},[template({template}),chunk(50)])")?;
    let lines = transcript(alloc, library, text.as_bytes(), false, "")?;
    let Some(behind) = lines.strip_prefix("create\n") else {
        return Ok(lines);
    };
    let line = behind.strip_suffix("\ndestroy\n").ok_or(Stop::Malformed)?;
    Ok(String::from_str(alloc, line)?)
}

/// The same over the library of an application.
pub(crate) fn application_of(alloc: Global, row: &Row) -> Result<String, Stop> {
    let app = App::named(row.field(0)).ok_or(Stop::Malformed)?;
    let library = Library::read(alloc, app)?;
    answers_of(alloc, &library, row.field(1), row.field(2), row.field(3))
}

/// What a turn of a query does over a source and the library, and the query's events up to its rest.
pub(crate) fn steps_of(alloc: Global, library: &Library, row: &Row) -> Result<String, Stop> {
    let source = row.field(0);
    let goal = row.field(1);
    let text = format!(in alloc; "{source}\n---\ncreate([destroy(false)])\n")?;
    let calls = format!(in alloc; "send ask(({goal}))\nrun 10000\nrest")?;
    let lines = transcript(alloc, library, text.as_bytes(), false, &calls)?;
    match lines.strip_prefix("create\nsent\nquery 1: ") {
        Some(behind) => Ok(String::from_str(alloc, behind.trim_end())?),
        None => Ok(lines),
    }
}
