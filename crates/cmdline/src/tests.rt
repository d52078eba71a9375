use crate::{Command, WordFault, doors_wanted, read_words, usage};
use std::alloc::{AllocError, Global};
use term_core::App;

/// A line of words with single spaces between them.
fn words(alloc: Global, line: &str) -> Result<Vec<String>, AllocError> {
    let mut words = Vec::new(alloc);
    if !line.is_empty() {
        for word in line.split(' ') {
            words.push(String::from_str(alloc, word)?)?;
        }
    }
    Ok(words)
}

#[test]
fn commands_are_read(rt: HostRuntime) {
    let alloc = rt.alloc();
    let serve = Command::Serve {
        port: 8080,
        doors: 16,
        workers: 4,
        slots: 256,
        connections: 1_000_000,
        idle: 0,
    };
    let rows = [
        ("session", Command::Session),
        (
            "local --limit=007 -- -1=X",
            Command::Local {
                goal: "-1=X",
                limit: 7,
                app: App::Sandbox,
            },
        ),
        ("serve --port 8080", serve),
        (
            "rpc h 1 p(X) --application school",
            Command::Rpc {
                host: "h",
                port: 1,
                goal: "p(X)",
                chunk: 1,
                limit: 100_000,
                app: App::School,
            },
        ),
    ];
    for (line, command) in rows {
        let given = words(alloc, line).expect(&rt, "memory");
        assert!(rt; read_words(alloc, given.as_slice()) == Ok(command));
    }
    for line in ["", "local", "local - ", "check --help", "demo 10001"] {
        let given = words(alloc, line).expect(&rt, "memory");
        assert!(rt; read_words(alloc, given.as_slice()) == Err(WordFault::Refused));
    }
    let given = words(alloc, "serve --doors 3 --port 80").expect(&rt, "memory");
    assert!(rt; doors_wanted(alloc, given.as_slice()) == Ok(Some((80, 3))));
    assert!(rt; usage().lines().count() == 6);
}
