ghost use Rattle.std.specs.Prelude.{IfOk};
ghost use Rattle.program.specs.Source.{AreNumbered};

use crate::{Library, source};
use library_check::keeps_sandbox;
use program::Program;
use prolog_read::read_clauses;
use std::alloc::Global;
use std::test::Fail;
use term_core::{App, Memory, Pi, ReadTerm};

// The library's source text without the lines that begin so, if any, and with these clauses behind it.
fn text(alloc: Global, without: &str, more: &str) -> Result<String, Memory> {
    let mut text = String::new(alloc);
    for line in source().lines() {
        if without.is_empty() || !line.starts_with(without) {
            text.push_str(line)?;
            text.push_str("\n")?;
        }
    }
    text.push_str(more)?;
    Ok(text)
}

fn terms(alloc: Global, text: &str) -> Result<Vec<ReadTerm>, Memory>
    ensures { IfOk result (λ v. AreNumbered v.items) }
{
    match read_clauses(alloc, text) {
        Ok(terms) => Ok(terms),
        Err(_) => Err(Memory),
    }
}

// Whether the program of a client's text over a library keeps to the sandbox; the client may define all but `reserved`.
fn keeps(alloc: Global, library: &str, own: &str, reserved: &[Pi]) -> Result<bool, Memory> {
    let library = terms(alloc, library)?;
    let own = terms(alloc, own)?;
    match Program::from_terms(alloc, own, &library, reserved, App::Sandbox) {
        Ok(program) => keeps_sandbox(alloc, &program),
        Err(_) => Err(Memory),
    }
}

#[test]
fn the_libraries_keep_to_the_sandbox(rt: HostRuntime) -> Result<(), Fail> {
    let alloc = rt.alloc();
    assert_eq!(rt; Library::read(alloc, App::Sandbox)?.terms().len(), 68);
    assert_eq!(rt; Library::read(alloc, App::School)?.terms().len(), 71);
    assert_eq!(rt; Library::read(alloc, App::Numbers)?.terms().len(), 68);
    Ok(())
}

// What is left out of the library, what is added to it, and whether it keeps to the sandbox then.
static LIBRARIES: [(&str, &str, bool); 16] = [
    ("", "", true),
    // other predicates may be added and left out
    ("", "twice(X, [X,X]).", true),
    ("append(", "", true),
    // a predicate that runs goals calls one that isn't known
    ("", "maplist(_, _) :- halt.", false),
    ("", "maplist(G, L) :- member(G, L).", false),
    ("", "'$foldl'(_, _, _, _) :- append(_, _, _).", false),
    // it hands on what it wasn't given as a goal, or with another number of arguments
    ("", "maplist(G, L) :- call(L, G).", false),
    ("", "maplist(G, L) :- call(G, L, L).", false),
    ("", "include(G, L, M) :- '$maplist'(L, M, G).", false),
    ("", "maplist(_, _) :- call(halt, x).", false),
    ("", "maplist(G, L) :- G = L, ( true ; \\+ G ).", false),
    ("", "maplist(G, L) :- G = L, ( true ; call(G, L) ).", true),
    // a predicate that is reserved
    ("", "call(_).", false),
    // a predicate of the table that has no clauses
    ("foldl(", "", false),
    // a helper that is reached by a goal that passes
    ("'$include'([X", "", false),
    ("'$exclude'([X", "", false),
];

#[test]
fn libraries_are_told_apart(rt: HostRuntime) -> Result<(), Fail> {
    let alloc = rt.alloc();
    for (without, more, kept) in &LIBRARIES {
        let library = text(alloc, without, more)?;
        assert_eq!(rt; keeps(alloc, &library, "", &[])?, *kept, "{without} {more}");
    }
    Ok(())
}

// What a client defines over the library where nothing is reserved, and whether the program keeps to the sandbox.
static CLIENTS: [(&str, bool); 4] = [
    ("p :- halt. q(X) :- call(X).", true),
    ("maplist(_, _) :- halt.", true),
    ("call(_).", false),
    ("halt.", false),
];

#[test]
fn clients_are_told_apart(rt: HostRuntime) -> Result<(), Fail> {
    let alloc = rt.alloc();
    for (own, kept) in &CLIENTS {
        assert_eq!(rt; keeps(alloc, source(), own, &[])?, *kept, "{own}");
    }
    Ok(())
}
