// Faults in words: what is wrong, and its place.
use crate::stop::Stop;
use program::ProgFault;
use prolog_lex::LexFault;
use prolog_read::ReadFault;
use request_text::{ScriptFault, SpecFault, place_of};
use std::alloc::Global;

fn at(alloc: Global, what: &str, place: u64) -> Result<String, Stop> {
    Ok(format!(in alloc; "{what} {place}")?)
}

/// A text that can't be read, and the byte.
pub(crate) fn read_fault(alloc: Global, fault: ReadFault) -> Result<String, Stop> {
    let what = match fault {
        ReadFault::Lex(LexFault::BadChar { .. }) => "BadChar",
        ReadFault::Lex(LexFault::Unclosed { .. }) => "Unclosed",
        ReadFault::Lex(LexFault::FloatToken { .. }) => "FloatToken",
        ReadFault::Lex(LexFault::IntRange { .. }) => "IntRange",
        ReadFault::Syntax { .. } => "Syntax",
        ReadFault::Nesting { .. } => "Nesting",
        ReadFault::Lex(LexFault::Memory) | ReadFault::Memory => return Err(Stop::Memory),
    };
    at(alloc, what, place_of(fault))
}

/// The clause that is refused.
pub(crate) fn clause_fault(alloc: Global, fault: &ProgFault) -> Result<String, Stop> {
    match fault {
        ProgFault::BadDirective { clause } => at(alloc, "directive", *clause),
        ProgFault::NotCallable { clause } => at(alloc, "not callable", *clause),
        ProgFault::Redefines { clause, .. } => at(alloc, "redefines", *clause),
        ProgFault::Memory => Err(Stop::Memory),
    }
}

/// What is refused of the options of a new pengine.
pub(crate) fn spec_fault(alloc: Global, fault: &SpecFault) -> Result<String, Stop> {
    match fault {
        SpecFault::Source(fault) => at(alloc, "source", place_of(*fault)),
        SpecFault::Ask(fault) => at(alloc, "query", place_of(*fault)),
        SpecFault::Template(fault) => at(alloc, "template", place_of(*fault)),
        SpecFault::Clause(fault) => clause_fault(alloc, fault),
        SpecFault::Memory => Err(Stop::Memory),
    }
}

/// What is refused of a script.
pub(crate) fn script_fault(alloc: Global, fault: &ScriptFault) -> Result<String, Stop> {
    match fault {
        ScriptFault::Utf8 { at: place } => at(alloc, "not UTF-8", *place),
        ScriptFault::Spec(fault) => spec_fault(alloc, fault),
        ScriptFault::Line { line, at } => Ok(format!(in alloc; "line {line} byte {at}")?),
        ScriptFault::Memory => Err(Stop::Memory),
    }
}
