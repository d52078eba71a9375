// Tables of programs: which sources are accepted, which goals may be asked of them.
use crate::faults::clause_fault;
use crate::loading::{load, load_over};
use crate::row::Row;
use crate::stop::Stop;
use crate::terms::{indicator, shown, term};
use builtin_table::{Row as Builtin, Table};
use lib_text::source;
use library_check::keeps_sandbox;
use prolog_write::Mode;
use sandbox_walk::check;
use std::alloc::Global;
use term_core::{App, Pi};

/// A row of the table: its class and its goal positions, each with how many arguments are added.
fn builtin_text(alloc: Global, row: Builtin) -> Result<String, Stop> {
    let mut text = format!(in alloc; "{:?}", row.class)?;
    for (place, added) in (1..9).zip(row.metas) {
        if added >= 0 {
            write!(text, " {place}:{added}")?;
        }
    }
    Ok(text)
}

/// A predicate's row in an application's table of built-in predicates, and whether a program may define it.
pub(crate) fn builtin_of(alloc: Global, row: &Row) -> Result<String, Stop> {
    let app = App::named(row.field(0)).ok_or(Stop::Malformed)?;
    let table = Table::of(alloc, app)?;
    let pi = indicator(alloc, row.field(1))?;
    let row = match table.row(&pi) {
        Some(row) => builtin_text(alloc, row)?,
        None => String::from_str(alloc, "none")?,
    };
    let may = if table.reserved().contains(&pi) {
        "reserved"
    } else {
        "free"
    };
    Ok(format!(in alloc; "{row}\t{may}")?)
}

fn indicators(alloc: Global, field: &str) -> Result<Vec<Pi>, Stop> {
    let mut found = Vec::new(alloc);
    for word in field.split_whitespace() {
        found.push(indicator(alloc, word)?)?;
    }
    Ok(found)
}

/// Whether a source is a program over a library, or which of its clauses is refused.
pub(crate) fn program_of(alloc: Global, row: &Row) -> Result<String, Stop> {
    let reserved = indicators(alloc, row.field(0))?;
    match load(alloc, &reserved, row.field(1), row.field(2)) {
        Ok(_) => Ok(String::from_str(alloc, "program")?),
        Err(Stop::Refused(fault)) => clause_fault(alloc, &fault),
        Err(stop) => Err(stop),
    }
}

/// How many variables each clause of a predicate has.
pub(crate) fn predicate_of(alloc: Global, row: &Row) -> Result<String, Stop> {
    let program = load_over(alloc, row.field(0), row.field(1))?;
    let mut text = String::new(alloc);
    for clause in program.clauses(&indicator(alloc, row.field(2))?) {
        let space = if text.is_empty() { "" } else { " " };
        write!(text, "{space}{}", clause.vars)?;
    }
    Ok(text)
}

/// Whether a goal may be asked of a program.
pub(crate) fn verdict_of(alloc: Global, row: &Row) -> Result<String, Stop> {
    let program = load_over(alloc, row.field(0), row.field(1))?;
    match check(alloc, &program, &term(alloc, row.field(2))?) {
        Ok(_) => Ok(String::from_str(alloc, "safe")?),
        Err(refused) => shown(alloc, &refused.formal(alloc)?, Mode::Quoted),
    }
}

/// The library's text without the lines that begin so, if any, and with more text behind it.
fn changed(alloc: Global, without: &str, more: &str) -> Result<String, Stop> {
    let mut text = String::new(alloc);
    for line in source().lines() {
        if without.is_empty() || !line.starts_with(without) {
            writeln!(text, "{line}")?;
        }
    }
    text.push_str(more)?;
    Ok(text)
}

/// Whether a program keeps to the sandbox over a library that was changed, where nothing is reserved.
pub(crate) fn library_of(alloc: Global, row: &Row) -> Result<String, Stop> {
    let library = changed(alloc, row.field(0), row.field(1))?;
    let program = load(alloc, &[], &library, row.field(2))?;
    let kept = if keeps_sandbox(alloc, &program)? {
        "keeps"
    } else {
        "leaves"
    };
    Ok(String::from_str(alloc, kept)?)
}
