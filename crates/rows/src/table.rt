// The tables, each a file of its name.
use crate::cells::{bag_of, measures_of, primitive_of, stored_of, unified_of, value_of};
use crate::programs::{builtin_of, library_of, predicate_of, program_of, verdict_of};
use crate::requests::{request_of, spec_of};
use crate::row::Row;
use crate::scripts::{answers_of, application_of, script_of, steps_of};
use crate::stop::Stop;
use crate::texts::{atom_of, clauses_of, operators_of, term_of, tokens_of, written_of};
use lib_text::Library;
use std::alloc::Global;

/// The names of the tables, and how many fields of a row are given; what follows is to come of them.
pub(crate) const TABLES: [(&str, u32); 23] = [
    ("answers", 2),
    ("applications", 4),
    ("atoms", 1),
    ("bags", 2),
    ("builtins", 2),
    ("clauses", 1),
    ("libraries", 3),
    ("measures", 1),
    ("operators", 2),
    ("predicates", 3),
    ("primitives", 1),
    ("programs", 3),
    ("requests", 1),
    ("scripts", 1),
    ("specs", 3),
    ("steps", 2),
    ("stored", 3),
    ("terms", 1),
    ("tokens", 1),
    ("unified", 2),
    ("values", 1),
    ("verdicts", 3),
    ("written", 1),
];

/// What comes of what a row of a table gives.
fn outcome(alloc: Global, library: &Library, table: &str, row: &Row) -> Result<String, Stop> {
    let first = row.field(0);
    match table {
        "answers" => answers_of(alloc, library, "", first, row.field(1)),
        "applications" => application_of(alloc, row),
        "atoms" => atom_of(alloc, first),
        "bags" => bag_of(alloc, row),
        "builtins" => builtin_of(alloc, row),
        "clauses" => clauses_of(alloc, first),
        "libraries" => library_of(alloc, row),
        "measures" => measures_of(alloc, first),
        "operators" => operators_of(alloc, row),
        "predicates" => predicate_of(alloc, row),
        "primitives" => primitive_of(alloc, first),
        "programs" => program_of(alloc, row),
        "requests" => request_of(alloc, first),
        "scripts" => script_of(alloc, library, first),
        "specs" => spec_of(alloc, library, row),
        "steps" => steps_of(alloc, library, row),
        "stored" => stored_of(alloc, row),
        "terms" => term_of(alloc, first),
        "tokens" => tokens_of(alloc, first),
        "unified" => unified_of(alloc, row),
        "values" => value_of(alloc, first),
        "verdicts" => verdict_of(alloc, row),
        "written" => written_of(alloc, first),
        _ => Err(Stop::Malformed),
    }
}

/// What comes of a row, where the row says otherwise.
pub(crate) fn differing(
    alloc: Global,
    library: &Library,
    table: &str,
    row: &Row,
) -> Result<Option<String>, Stop> {
    let found = outcome(alloc, library, table, row)?;
    Ok((found.as_str() != row.wanted.as_str()).then_some(found))
}
