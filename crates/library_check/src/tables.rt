// The predicates that run goals, and those that their clauses may call.
ghost use Rattle.std.specs.Prelude.{◌≡◌};
ghost use Rattle.std.specs.List.{list_any};
ghost use Rattle.std.specs.Option.{option_map};
ghost use Rattle.builtin_table.specs.Table.{row_of};
ghost use Rattle.program.specs.Clauses.{same_indicator};
ghost use Rattle.sandbox_walk.specs.Keeping.{helpers, is_known as is_known_predicate, is_library_row, is_reserved as is_reserved_predicate, runs_goals as runs_goals_of};
ghost use Rattle.library_check.specs.Tables.{indicators_in, rows_in};

use builtin_table::{Class, Table};
use term_core::Pi;

// The helpers of the library that run goals: name, arity and goal positions, as rows of the table of built-in predicates have
// them.
pub(crate) static HELPERS: [(&str, u32, [i8; 8]); 7] = [
    ("$maplist", 2, [-1, 1, -1, -1, -1, -1, -1, -1]),
    ("$maplist", 3, [-1, -1, 2, -1, -1, -1, -1, -1]),
    ("$maplist", 4, [-1, -1, -1, 3, -1, -1, -1, -1]),
    ("$maplist", 5, [-1, -1, -1, -1, 4, -1, -1, -1]),
    ("$foldl", 4, [-1, 3, -1, -1, -1, -1, -1, -1]),
    ("$include", 3, [-1, 1, -1, -1, -1, -1, -1, -1]),
    ("$exclude", 3, [-1, 1, -1, -1, -1, -1, -1, -1]),
];

// What clauses that run goals may call beside the helpers.
static CALLED: [(&str, u32); 11] = [
    ("true", 0),
    ("fail", 0),
    (",", 2),
    (";", 2),
    ("->", 2),
    ("\\+", 1),
    ("=", 2),
    ("call", 2),
    ("call", 3),
    ("call", 4),
    ("call", 5),
];

// The library's rows of the table of built-in predicates.
pub(crate) static LIBRARY: [(&str, u32); 7] = [
    ("maplist", 2),
    ("maplist", 3),
    ("maplist", 4),
    ("maplist", 5),
    ("foldl", 4),
    ("include", 3),
    ("exclude", 3),
];

// The goal positions of a helper.
pub(crate) fn helper(pi: &Pi) -> Option<[i8; 8]>
    ensures { result ≡ option_map (λ r. r.metas) (row_of pi.now helpers) }
{
    find(&HELPERS, pi)
}

fn find(rows: &[(&str, u32, [i8; 8])], pi: &Pi) -> Option<[i8; 8]>
    ensures { result ≡ option_map (λ r. r.metas) (row_of pi.now (rows_in rows.now)) }
{
    for (name, arity, metas) in rows {
        if *name == pi.name.as_str() && *arity == pi.arity {
            return Some(*metas);
        }
    }
    None
}

fn is_among(names: &[(&str, u32)], pi: &Pi) -> bool
    ensures { result ≡ list_any (same_indicator pi.now) (indicators_in names.now) }
{
    for (name, arity) in names {
        if pi.name.as_str() == *name && pi.arity == *arity {
            return true;
        }
    }
    false
}

// Whether a clause that runs goals may call the predicate.
pub(crate) fn is_known(pi: &Pi) -> bool
    ensures { result ≡ is_known_predicate pi.now }
{
    helper(pi).is_some() || is_among(&CALLED, pi)
}

// Whether the predicate is one of the library that runs goals.
pub(crate) fn runs_goals(table: &Table, pi: &Pi) -> bool
    ensures { result ≡ runs_goals_of table.now pi.now }
{
    is_of_library(table, pi) || helper(pi).is_some()
}

fn is_of_library(table: &Table, pi: &Pi) -> bool
    ensures { result ≡ is_library_row (row_of pi.now table.now) }
{
    match table.row(pi) {
        None => false,
        Some(row) => row.class == Class::Library,
    }
}

// Whether no source text may define the predicate.
pub(crate) fn is_reserved(table: &Table, pi: &Pi) -> bool
    ensures { result ≡ is_reserved_predicate table.now pi.now }
{
    table.reserved().contains(pi)
}
