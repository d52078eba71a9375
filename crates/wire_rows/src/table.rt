// The tables, each a file of its name.
use crate::connections::{asking_of, requests_of, response_of, responses_of};
use crate::routed::routed_of;
use crate::row::Row;
use crate::stop::Stop;
use std::alloc::Global;

/// The names of the tables, and how many fields of a row are given; what follows is to come of them.
pub(crate) const TABLES: [(&str, u32); 5] = [
    ("asking", 3),
    ("requests", 1),
    ("responses", 1),
    ("routes", 3),
    ("written", 4),
];

/// What comes of what a row of a table gives.
fn outcome(alloc: Global, table: &str, row: &Row) -> Result<String, Stop> {
    match table {
        "asking" => asking_of(alloc, row),
        "requests" => requests_of(alloc, row.field(0)),
        "responses" => responses_of(alloc, row.field(0)),
        "routes" => routed_of(alloc, row),
        "written" => response_of(alloc, row),
        _ => Err(Stop::Malformed),
    }
}

/// What comes of a row, where the row says otherwise.
pub(crate) fn differing(alloc: Global, table: &str, row: &Row) -> Result<Option<String>, Stop> {
    let found = outcome(alloc, table, row)?;
    Ok((found.as_str() != row.wanted.as_str()).then_some(found))
}
