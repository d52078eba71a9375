//! Compares what is read from a wire, what it asks, and what is written to a wire with tables of rows: what is given, and what is to
//! come of it.
//!
//! Each table is a file of `data/` (docs/FORMATS.md). A line is printed for each row that differs, and the
//! count of rows at the end.
#![tactic(auto)]

mod connections;
mod routed;
mod row;
mod stop;
mod table;

use row::Row;
use std::alloc::Global;
use std::fs;
use std::rt::Files;
use stop::Stop;
use table::{TABLES, differing};

/// How many rows there were, and how many of them differed.
#[derive(Clone, Copy, Drop)]
struct Count {
    rows: u64,
    differ: u64,
}

impl Count {
    /// Counts a row, and prints a line if it differs; one that can't be read differs.
    fn add(
        &mut self,
        rt: &impl Print,
        name: &str,
        row: &str,
        found: Result<Option<String>, Stop>,
    ) -> Result<(), Stop> {
        self.rows = self.rows.saturating_add(1);
        match found {
            Ok(None) => return Ok(()),
            Ok(Some(found)) => println!(rt; "{name}: {row} IS {found:?}")?,
            Err(stop) => println!(rt; "{name}: {row} IS {stop:?}")?,
        }
        self.differ = self.differ.saturating_add(1);
        Ok(())
    }
}

/// What comes of a row where the row says otherwise.
fn found(alloc: Global, table: &str, inputs: u32, line: &str) -> Result<Option<String>, Stop> {
    let row = Row::read(alloc, line, inputs)?;
    differing(alloc, table, &row)
}

/// Runs all tables, each a file.
fn run_tables<R: Files + Print + AllocGlobal>(rt: &R, count: &mut Count) -> Result<(), Stop> {
    for (name, inputs) in TABLES {
        let text = fs::read_to_string(rt, name)?;
        for line in text.lines() {
            if !line.is_empty() && !line.starts_with("-- ") {
                let found = found(rt.alloc(), name, inputs, line);
                count.add(rt, name, line, found)?;
            }
        }
    }
    Ok(())
}

fn main(rt: HostRuntime) -> Result<(), Stop> {
    let mut count = Count { rows: 0, differ: 0 };
    run_tables(&rt, &mut count)?;
    println!(rt; "{} rows, {} differ", count.rows, count.differ)?;
    Ok(())
}
