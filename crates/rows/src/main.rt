//! Compares the crates of this repository with tables of rows: what is given, and what is to come of it.
//!
//! Each table is a file of `data/` (docs/FORMATS.md). A line is printed for each row that differs, and the
//! count of rows at the end.
#![tactic(auto)]

mod block;
mod calls;
mod cells;
mod faults;
mod loading;
mod programs;
mod requests;
mod row;
mod scripts;
mod stop;
mod table;
mod terms;
mod texts;

use block::Block;
use lib_text::Library;
use row::Row;
use std::alloc::Global;
use std::fs;
use std::rt::Files;
use stop::Stop;
use table::{TABLES, differing};
use term_core::App;

/// How many rows there were, and how many of them differed.
#[derive(Clone, Copy, Drop)]
struct Count {
    rows: u64,
    differ: u64,
}

impl Count {
    /// Counts a row, and prints a line if it differs; one that can't be read differs.
    fn add(
        &mut self,
        rt: &impl Print,
        name: &str,
        row: &str,
        found: Result<Option<String>, Stop>,
    ) -> Result<(), Stop> {
        self.rows = self.rows.saturating_add(1);
        match found {
            Ok(None) => return Ok(()),
            Ok(Some(found)) => println!(rt; "{name}: {row} IS {found:?}")?,
            Err(stop) => println!(rt; "{name}: {row} IS {stop:?}")?,
        }
        self.differ = self.differ.saturating_add(1);
        Ok(())
    }
}

/// What comes of a row where the row says otherwise.
fn found(
    alloc: Global,
    library: &Library,
    table: &str,
    inputs: u32,
    line: &str,
) -> Result<Option<String>, Stop> {
    let row = Row::read(alloc, line, inputs)?;
    differing(alloc, library, table, &row)
}

/// Runs the sessions of a text, each a block of lines.
fn run_blocks(
    rt: &(impl Print + AllocGlobal),
    library: &Library,
    text: &str,
    count: &mut Count,
) -> Result<(), Stop> {
    for lines in text.split("\n\n") {
        let found = match Block::read(rt.alloc(), lines) {
            Ok(block) => block.differing(rt.alloc(), library),
            Err(stop) => Err(stop),
        };
        count.add(rt, "sessions", lines.lines().next().unwrap_or(""), found)?;
    }
    Ok(())
}

/// Runs all tables, each a file.
fn run_tables<R: Files + Print + AllocGlobal>(
    rt: &R,
    library: &Library,
    count: &mut Count,
) -> Result<(), Stop> {
    for (name, inputs) in TABLES {
        let text = fs::read_to_string(rt, name)?;
        for line in text.lines() {
            if !line.is_empty() && !line.starts_with("-- ") {
                let found = found(rt.alloc(), library, name, inputs, line);
                count.add(rt, name, line, found)?;
            }
        }
    }
    Ok(())
}

fn main(rt: HostRuntime) -> Result<(), Stop> {
    let library = Library::read(rt.alloc(), App::Sandbox)?;
    let mut count = Count { rows: 0, differ: 0 };
    run_tables(&rt, &library, &mut count)?;
    let sessions = fs::read_to_string(&rt, "sessions")?;
    run_blocks(&rt, &library, sessions.as_str(), &mut count)?;
    println!(rt; "{} rows, {} differ", count.rows, count.differ)?;
    Ok(())
}
