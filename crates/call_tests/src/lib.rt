//! Tests of calls that no row of `rows` makes: reads and writes that fail, want of memory, small types.
#![tactic(auto)]

#[cfg(test)]
mod cells;
#[cfg(test)]
mod streams;
#[cfg(test)]
mod terms;
#[cfg(test)]
mod texts;
