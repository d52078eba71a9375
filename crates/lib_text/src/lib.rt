//! The library of each application: a source text of predicates on lists and integers that every program has, and what an
//! application has behind it.
#![tactic(auto)]

mod library;
mod text;

pub use library::Library;
pub use text::{source, source_of};

#[cfg(test)]
mod tests;
