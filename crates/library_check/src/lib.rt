//! Whether a program keeps to what the sandbox asks of it, computed over its clauses, and what follows for programs that are
//! loaded over a library that does.
#![tactic(auto)]

mod clauses;
mod handing;
mod indicators;
mod keeping;
mod laws;
mod metas;
mod predicates;
mod tables;

pub use keeping::keeps_sandbox;
pub use laws::{accepted_texts_keep_the_sandbox, loaded_texts_keep_the_sandbox};

#[cfg(test)]
mod tests;
