//! Programs: the clauses of a source text and of a library, found by their predicates.
#![tactic(auto)]

mod bodies;
mod clause;
mod clause_map;
mod directive;
mod entry;
mod fault;
mod laws;
mod program;
mod source;
mod texts;

pub use bodies::{is_body, is_connective};
pub use clause::Clause;
pub use fault::ProgFault;
pub use laws::client_replaces_library;
pub use program::Program;
