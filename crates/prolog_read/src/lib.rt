//! Reads the terms and the clauses of a Prolog text (ISO/IEC 13211-1, 6.2 and 6.3).
#![tactic(auto)]

mod before;
mod fault;
mod lexemes;
mod read;
mod variables;

pub use fault::ReadFault;
pub use read::{read_clauses, read_term};
