//! Reading terms: the grammar of Prolog by operator priorities.
#![tactic(auto)]

pub mod grammar;

pub use grammar::{
    Fault, Lexeme, MAX_ARGUMENTS, MAX_DEPTH, MAX_OPEN, Placed, Word, check, every_reading_is_found,
    faults_are_least, read, what_is_found_is_a_reading,
};
