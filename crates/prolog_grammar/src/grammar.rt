//! The grammar of terms, the machine that reads it a token at a time, and the laws that tie them.

mod fault;
mod frame;
mod laws;
mod lexeme;
mod machine;
mod reader;
mod turn;

pub use fault::Fault;
pub use laws::{every_reading_is_found, faults_are_least, what_is_found_is_a_reading};
pub use lexeme::{Lexeme, Placed, Word};
pub use reader::{MAX_ARGUMENTS, MAX_DEPTH, MAX_OPEN, check, read};
