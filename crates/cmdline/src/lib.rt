//! The words of a command line: the command that they name, with its operands and options, or that
//! they are refused.
//!
//! The words are walked by `clap`. What they mean is a definition of this crate's own, and where
//! `clap` takes more than that, a check of this crate refuses it: a lone `-`, an option's value that
//! begins with `-`, a number with a sign or with more than 9 digits.
#![tactic(auto)]

mod arguments;
mod command;
mod fault;
mod help;
mod jobs;
mod numbers;
mod verb;
mod words;

pub use command::Command;
pub use fault::WordFault;
pub use help::usage;
pub use words::{doors_wanted, read_words};

#[cfg(test)]
mod tests;
