//! The text of a term (ISO 13211-1, 7.10.5), with the operators of the standard's table.
//!
//! A text is the term's pieces from left to right, with the spaces that they need and no others. It is written in one
//! walk over the term's nodes, so that depth costs memory and no stack, and never has more bytes than its limit.
#![tactic(auto)]

mod atoms;
mod form;
mod lexeme;
mod mode;
mod output;
mod place;
mod stack;
mod task;
mod write;

pub use form::Form;
pub use mode::{Mode, WriteStop};
pub use place::Place;
pub use write::{argument_text, text};
