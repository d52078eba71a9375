//! The primitives on terms, over cells (ISO/IEC 13211-1, 8.2 to 8.7): tests of kind, comparison,
//! arithmetic, and terms made and taken apart.
#![tactic(auto)]

mod arg;
mod by_name;
mod compare;
mod functor;
mod integers;
mod kinds;
mod lists;
mod make;
mod outcome;
mod plan;
mod results;
mod rows;
mod univ;

pub use outcome::{Offers, Outcome, call};
pub use rows::is_row;
