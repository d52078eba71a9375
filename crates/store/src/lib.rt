//! Cells that stand for terms: the memory of the resumable engine.
//!
//! A store is flat. A cell is the place of a word of 64 bits, in which stand a variable, a small integer, an
//! atom, or a compound's functor with the place of its arguments. Nothing here recurses on a term's depth.
#![tactic(auto)]

mod cell;
mod cells;
mod heap;
mod seen;
mod word;

pub use cell::Cell;
pub use cells::Store;
pub use seen::{Offer, Seen, Taken};
pub use word::MAX_CELLS;
