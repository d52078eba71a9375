//! Results over terms as they are, offered over the cells of a store: of each pair the place of the
//! argument, and a cell for the term that the argument is unified with.
#![tactic(auto)]

mod cells;
mod offers;
mod outcome;

pub use offers::Offers;
pub use outcome::{Outcome, call};
