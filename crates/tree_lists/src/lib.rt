//! The primitives over terms on lists, and what findall/3, bagof/3 and setof/3 make of solutions.
#![tactic(auto)]

mod cells;
mod keyed;
mod solutions;
mod sorting;

pub use cells::skip_list;
pub use solutions::{Arrangement, findall_results, group_results};
pub use sorting::{keysort, msort, sort};
