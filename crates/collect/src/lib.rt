//! Solutions of a goal, gathered (ISO/IEC 13211-1, 8.10): the list of findall/3, and the groups of bagof/3
//! and setof/3. A bag keeps its copies apart from the cells, so what backtracking undoes leaves them alone.
#![tactic(auto)]

mod bag;
mod numbers;

pub use bag::{Bag, BagKind};
pub use tree_offers::Offers;
