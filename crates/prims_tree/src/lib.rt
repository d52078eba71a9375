//! The primitives over terms as they are: what a goal of each gives, by the definition that
//! the engine's primitives over cells also have.
#![tactic(auto)]

mod by_name;
mod offer;
mod outcome;
mod placed;
mod solutions;

pub use by_name::{call, placed_call};
pub use offer::{Offer, Offers, find_first};
pub use outcome::{Outcome, PlacedOutcome};
pub use placed::PlacedOffers;
pub use solutions::{findall_offers, group_offers, placed_findall_offers, placed_group_offers};
pub use tree_lists::Arrangement;
pub use tree_results::{list_of, may_be_list, variable_terms};
