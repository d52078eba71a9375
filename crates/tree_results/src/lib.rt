//! What the primitives over terms give, and what they are made with: results by the places of the
//! arguments, the tests of a term's kind, lists and new variables.
#![tactic(auto)]

mod kinds;
mod lists;
mod results;
mod variables;

pub use kinds::{is_atom, is_compound, is_either_variable, is_integer, is_variable};
pub use lists::{
    bound, is_empty, is_list, list_of, list_parts, may_be_list, needed_list, needed_values,
};
pub use results::{Offer, Outcome, ball, fails, one, tested, unifies, unknown};
pub use variables::{further, new_variables, variable_terms};
