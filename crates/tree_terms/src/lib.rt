//! The primitives over terms that test, compare, make and take apart terms.
#![tactic(auto)]

mod argument;
mod copies;
mod decompose;
mod functors;
mod kinds;
mod order;

pub use argument::arg;
pub use copies::{copy_term, term_variables};
pub use decompose::univ;
pub use functors::functor;
pub use kinds::of_one;
pub use order::compare;
