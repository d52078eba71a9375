//! The primitives over terms that compute: the values of expressions, their comparison, `is/2`,
//! `plus/3` and `divmod/4`.
#![tactic(auto)]

mod compare;
mod integers;
mod values;

pub use compare::{assign, compare_values};
pub use integers::{divmod, plus};
