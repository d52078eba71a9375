//! The sandbox: whether a goal may be asked of a program, before it runs.
//!
//! The rules are this project's own, after the manual of SWI-Prolog's `library(sandbox)`: a goal is refused where it may reach
//! a predicate that is outside, and where what it would run can't be seen before it runs.
#![tactic(auto)]

mod bodies;
mod found;
mod kinds;
mod laws;
mod open;
mod positions;
mod reach;
mod refusal;
mod seen;
mod shown;
mod texts;
mod unsafe_goal;
mod verdict;

pub use kinds::table_of;
pub use laws::{
    loaded_programs_keep_the_sandbox, passed_goals_stay_inside, safe_goals_stay_inside,
    the_verdict_is_one,
};
pub use positions::goals_are_bodies;
pub use unsafe_goal::Unsafe;
pub use verdict::{Passed, check};
