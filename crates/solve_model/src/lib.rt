//! Resolution: what a query gives, and the solver that computes it.
#![tactic(auto)]

mod answers;
mod arguments;
mod bindings;
mod calls;
mod catches;
mod collecting;
mod control;
mod frames;
mod goals;
mod items;
mod laws;
mod matching;
mod ready;
mod results;
mod search;
mod solutions;
mod solver;
mod steps;
mod talk;
mod work;

pub use answers::{Trace, TraceEnd, TraceMark};
pub use laws::{marks_stand, more_only_adds, prompts_take_replies};
pub use solver::trace;
pub use work::MAX_WORK;
