//! The values of expressions that stand in cells (ISO/IEC 13211-1, 9.1 to 9.4).
#![tactic(auto)]

mod machine;
mod value;

pub use machine::{MAX_VISITED, eval};
pub use value::Value;
