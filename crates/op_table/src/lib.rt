//! The table of operators (ISO 13211-1, 6.3.4.4) and its change by `op/3`.
#![tactic(auto)]

mod iso;
mod op;
mod ops;

pub use iso::{iso_infix, iso_prefix};
pub use op::{Op, OpFault, OpKind};
pub use ops::Ops;
