//! A lock by tickets over a value whose history only grows: every thread that holds a pass knows a prefix of the one history, and which of its
//! entries are its own (the ticket lock of Mellor-Crummey and Scott, ACM TOCS 9(1), 1991).
#![tactic(auto)]

mod lock;
mod rule;
mod view;

pub use lock::{HistoryLock, Pass};
pub use rule::{Adds, Draws, History, Leaves, Looks, Tickets};
pub use view::{Stage, View};
