//! One pengine, whatever turns fall.
#![tactic(auto)]

mod answers;
mod automaton;
mod copies;
mod cut;
mod laws;
mod letter;
mod node;
mod query;
mod ring;
mod session;
mod state;
mod took;
mod turn;

pub use answers::{Given, Pulled, PulledMany, SendFault};
pub use laws::{
    answers_are_the_pengines, kept_programs_resolve, lost_turns_are_older, no_more_wait,
    schedule_doesnt_matter, turns_start_well,
};
pub use session::Session;
pub use took::Took;
pub use turn::Turn;
