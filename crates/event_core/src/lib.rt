//! What a client sees of a pengine: its requests, the stops of its queries, and its events.
#![tactic(auto)]

mod chunk;
mod event;
mod fit;
mod laws;
mod limits;
mod local;
mod made;
mod names;
mod print;
mod reached;
mod reader;
mod refused;
mod request;
mod rest;
mod settings;
mod spec;
mod stop;
mod stops;
mod text;
mod waiting;

pub use event::{Event, EventName, Kind};
pub use fit::{Fit, fit_of};
pub use laws::{
    asked_goals_stay_inside, asked_reads_are_local, chunks_dont_matter, enough_can_be_asked,
    events_only_grow, further_only_adds, readers_rest_as_parts_do, reads_are_local,
    requests_only_add, steps_never_fall, steps_only_add, terms_are_numbered,
};
pub use limits::{CHUNK_BYTES, DEFAULT_LIMIT, MAX_CHUNK, MAX_DEPTH, MAX_LIMIT, MAX_TEXT};
pub use local::{Answers, End};
pub use made::Made;
pub use print::line;
pub use reached::{Reached, reach};
pub use reader::Reader;
pub use refused::refusal;
pub use request::{Ask, Request};
pub use rest::Rest;
pub use settings::Settings;
pub use spec::{Id, Spec};
pub use stop::Stop;
pub use text::fits;
pub use waiting::Waiting;
