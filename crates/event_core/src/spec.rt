use crate::request::Ask;
use crate::settings::Settings;
use program::Program;
use std::sync::Arc;

/// What a client asks for when it makes a pengine (Lager and Wielemaker, TPLP 2014).
#[derive(Debug, Drop)]
pub struct Spec {
    /// The program that its queries run over.
    pub program: Arc<Program>,
    /// The first query, where there is one.
    pub ask: Option<Ask>,
    /// What the pengine is made with.
    pub settings: Settings,
    /// The bytes of the source text from which the program was read.
    pub bytes: u64,
}

/// The name of a pengine among those of a server: 128 bits, as a UUID has (RFC 9562).
#[derive(Clone, Copy, Debug, Drop, PartialEq, Eq)]
pub struct Id {
    pub bits: u128,
}
