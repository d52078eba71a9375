use event_core::{Ask, Request};
use program::Program;
use std::collections::LinkedList;
use std::sync::Arc;

// A query, with the program that it runs over and the fitting requests after its ask.
#[derive(Debug, Drop)]
pub(crate) struct Query {
    pub(crate) program: Arc<Program>,
    pub(crate) ask: Ask,
    pub(crate) requests: LinkedList<Request>,
}
