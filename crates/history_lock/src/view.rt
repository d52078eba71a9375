// What a pass knows. No value of these types is made.
use std::collections::LinkedList;

/// Where a pass stands between its calls and within one.
pub enum Stage {
    /// It has no ticket.
    Idle,
    /// It has this ticket.
    Waiting(u64),
    /// Its ticket is served, and it holds the value.
    Holding(u64),
}

/// What a pass knows of the history.
pub struct View<E> {
    /// The history as far as the pass has seen it.
    pub seen: LinkedList<E>,
    /// The positions of its own entries.
    pub mine: LinkedList<u64>,
    pub stage: Stage,
    /// How many seats may still be split off.
    pub spare: u64,
}
