use crate::limits::DEFAULT_LIMIT;

/// What a pengine is made with.
#[derive(Clone, Copy, Debug, Drop, PartialEq, Eq)]
pub struct Settings {
    /// How many answers an event holds where an ask names no number; from 1 to [`MAX_CHUNK`](crate::MAX_CHUNK). It holds fewer where their texts have
    /// [`CHUNK_BYTES`](crate::CHUNK_BYTES) together.
    pub chunk: u32,
    /// How many steps each query may make; from 1 to [`MAX_LIMIT`](crate::MAX_LIMIT).
    pub limit: u64,
    /// Whether the pengine is destroyed at the end of a query.
    pub destroys: bool,
    /// Whether its answers carry the names of the query's variables.
    pub names: bool,
}

impl Settings {
    /// One answer an event, the default limit of steps, the pengine is destroyed at the end of its first query, and its answers carry no names.
    pub const DEFAULT: Settings = Settings {
        chunk: 1,
        limit: DEFAULT_LIMIT,
        destroys: true,
        names: false,
    };
}
