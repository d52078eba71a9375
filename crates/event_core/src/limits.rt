/// The greatest number of answers that an event may be asked to hold; the least is 1.
pub const MAX_CHUNK: u64 = 1_000;

/// The steps that a query may make where its pengine names no limit.
pub const DEFAULT_LIMIT: u64 = 1_000;

/// The greatest limit of steps that a pengine may name; the least is 1.
pub const MAX_LIMIT: u64 = 1_000;

/// The greatest number of bytes of the quoted text of a term in an event.
pub const MAX_TEXT: u64 = 65_536;

/// The greatest depth of a term in an event.
pub const MAX_DEPTH: u64 = 1_000;

/// A chunk of answers is closed where the quoted texts of its answers have this many bytes or more together.
pub const CHUNK_BYTES: u64 = 983_040;
