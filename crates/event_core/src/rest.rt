/// Where a query rests when it has given what it has to give.
#[derive(Clone, Copy, Debug, Drop, PartialEq, Eq)]
pub enum Rest {
    /// Until a `next`.
    More,
    /// Until a `respond`.
    Prompting,
    /// It has ended.
    Over,
}
