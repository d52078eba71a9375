use crate::turn::Turn;

/// The answer to a take.
#[derive(Debug, Drop)]
pub enum Took {
    Turn(Turn),
    /// The query's turn is out.
    Out,
    /// No query runs.
    Idle,
    /// 64 events wait.
    QueueFull,
}
