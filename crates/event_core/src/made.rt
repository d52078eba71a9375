/// What a turn made. What is said of the numbers holds of a turn that starts as it is to be, as each does over a program that
/// keeps to the sandbox.
#[derive(Clone, Copy, Debug, Drop, PartialEq, Eq)]
pub struct Made {
    /// At most its budget.
    pub steps: u64,
    /// How many events, `memory` among them; at most 64. Not both numbers are 0.
    pub events: u64,
}
