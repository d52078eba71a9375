use crate::parts::Parts;
use crate::splits::Splits;
use tree_results::Outcome;

/// What a primitive on the parts of a text gives.
#[derive(Debug, Drop)]
pub enum TextOutcome {
    /// The parts of a text.
    Parts(Parts),
    /// The two parts of a text.
    Splits(Splits),
    /// One result, none or an error.
    Outcome(Outcome),
}
