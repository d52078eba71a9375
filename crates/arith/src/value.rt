use term_core::Term;

/// The value of an expression.
#[derive(Debug, Drop)]
pub enum Value {
    /// An integer, from -2^127 to 2^127 - 1.
    Int(i128),
    /// What is wrong: the first argument of the error term, as `instantiation_error`.
    Ball(Term),
}
