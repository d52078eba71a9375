use crate::grammar::lexeme::Word;
use op_table::Op;
use term_core::Name;

/// What is open: a bracket, or an operator that wants its operand.
#[derive(Debug, Drop)]
pub(crate) enum Frame {
    Bracket(Bracket),
    Prefix(Name, Op),
    Infix(Name, Op),
}

/// An open bracket, with the number of elements before the one that is read.
#[derive(Debug, Drop)]
pub(crate) enum Bracket {
    Round,
    Curly,
    List(u32),
    Tail(u32),
    Call(Name, u32),
}

/// What the last token left.
#[derive(Debug, Drop)]
pub(crate) enum Now {
    /// An operand is to come.
    Wants,
    /// A name was read where an operand is to come; the next token says what it is.
    Named(Word),
    /// An operand of this priority was read.
    Has(u32),
    /// No continuation allows the token.
    Stuck,
    /// The integer doesn't fit 128 bits.
    TooLarge,
}
