ghost use Rattle.std.specs.Prelude.{◌≡◌};
ghost use Rattle.prolog_write.specs.Text.{is_operand, most};

/// Where a term stands in a text, as the definition of a text has it.
#[derive(Clone, Copy, Debug, Drop, PartialEq, Eq)]
pub enum Place {
    /// By itself or within brackets.
    Whole,
    /// As an argument or an element of a list.
    Argument,
    /// As an operand that has at most this priority.
    Operand(u32),
}

impl Place {
    pub(crate) fn is_operand(self) -> bool
        ensures { result ≡ is_operand self }
    {
        matches!(self, Place::Operand(_))
    }

    // The greatest priority of an operator that needs no brackets there.
    pub(crate) fn most(self) -> u32
        ensures { result ≡ most self }
    {
        match self {
            Place::Whole => 1200,
            Place::Argument => 999,
            Place::Operand(priority) => priority,
        }
    }
}
