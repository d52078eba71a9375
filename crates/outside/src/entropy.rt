// Where words of chance come from.
ghost use Rattle.std.specs.Prelude.{ℕ, List, Option, [], ◌∷◌};
ghost use Rattle.outside.specs.Words.{Draws};

/// Where words come from that nobody is to choose. It has no faults.
///
/// An entropy may tell the words to come. Where it does, a call gives the first of them and leaves the
/// others, and 0 where none is left.
pub trait Entropy {
    /// The words to come, where they are told.
    ghost ahead: { Self → Option (List ℕ) };

    /// The next word.
    fn word(&mut self) -> u64
        ensures { Draws (ahead self.old) (ahead self.new) (result ∷ []) };
}
