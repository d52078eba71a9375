// Where bytes come from.
ghost use Rattle.std.specs.Prelude.{◌<◌, ℕ, List, Option, ⊤, length};
ghost use Rattle.outside.specs.declared.source.ReadGot.{ReadGot};
ghost use Rattle.outside.specs.Source.{IsReadCount, Gives, CountsRead};

/// What a read answers.
#[derive(Clone, Copy, Debug, PartialEq, Eq)]
pub enum ReadGot {
    /// So many bytes, at the front of the buffer: from 1 to the buffer's length.
    Got(usize),
    /// No byte is left, and none will come.
    End,
    /// The read failed: the count of faults rose in it, and no byte was lost.
    Failed,
}

/// Where bytes come from, in order, each once.
///
/// A source may tell the bytes that it has left. Where it does, its reads give these bytes and no
/// others; where it doesn't, as for a stream of the operating system, contracts say nothing of
/// which bytes come.
///
/// A source counts its faults. The count never falls, and a read answers [`ReadGot::Failed`] only
/// where the count rose in it. "Rose" also holds where the count stands at 2^64 - 1, since a
/// counter of 64 bits stays there.
pub trait Source {
    /// The bytes left, where they are told.
    ghost left: { Self → Option (List ℕ) };

    /// How often it has failed.
    ghost faults: { Self → ℕ };

    /// What else a read does, before and after. An implementation may say more of its reads here, and
    /// a trait above this one may ask for something by a law; by itself it says nothing.
    ghost reads: { Self → ReadGot → Self → Type 0 } = { λ _ _ _. ⊤ };

    /// Reads some bytes to the front of a buffer that isn't empty.
    ///
    /// `Got` gives the first of the bytes left and leaves the rest. `End` comes only where none is
    /// left. `End` and `Failed` leave the bytes as they were, so a read after `Failed` may go on.
    fn read(&mut self, buf: &mut [u8]) -> ReadGot
        requires { 0 < length buf.old }
        ensures count { IsReadCount result (length buf.new) }
        ensures bytes { Gives (left self.old) (left self.new) result buf.new }
        ensures cause { CountsRead (faults self.old) (faults self.new) result }
        ensures step { reads self.old result self.new };
}
