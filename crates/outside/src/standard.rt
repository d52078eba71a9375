// The streams of the operating system. They tell no content.
ghost use Rattle.std.specs.Prelude.{◌≡◌};

use crate::{ReadGot, Sink, Source, Wrote};
use std::io::{Read, Stdin, Write};
use std::marker::Model;

/// The standard input, which contracts see as its count of faults. Every error of the operating
/// system is a fault.
#[derive(Drop)]
pub struct StdSource {
    input: Stdin,
    faults: u64,
}

impl Model for StdSource {
    ghost use Rattle.std.specs.Prelude.{ℕ};

    ghost Value = { ℕ };

    ghost view = { λ s. s.faults };
}

impl StdSource {
    /// A source over the standard input, with no fault yet.
    pub fn new(input: Stdin) -> StdSource
        ensures { result ≡ 0 }
    {
        StdSource { input, faults: 0 }
    }
}

impl Source for StdSource {
    ghost use Rattle.std.specs.Prelude.{None};

    ghost left = { λ _. None };

    ghost faults = { λ s. s };

    fn read(&mut self, buf: &mut [u8]) -> ReadGot {
        match self.input.read(buf) {
            Ok(0) => ReadGot::End,
            Ok(count) => ReadGot::Got(count),
            Err(_) => {
                self.faults = self.faults.saturating_add(1);
                ReadGot::Failed
            }
        }
    }
}

/// A stream of output, which contracts see as its count of faults. Every error of the operating
/// system is a fault.
#[derive(Drop)]
pub struct StdSink<W: Write> {
    to: W,
    faults: u64,
}

impl<W: Write> Model for StdSink<W> {
    ghost use Rattle.std.specs.Prelude.{ℕ};

    ghost Value = { ℕ };

    ghost view = { λ s. s.faults };
}

impl<W: Write> StdSink<W> {
    /// A sink that writes to `to`, with no fault yet.
    pub fn new(to: W) -> StdSink<W>
        ensures { result ≡ 0 }
    {
        StdSink { to, faults: 0 }
    }
}

impl<W: Write> Sink for StdSink<W> {
    ghost use Rattle.std.specs.Prelude.{None};

    ghost taken = { λ _. None };

    ghost faults = { λ s. s };

    /// A write that takes nothing is a fault.
    fn write(&mut self, piece: &[u8]) -> Wrote {
        match self.to.write(piece) {
            Ok(count) if count > 0 => Wrote::Took(count),
            _ => {
                self.faults = self.faults.saturating_add(1);
                Wrote::Failed
            }
        }
    }
}
