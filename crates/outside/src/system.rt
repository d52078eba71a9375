// Chance and time of the operating system.
ghost use Rattle.std.specs.Prelude.{◌≡◌};

use crate::{Clock, Entropy};
use std::random::RandomSource;
use std::time;

/// The operating system's random words. They aren't told; a word that it doesn't give is 0.
#[derive(Drop)]
pub struct OsEntropy<R: RandomSource> {
    rt: R,
}

impl<R: RandomSource> OsEntropy<R> {
    /// The words of this system.
    pub fn new(rt: R) -> OsEntropy<R> {
        OsEntropy { rt }
    }
}

impl<R: RandomSource> Entropy for OsEntropy<R> {
    ghost use Rattle.std.specs.Prelude.{None};

    ghost ahead = { λ _. None };

    fn word(&mut self) -> u64 {
        let mut bytes = [0u8; 8];
        match self.rt.fill_bytes(&mut bytes) {
            Ok(()) => u64::from_le_bytes(bytes),
            Err(_) => 0,
        }
    }
}

/// The operating system's monotonic clock. Its times aren't told; where it can't be read it stands
/// still.
#[derive(Drop)]
pub struct OsClock<R: time::Clock> {
    rt: R,
    last: u64,
}

impl<R: time::Clock> OsClock<R> {
    /// The clock of this system.
    pub fn new(rt: R) -> OsClock<R> {
        OsClock { rt, last: 0 }
    }
}

impl<R: time::Clock> Clock for OsClock<R> {
    ghost use Rattle.std.specs.Prelude.{None};

    ghost ahead = { λ _. None };

    fn now(&mut self) -> u64 {
        if let Ok(time) = self.rt.monotonic() {
            self.last = u64::try_from(time.as_millis()).unwrap_or(u64::MAX);
        }
        self.last
    }
}
