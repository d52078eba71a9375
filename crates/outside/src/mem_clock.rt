// Times from a list.
ghost use Rattle.std.specs.Prelude.{◌≡◌, IfOk};

use crate::Clock;
use std::alloc::Global;
use std::marker::Model;
use term_core::Memory;

/// A clock that shows the times of a list in order, the last one again and again. Contracts see it as
/// the times to come.
#[derive(Drop)]
pub struct MemClock {
    times: Vec<u64>,
    at: usize,
}

impl Model for MemClock {
    ghost use Rattle.std.specs.Prelude.{ℕ, List, drop};

    ghost Value = { List ℕ };

    ghost view = { λ c. drop c.at c.times.items };
}

impl MemClock {
    /// These times, in order. `Err` is want of memory.
    pub fn new(alloc: Global, times: &[u64]) -> Result<MemClock, Memory>
        ensures { IfOk result (λ c. c ≡ times.now) }
    {
        Ok(MemClock {
            times: times.to_vec(alloc)?,
            at: 0,
        })
    }
}

impl Clock for MemClock {
    ghost use Rattle.std.specs.Prelude.{Some};

    ghost ahead = { λ times. Some times };

    fn now(&mut self) -> u64 {
        if self.at >= self.times.len() {
            return 0;
        }
        let time = self.times[self.at];
        if self.at + 1 < self.times.len() {
            self.at += 1;
        }
        time
    }
}
