// One for all: what several threads draw from.
use crate::{Clock, Entropy};
use std::sync::{Mutex, Wait};

/// One entropy or clock behind a lock, which several doors share. It tells nothing, since others draw
/// from it too, and its calls may wait.
#[derive(Drop)]
pub struct Shared<'a, R: Wait, T> {
    pub rt: &'a R,
    pub cell: &'a Mutex<T>,
}

impl<'a, R: Wait, E: Entropy> Entropy for Shared<'a, R, E> {
    ghost use Rattle.std.specs.Prelude.{None};

    ghost ahead = { λ _. None };

    fn word(&mut self) -> u64 {
        self.cell.lock(self.rt).word()
    }
}

impl<'a, R: Wait, C: Clock> Clock for Shared<'a, R, C> {
    ghost use Rattle.std.specs.Prelude.{None};

    ghost ahead = { λ _. None };

    fn now(&mut self) -> u64 {
        self.cell.lock(self.rt).now()
    }
}
