// A door over wires in memory, whose accepts fail where it is told so.
ghost use Rattle.std.specs.Prelude.{◌≡◌, [], IfOk};

use crate::{Accepted, Door, Wire};
use std::alloc::Global;
use std::collections::VecDeque;
use std::marker::Model;
use term_core::Memory;

/// A door that gives the wires of a list, keeps those handed back, tells both, and fails at the accepts
/// that it is told to fail at.
#[derive(Drop)]
pub struct MemDoor<W> {
    coming: VecDeque<W>,
    returned: Vec<W>,
    wires: usize,
    fails: Vec<u64>,
    accepts: u64,
    faults: u64,
}

impl<W> Model for MemDoor<W> {
    ghost use Rattle.std.specs.Prelude.{◌+◌, ◌-◌, ◌≤◌, length, vec_len, vec_capacity};
    ghost use Rattle.std.specs.VecDeque.{deque_len};
    ghost use Rattle.outside.specs.DoorState.{DoorState, door_code};

    ghost Value = { DoorState W };

    ghost coded = { door_code W.code };

    ghost view = { λ d. record {
      coming = d.coming.items;
      returned = d.returned.items;
      out = d.wires - (deque_len d.coming + vec_len d.returned);
      fails = d.fails.items;
      accepts = d.accepts;
      faults = d.faults;
    } };

    ghost invariant = { λ d. (deque_len d.coming + vec_len d.returned ≤ d.wires) × (d.wires ≤ vec_capacity d.returned) };
}

impl<W: Wire + Drop> MemDoor<W> {
    /// A door to these wires that fails at the accepts of the numbers in `fails`, counted from 1. It
    /// takes the room for what will be handed back. `Err` is want of memory.
    pub fn new(alloc: Global, wires: Vec<W>, fails: &[u64]) -> Result<MemDoor<W>, Memory>
        ensures { IfOk result (λ d. d ≡ record {
          coming = wires.items;
          returned = [];
          out = 0;
          fails = fails.now;
          accepts = 0;
          faults = 0;
        }) }
    {
        let count = wires.len();
        Ok(MemDoor {
            coming: VecDeque::from(wires),
            returned: Vec::with_capacity(alloc, count)?,
            wires: count,
            fails: fails.to_vec(alloc)?,
            accepts: 0,
            faults: 0,
        })
    }

    /// The wires handed back, in order and as they then were.
    pub fn returned(&self) -> &[W]
        ensures { result.now ≡ self.now.returned }
    {
        &self.returned
    }
}

impl<W: Wire + Drop> Door for MemDoor<W> {
    ghost use Rattle.std.specs.Prelude.{Some};
    ghost use Rattle.outside.specs.DoorState.{AcceptsInMemory, ClosesInMemory};

    type Wire = W;

    ghost coming = { λ d. Some d.coming };

    ghost returned = { λ d. Some d.returned };

    ghost out = { λ d. d.out };

    ghost faults = { λ d. d.faults };

    ghost accepts = { AcceptsInMemory };

    ghost closes = { ClosesInMemory };

    fn accept(&mut self) -> Accepted<W> {
        self.accepts = self.accepts.saturating_add(1);
        if self.fails.contains(&self.accepts) {
            self.faults = self.faults.saturating_add(1);
            return Accepted::Failed;
        }
        match self.coming.pop_front() {
            Some(wire) => Accepted::Wire(wire),
            None => Accepted::Closed,
        }
    }

    fn close(&mut self, wire: W) {
        let Ok(()) = self.returned.push(wire) else {
            unreachable!()
        };
    }
}
