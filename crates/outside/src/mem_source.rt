// A source over bytes in memory, whose reads fail where it is told so.
ghost use Rattle.std.specs.Prelude.{◌≡◌, ◌<◌, ◌≤◌, IfOk, length, take};

use crate::{ReadGot, Source};
use std::alloc::Global;
use std::marker::Model;
use term_core::Memory;

/// A source over bytes in memory that tells them, gives them in pieces, and fails at the reads that
/// it is told to fail at.
#[derive(Drop)]
pub struct MemSource {
    bytes: Vec<u8>,
    at: usize,
    piece: u64,
    fails: Vec<u64>,
    reads: u64,
    faults: u64,
}

impl Model for MemSource {
    ghost use Rattle.std.specs.Prelude.{◌≤◌, length, drop};
    ghost use Rattle.outside.specs.Memory.{SourceState};

    ghost Value = { SourceState };

    ghost view = { λ s. record {
      left = drop s.at s.bytes.items;
      piece = s.piece;
      fails = s.fails.items;
      reads = s.reads;
      faults = s.faults;
    } };

    ghost invariant = { λ s. (s.at ≤ length s.bytes.items) × (1 ≤ s.piece) };
}

impl MemSource {
    /// A source of these bytes that gives at most `piece` of them in a read, and fails at the reads of
    /// the numbers in `fails`, counted from 1. `Err` is want of memory.
    pub fn new(alloc: Global, bytes: &[u8], piece: u64, fails: &[u64]) -> Result<MemSource, Memory>
        requires { 1 ≤ piece }
        ensures { IfOk result (λ s. s ≡ record {
          left = bytes.now;
          piece = piece;
          fails = fails.now;
          reads = 0;
          faults = 0;
        }) }
    {
        Ok(MemSource {
            bytes: bytes.to_vec(alloc)?,
            at: 0,
            piece,
            fails: fails.to_vec(alloc)?,
            reads: 0,
            faults: 0,
        })
    }

    /// How often it has failed.
    pub fn faults(&self) -> u64
        ensures { result ≡ self.now.faults }
    {
        self.faults
    }

    /// The bytes that it hasn't given yet.
    pub fn left(&self) -> &[u8]
        ensures { result.now ≡ self.now.left }
    {
        &self.bytes[self.at..]
    }
}

/// Copies first bytes, as many as there are, fit and are wanted, and says how many.
fn copy_front(from: &[u8], to: &mut [u8], most: u64) -> usize
    requires some_left { 0 < length from.now }
    requires some_room { 0 < length to.old }
    requires some_wanted { 1 ≤ most }
    ensures some { 1 ≤ result }
    ensures within { result ≤ length from.now }
    ensures fits { result ≤ length to.new }
    ensures wanted { result ≤ most }
    ensures copied { take result to.new ≡ take result from.now }
{
    let room = from.len().min(to.len());
    let count = if most < room as u64 {
        most as usize
    } else {
        room
    };
    to[..count].copy_from_slice(&from[..count]);
    count
}

impl Source for MemSource {
    ghost use Rattle.std.specs.Prelude.{Some};
    ghost use Rattle.outside.specs.Memory.{ReadsInMemory};

    ghost left = { λ s. Some s.left };

    ghost faults = { λ s. s.faults };

    ghost reads = { ReadsInMemory };

    fn read(&mut self, buf: &mut [u8]) -> ReadGot {
        self.reads = self.reads.saturating_add(1);
        if self.fails.contains(&self.reads) {
            self.faults = self.faults.saturating_add(1);
            return ReadGot::Failed;
        }
        let rest = &self.bytes[self.at..];
        if rest.is_empty() {
            return ReadGot::End;
        }
        let count = copy_front(rest, buf, self.piece);
        self.at += count;
        ReadGot::Got(count)
    }
}
